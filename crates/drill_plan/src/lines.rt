//! The lines, each made from a state, and how the states follow one another.
ghost use Rattle.std.specs.Prelude.{◌≡◌, ◌++◌, ◌/◌, ◌%◌, ◌≤◌, codes, length};
ghost use Rattle.drill_plan.specs.Drill.{body_text, drill_line, message_text, next_state, position_text, status_text};

use crate::writing::{
    append, append_number, append_receiver, append_three_digits, append_two_digits, empty,
};
use aprs_base::Chunk;

/// The state after this one.
pub(crate) fn next_state(state: u32) -> u32
    ensures { result ≡ next_state state }
{
    ((u64::from(state) * 1_103_515_245 + 12_345) % 2_147_483_648) as u32
}

/// The high bits of a state, which are more random than the low ones.
fn high(state: u32) -> u32
    ensures { result ≡ state / 65536 }
{
    state / 65_536
}

fn append_position(text: &mut Chunk, state: u32)
    requires { length text.old ≤ 100 }
    ensures text { text.new ≡ text.old ++ position_text state }
    ensures short { length text.new ≤ 200 }
{
    append(text, b"!");
    append_two_digits(text, high(state) % 60);
    append(text, b"00.00N/");
    append_three_digits(text, state / 1024 % 120);
    append(text, b"00.00E-");
}

fn append_status(text: &mut Chunk, state: u32)
    requires { length text.old ≤ 100 }
    ensures text { text.new ≡ text.old ++ status_text state }
    ensures short { length text.new ≤ 200 }
{
    append(text, b">s");
    append_number(text, high(state) % 8);
}

fn append_message(text: &mut Chunk, state: u32)
    requires { length text.old ≤ 100 }
    ensures text { text.new ≡ text.old ++ message_text state }
    ensures short { length text.new ≤ 200 }
{
    append(text, b":");
    append_receiver(text, state / 4096 % 50);
    append(text, b":m");
    append_number(text, high(state) % 8);
}

#[tactic(auto, unfolding(crate::specs::Drill::body_text))]
fn append_body(text: &mut Chunk, state: u32)
    requires { length text.old ≤ 100 }
    ensures text { text.new ≡ text.old ++ body_text state }
    ensures short { length text.new ≤ 200 }
{
    match state / 256 % 4 {
        0 => append_position(text, state),
        1 => append_status(text, state),
        2 => append_message(text, state),
        _ => append(text, b"T#001"),
    }
}

/// The line of a state, with its end.
#[tactic(auto, unfolding(crate::specs::Drill::drill_line))]
pub(crate) fn line_text(state: u32) -> Chunk
    ensures { result ≡ drill_line state ++ codes "\r\n" }
{
    let mut text = empty();
    append(&mut text, b"S");
    append_number(&mut text, high(state) % 50);
    append(&mut text, b">APRS,D1,I:");
    append_body(&mut text, state);
    append(&mut text, b"\r\n");
    text
}
