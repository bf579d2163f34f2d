//! The writing of a line's text.
ghost use Rattle.std.specs.Prelude.{◌≡◌, ◌++◌, ◌+◌, ◌≤◌, codes, length};
ghost use Rattle.std.specs.Fmt.{decimal};
ghost use Rattle.aprs_history.specs.Journal.{label};

use aprs_base::Source;
use arrayvec::ArrayVec;
use itoa::Buffer;

pub(crate) fn append(text: &mut ArrayVec<u8, 48>, bytes: &[u8])
    requires { length text.old.items + length bytes.now ≤ 48 }
    ensures { text.new.items ≡ text.old.items ++ bytes.now }
{
    text.try_extend_from_slice(bytes).unwrap();
}

/// A number in digits, of which there are ten at most.
pub(crate) fn append_number(text: &mut ArrayVec<u8, 48>, number: u32)
    requires { length text.old.items ≤ 38 }
    ensures text { text.new.items ≡ text.old.items ++ decimal number }
    ensures short { length text.new.items ≤ length text.old.items + 10 }
{
    let mut digits = Buffer::new();
    append(text, digits.format(number).as_bytes());
}

/// Who said it.
pub(crate) fn append_label(text: &mut ArrayVec<u8, 48>, group: u16, from: &Source)
    requires { length text.old.items ≤ 37 }
    ensures text { text.new.items ≡ text.old.items ++ label group from.now }
    ensures short { length text.new.items ≤ length text.old.items + 11 }
{
    match from {
        Source::Link(link) => append_number(text, *link),
        Source::Submit(listener) => append_listener(text, *listener),
        Source::Peer(_) => append_listener(text, group),
    }
}

/// The listener of a datagram.
fn append_listener(text: &mut ArrayVec<u8, 48>, listener: u16)
    requires { length text.old.items ≤ 37 }
    ensures text { text.new.items ≡ text.old.items ++ (codes "u" ++ decimal listener) }
    ensures short { length text.new.items ≤ length text.old.items + 11 }
{
    append(text, b"u");
    append_number(text, u32::from(listener));
}
