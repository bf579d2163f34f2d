//! The steps of a script.
ghost use Rattle.std.specs.Prelude.{◌≡◌};
ghost use Rattle.net_script.specs.Grammar.{carry_in, cast_in, cut_in, join_in, open_in, pair_in, round_in, say_in, step_in, way_between};
ghost use Rattle.net_script.specs.Reading.{HasNumbers};

use crate::numbers::{count, number};
use crate::servers::{are_peers, pair_of, server_of, two_in, two_servers};
use crate::types::{Script, ScriptStep};
use crate::words::{StepWord, call, line, part, part_twice};

/// `open A CALL`
fn open_step(script: &Script, text: &[u8]) -> Option<ScriptStep>
    requires { HasNumbers script.now }
    ensures { result ≡ open_in script.now text.now }
{
    let (name, client) = part(text)?;
    Some(ScriptStep::Open {
        server: server_of(script, name)?,
        call: call(client)?,
    })
}

/// `say A CALL TEXT`
fn say_step(script: &Script, text: &[u8]) -> Option<ScriptStep>
    requires { HasNumbers script.now }
    ensures { result ≡ say_in script.now text.now }
{
    let (name, client, said) = part_twice(text)?;
    Some(ScriptStep::Say {
        server: server_of(script, name)?,
        call: call(client)?,
        line: line(said)?,
    })
}

/// `round A MOMENT`
fn round_step(script: &Script, text: &[u8]) -> Option<ScriptStep>
    requires { HasNumbers script.now }
    ensures { result ≡ round_in script.now text.now }
{
    let (name, moment) = part(text)?;
    Some(ScriptStep::Round {
        server: server_of(script, name)?,
        moment: number(moment)?,
    })
}

/// The pair of a text of two servers, in the order of its uplink.
fn pair_in(script: &Script, text: &[u8]) -> Option<u16>
    requires { HasNumbers script.now }
    ensures { result ≡ pair_in script.now text.now }
{
    let (low, high) = two_in(script, text)?;
    pair_of(script, low, high)
}

/// `join A B`
fn join_step(script: &Script, text: &[u8]) -> Option<ScriptStep>
    requires { HasNumbers script.now }
    ensures { result ≡ join_in script.now text.now }
{
    Some(ScriptStep::Join {
        pair: pair_in(script, text)?,
    })
}

/// `cut A B`
fn cut_step(script: &Script, text: &[u8]) -> Option<ScriptStep>
    requires { HasNumbers script.now }
    ensures { result ≡ cut_in script.now text.now }
{
    Some(ScriptStep::Cut {
        pair: pair_in(script, text)?,
    })
}

/// The pair between two servers, and whether the way from the one to the other is that of its uplink.
fn way_between(script: &Script, from: u16, to: u16) -> Option<(u16, bool)>
    requires { HasNumbers script.now }
    ensures { result ≡ way_between from to script.now.pairs }
{
    match pair_of(script, from, to) {
        Some(pair) => Some((pair, true)),
        None => Some((pair_of(script, to, from)?, false)),
    }
}

/// `carry A B N`
fn carry_step(script: &Script, text: &[u8]) -> Option<ScriptStep>
    requires { HasNumbers script.now }
    ensures { result ≡ carry_in script.now text.now }
{
    let (from, to, n) = part_twice(text)?;
    let (from, to) = two_servers(script, from, to)?;
    let (pair, up) = way_between(script, from, to)?;
    let n = count(n, 1, 1460)? as u16;
    Some(ScriptStep::Carry { pair, up, n })
}

/// `cast A B K`
fn cast_step(script: &Script, text: &[u8]) -> Option<ScriptStep>
    requires { HasNumbers script.now }
    ensures { result ≡ cast_in script.now text.now }
{
    let (from, to, k) = part_twice(text)?;
    let (from, to) = two_servers(script, from, to)?;
    let k = count(k, 1, u32::MAX)?;
    if are_peers(script.peers.as_slice(), from, to) {
        Some(ScriptStep::Cast { from, to, k })
    } else {
        None
    }
}

/// The step of a line that begins with this word.
pub fn read_step(script: &Script, word: StepWord, text: &[u8]) -> Option<ScriptStep>
    requires { HasNumbers script.now }
    ensures { result ≡ step_in word script.now text.now }
{
    match word {
        StepWord::Open => open_step(script, text),
        StepWord::Say => say_step(script, text),
        StepWord::Round => round_step(script, text),
        StepWord::Join => join_step(script, text),
        StepWord::Cut => cut_step(script, text),
        StepWord::Carry => carry_step(script, text),
        StepWord::Cast => cast_step(script, text),
    }
}
