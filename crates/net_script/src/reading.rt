//! The reading of a script's text.
ghost use Rattle.std.specs.Prelude.{◌≡◌, ℕ, ◌≤◌, ◌+◌, ◌<◌, length, Ok, Err, IfOk, IsErrOf, MatchResult};
ghost use Rattle.net_script.specs.Grammar.{after, lines_of, peer_says, says, server_says, step_says, uplink_says};
ghost use Rattle.net_script.specs.Limits.{KeepsLimits};
ghost use Rattle.net_script.specs.Reading.{BecomesUnless, FailsAt, HasNumbers, at_number, drafted, empty, script_of};

use crate::errors::{LineError, ScriptError};
use crate::servers::{read_peers, read_server, read_uplink};
use crate::steps::read_step;
use crate::types::{Script, StepLine};
use crate::words::{LineWord, StepWord, cut_line, line_word, part};
use std::alloc::Global;

/// The most bytes of a script.
const MOST_BYTES: usize = 65_536;

impl Script {
    /// A script to which no line has added.
    fn new(alloc: Global) -> Script
        ensures { result ≡ empty }
    {
        Script {
            servers: Vec::new(alloc),
            pairs: Vec::new(alloc),
            peers: Vec::new(alloc),
            steps: Vec::new(alloc),
        }
    }
}

#[tactic(auto, unfolding(crate::specs::Grammar::server_says))]
fn add_server(script: &mut Script, text: &[u8]) -> Result<(), LineError>
    requires { HasNumbers script.old }
    ensures { BecomesUnless result script.new (server_says script.old text.now) }
{
    let server = read_server(script, text).ok_or(LineError::Bad)?;
    script.servers.push(server)?;
    Ok(())
}

#[tactic(auto, unfolding(crate::specs::Grammar::uplink_says))]
fn add_uplink(script: &mut Script, text: &[u8]) -> Result<(), LineError>
    requires { HasNumbers script.old }
    ensures { BecomesUnless result script.new (uplink_says script.old text.now) }
{
    let pair = read_uplink(script, text).ok_or(LineError::Bad)?;
    script.pairs.push(pair)?;
    Ok(())
}

#[tactic(auto, unfolding(crate::specs::Grammar::peer_says))]
fn add_peers(script: &mut Script, text: &[u8]) -> Result<(), LineError>
    requires { HasNumbers script.old }
    ensures { BecomesUnless result script.new (peer_says script.old text.now) }
{
    let pair = read_peers(script, text).ok_or(LineError::Bad)?;
    script.peers.push(pair)?;
    Ok(())
}

#[tactic(auto, unfolding(crate::specs::Grammar::step_says))]
fn add_step(script: &mut Script, number: u32, word: StepWord, text: &[u8]) -> Result<(), LineError>
    requires { HasNumbers script.old }
    ensures { BecomesUnless result script.new (step_says word number script.old text.now) }
{
    let step = read_step(script, word, text).ok_or(LineError::Bad)?;
    script.steps.push(StepLine { number, step })?;
    Ok(())
}

/// Adds what the line of this word says.
fn add(script: &mut Script, number: u32, word: LineWord, text: &[u8]) -> Result<(), LineError>
    requires { HasNumbers script.old }
    ensures { BecomesUnless result script.new (says word number script.old text.now) }
{
    let is_begun = !script.steps.is_empty();
    match word {
        LineWord::Step(word) => add_step(script, number, word, text),
        _ if is_begun => Err(LineError::Bad),
        LineWord::Server => add_server(script, text),
        LineWord::Uplink => add_uplink(script, text),
        LineWord::Peer => add_peers(script, text),
    }
}

/// Adds what a line says.
#[tactic(auto, unfolding(crate::specs::Grammar::after))]
fn add_line(script: &mut Script, number: u32, line: &[u8]) -> Result<(), LineError>
    requires { HasNumbers script.old }
    ensures { BecomesUnless result script.new (after number script.old line.now) }
{
    let (name, text) = part(line).ok_or(LineError::Bad)?;
    let word = line_word(name).ok_or(LineError::Bad)?;
    add(script, number, word, text)
}

fn at_line(number: u32, error: LineError) -> ScriptError
    ensures { result ≡ at_number number error }
{
    match error {
        LineError::Bad => ScriptError::BadStep(number),
        LineError::Memory => ScriptError::Memory,
    }
}

/// The script of all lines.
fn read_lines(alloc: Global, text: &[u8]) -> Result<Script, ScriptError>
    requires { length text.now ≤ 65536 }
    ensures { MatchResult result (λ script. drafted 1 empty (lines_of text.now) ≡ Ok script) (λ e. FailsAt e (drafted 1 empty (lines_of text.now))) }
{
    let mut script = Script::new(alloc);
    let mut number: u32 = 1;
    let mut rest = text;
    while !rest.is_empty() {
        let (line, behind) = cut_line(rest);
        if let Err(error) = add_line(&mut script, number, line) {
            return Err(at_line(number, error));
        }
        number += 1;
        rest = behind;
    }
    Ok(script)
}

/// Reads a script. Its lines are, with single blanks between the words:
///
/// - `server CALL` or `server CALL W`: a server with the call of a station, and its duplicate window W, 10 to 300 seconds without
///   leading zeros, else 30. There are at most 16.
/// - `uplink A B`: the server A has an uplink to the first listener of B. `peer A B`: each is a peer of the other. A server has at most 8
///   of each, and two servers at most one of each.
/// - `open A CALL`, `say A CALL TEXT` with 1 to 510 bytes without CR, `round A MOMENT` with 1 to 12 digits, `join A B` and `cut A B` in the
///   order of the `uplink` line, `carry A B N` in either order with N from 1 to 1,460, `cast A B K` between peers with K from 1 to
///   4,294,967,295; N and K have no leading zeros.
///
/// A and B are calls of servers that differ. Servers and what joins them stand before the first step. A line ends in LF, which the last
/// may lack. The error is `TooLarge` where the text has more than 65,536 bytes, and else the number of the first line that is off these
/// forms, names what no line before it made, or makes a server or a pair again.
#[tactic(auto, unfolding(crate::specs::Reading::script_of))]
pub fn read(alloc: Global, text: &[u8]) -> Result<Script, ScriptError>
    ensures value { IfOk result (λ script. script_of text.now ≡ Ok script) }
    ensures bad { (n : ℕ) → IsErrOf result (ScriptError.BadStep n) → script_of text.now ≡ Err (ScriptError.BadStep n) }
    ensures limits { IfOk result KeepsLimits }
    ensures large { IsErrOf result ScriptError.TooLarge → script_of text.now ≡ Err ScriptError.TooLarge }
{
    if text.len() > MOST_BYTES {
        return Err(ScriptError::TooLarge);
    }
    read_lines(alloc, text)
}
