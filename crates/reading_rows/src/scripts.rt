//! Scripts of networks, and the configurations of their servers.

use crate::confs::conf_text;
use crate::fields::no_memory;
use net_history::{Pair, PeerPair};
use net_script::{Script, ScriptError, ScriptServer, ScriptStep, StepLine, read};
use row_texts::{RowError, read_bytes, write_bytes};
use std::alloc::{AllocError, Global};

fn put_server(alloc: Global, text: &mut String, server: &ScriptServer) -> Result<(), AllocError> {
    let call = write_bytes(alloc, server.call.bytes())?;
    write!(text, "\n    server {call} {}", server.window)
}

fn put_pair(text: &mut String, pair: &Pair) -> Result<(), AllocError> {
    write!(text, "\n    pair {}.{}", pair.low, pair.uplink)?;
    write!(text, " {}.{}", pair.high, pair.listener)
}

fn put_peers(text: &mut String, pair: &PeerPair) -> Result<(), AllocError> {
    write!(text, "\n    peers {}.{}", pair.a, pair.at_a)?;
    write!(text, " {}.{}", pair.b, pair.at_b)
}

/// A step whose words are numbers alone.
fn put_numbers(text: &mut String, step: &ScriptStep) -> Result<(), AllocError> {
    match step {
        ScriptStep::Round { server, moment } => write!(text, "round {server} {moment}"),
        ScriptStep::Join { pair } => write!(text, "join {pair}"),
        ScriptStep::Cut { pair } => write!(text, "cut {pair}"),
        ScriptStep::Carry { pair, up, n } => write!(text, "carry {pair} {up} {n}"),
        ScriptStep::Cast { from, to, k } => write!(text, "cast {from} {to} {k}"),
        _ => Ok(()),
    }
}

fn put_step(alloc: Global, text: &mut String, line: &StepLine) -> Result<(), AllocError> {
    write!(text, "\n    line {}: ", line.number)?;
    match &line.step {
        ScriptStep::Open { server, call } => {
            write!(text, "open {server} {}", write_bytes(alloc, call.bytes())?)
        }
        ScriptStep::Say { server, call, line } => {
            write!(text, "say {server} {} ", write_bytes(alloc, call.bytes())?)?;
            write!(text, "{}", write_bytes(alloc, line.bytes())?)
        }
        step => put_numbers(text, step),
    }
}

fn script_text(alloc: Global, script: &Script) -> Result<String, AllocError> {
    let mut text = String::new(alloc);
    for server in &script.servers {
        put_server(alloc, &mut text, server)?;
    }
    for pair in &script.pairs {
        put_pair(&mut text, pair)?;
    }
    for pair in &script.peers {
        put_peers(&mut text, pair)?;
    }
    for line in &script.steps {
        put_step(alloc, &mut text, line)?;
    }
    Ok(text)
}

/// What a script says, or its first bad line.
pub fn script(alloc: Global, field: &str) -> Result<String, RowError> {
    match read(alloc, read_bytes(alloc, field)?.as_slice()) {
        Ok(script) => Ok(script_text(alloc, &script)?),
        Err(ScriptError::Memory) => Err(RowError::Memory(AllocError)),
        Err(fault) => Ok(format!(in alloc; "{fault}")?),
    }
}

/// The configurations of a script's servers.
pub fn confs(alloc: Global, field: &str) -> Result<String, RowError> {
    let Ok(script) = read(alloc, read_bytes(alloc, field)?.as_slice()) else {
        return Err(RowError::Word);
    };
    let mut text = String::new(alloc);
    for conf in &script.confs(alloc).map_err(no_memory)? {
        text.push_str(conf_text(alloc, conf)?.as_str())?;
    }
    Ok(text)
}
