//! Lines at the server T2TEST, by the rule of the q construct.
ghost use Rattle.std.specs.Prelude.{IfOk, IsTrue};
ghost use Rattle.aprs_base.specs.Bytes.{is_station};
ghost use Rattle.q_construct.specs.Rule.{has_station};
ghost use Rattle.tnc2_line.specs.Packet.{IsParts};

use crate::fields::{read_call, read_line, said};
use crate::packets::line_text;
use aprs_base::{Addr, Call, Parts};
use q_construct::{Listed, Origin, QDrop, process, process_into};
use row_texts::{RowError, split_word, write_bytes};
use std::alloc::{AllocError, Global};
use tnc2_line::{read, write};

/// A field that is a station's call.
fn read_station(alloc: Global, field: &str) -> Result<Call, RowError>
    ensures { IfOk result (λ call. IsTrue (is_station call)) }
{
    let call = read_call(alloc, field)?;
    if call.is_station() {
        Ok(call)
    } else {
        Err(RowError::Word)
    }
}

/// A client, which is verified or not, or one that only sends.
fn client(login: Call, how: &str) -> Result<Origin, RowError>
    requires { IsTrue (is_station login) }
    ensures { IfOk result (λ origin. IsTrue (has_station origin)) }
{
    let (verified, only) = match how {
        "verified" => (true, false),
        "unverified" => (false, false),
        "only" => (true, true),
        _ => return Err(RowError::Word),
    };
    Ok(Origin::Client {
        login,
        verified,
        only,
    })
}

/// Where a line comes from, as `how:CALL`. An uplink is at the address 10.0.0.9.
fn origin(alloc: Global, field: &str) -> Result<Origin, RowError>
    ensures { IfOk result (λ origin. IsTrue (has_station origin)) }
{
    let (how, call) = field.split_once(':').ok_or(RowError::Word)?;
    let call = read_station(alloc, call)?;
    match how {
        "udp" => Ok(Origin::Udp { login: call }),
        "peer" => Ok(Origin::Peer(call)),
        "uplink" => Ok(Origin::Uplink(Addr {
            ip: [10, 0, 0, 9],
            port: 1,
        })),
        _ => client(call, how),
    }
}

/// The calls of other links, parted by commas, or `-`.
fn others(alloc: Global, field: &str) -> Result<Vec<Call>, RowError> {
    let mut calls = Vec::new(alloc);
    if field != "-" {
        for call in field.split(',') {
            calls.push(read_call(alloc, call)?)?;
        }
    }
    Ok(calls)
}

fn read_parts(alloc: Global, field: &str) -> Result<Parts, RowError>
    ensures { IfOk result (λ parts. IsParts parts) }
{
    read(&read_line(alloc, field)?).map_err(|_| RowError::Word)
}

fn drop_name(drop: &QDrop) -> &'static str {
    match drop {
        QDrop::Unverified => "Unverified",
        QDrop::NoGate => "NoGate",
        QDrop::ThirdParty => "ThirdParty",
        QDrop::Query => "Query",
        QDrop::QAZ => "QAZ",
        QDrop::NamesServer => "NamesServer",
        QDrop::Twice(_) => "Twice",
        QDrop::OtherLogin(_) => "OtherLogin",
        QDrop::LoginNotLast => "LoginNotLast",
        QDrop::Long => "Long",
    }
}

/// The name of a drop, and the call that it names.
fn drop_text(alloc: Global, drop: &QDrop) -> Result<String, AllocError> {
    match drop {
        QDrop::Twice(call) => format!(in alloc; "Twice {}", write_bytes(alloc, call.bytes())?),
        QDrop::OtherLogin(call) => {
            format!(in alloc; "OtherLogin {}", write_bytes(alloc, call.bytes())?)
        }
        other => String::from_str(alloc, drop_name(other)),
    }
}

/// The line as it goes on, or why it doesn't. It is to be the same where it is put into parts that are still to be filled.
pub fn goes_on(alloc: Global, row: &str) -> Result<String, RowError> {
    let (from, row) = split_word(row);
    let (logins, line) = split_word(row);
    let origin = origin(alloc, from)?;
    let others = others(alloc, logins)?;
    let server = read_station(alloc, "T2TEST")?;
    let parts = read_parts(alloc, line)?;
    let others = others.as_slice();
    let mut whole = Parts::unfilled();
    let listed = Listed { calls: others };
    let filled = match process_into(&mut whole, &parts, &origin, &server, &listed) {
        Ok(()) => line_text(alloc, write(&whole).ok())?,
        Err(drop) => drop_text(alloc, &drop)?,
    };
    let answer = match process(&parts, &origin, &server, others) {
        Ok(parts) => line_text(alloc, write(&parts).ok())?,
        Err(drop) => drop_text(alloc, &drop)?,
    };
    if filled.as_str() != answer.as_str() {
        return said(alloc, "two answers");
    }
    Ok(answer)
}
