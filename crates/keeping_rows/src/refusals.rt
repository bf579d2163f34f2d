//! Refusals, by their names in a row.

use crate::fields::{Fault, Fields};
use aprs_history::Refusal;
use login_pass::LoginFault;
use q_construct::QDrop;
use tnc2_line::LineFault;

const LOGIN_FAULTS: [(&str, LoginFault); 4] = [
    ("no-user", LoginFault::NotUser),
    ("bad-call", LoginFault::BadCall),
    ("no-pass", LoginFault::NoPass),
    ("bad-pass", LoginFault::BadPass),
];

const LINE_FAULTS: [(&str, LineFault); 7] = [
    ("no-colon", LineFault::NoColon),
    ("no-arrow", LineFault::NoArrow),
    ("bad-source", LineFault::BadSource),
    ("bad-dest", LineFault::BadDest),
    ("bad-via", LineFault::BadVia(0)),
    ("two-constructs", LineFault::TwoConstructs),
    ("no-body", LineFault::NoBody),
];

fn line_fault(fields: &mut Fields) -> Result<LineFault, Fault> {
    match fields.named(LINE_FAULTS.as_slice())? {
        LineFault::BadVia(_) => Ok(LineFault::BadVia(fields.number())),
        fault => Ok(fault),
    }
}

fn path_drop(fields: &mut Fields) -> Result<QDrop, Fault> {
    match fields.word() {
        "unverified" => Ok(QDrop::Unverified),
        "no-gate" => Ok(QDrop::NoGate),
        "third-party" => Ok(QDrop::ThirdParty),
        "query" => Ok(QDrop::Query),
        "qaz" => Ok(QDrop::QAZ),
        "names-server" => Ok(QDrop::NamesServer),
        "twice" => Ok(QDrop::Twice(fields.call())),
        "other-login" => Ok(QDrop::OtherLogin(fields.call())),
        "login-not-last" => Ok(QDrop::LoginNotLast),
        "long" => Ok(QDrop::Long),
        _ => Err(Fault::Unknown),
    }
}

/// Why a line is refused.
pub fn read_refusal(fields: &mut Fields) -> Result<Refusal, Fault> {
    match fields.word() {
        "long" => Ok(Refusal::Long),
        "login" => Ok(Refusal::Login(fields.named(LOGIN_FAULTS.as_slice())?)),
        "own-name" => Ok(Refusal::OwnName),
        "packet" => Ok(Refusal::Packet(line_fault(fields)?)),
        "read-only" => Ok(Refusal::ReadOnly),
        "stranger" => Ok(Refusal::Stranger),
        "path" => Ok(Refusal::Path(path_drop(fields)?)),
        _ => Err(Fault::Unknown),
    }
}
