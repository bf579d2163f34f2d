//! Logins and passcodes.

use crate::fields::{read_call, read_line};
use login_pass::{Login, code_number, downlink, passcode, read_login};
use row_texts::{RowError, read_bytes, write_bytes};
use std::alloc::{AllocError, Global};

/// Who logs in, by which code, whether that is the call's, and where the filter begins and how long it is.
fn login_text(alloc: Global, login: &Login) -> Result<String, AllocError> {
    let call = write_bytes(alloc, login.call.bytes())?;
    let verified = if login.verified() {
        "verified"
    } else {
        "unverified"
    };
    format!(in alloc;
        "call {call} code {:?} {verified} filter {:?}",
        login.code, login.filter
    )
}

/// A login line.
pub fn login(alloc: Global, field: &str) -> Result<String, RowError> {
    match read_login(&read_line(alloc, field)?) {
        Ok(login) => Ok(login_text(alloc, &login)?),
        Err(fault) => Ok(format!(in alloc; "{fault:?}")?),
    }
}

/// A call's passcode.
pub fn pass(alloc: Global, field: &str) -> Result<String, RowError> {
    let call = read_call(alloc, field)?;
    Ok(format!(in alloc; "{}", passcode(&call))?)
}

/// The number of a code's digits.
pub fn code(alloc: Global, field: &str) -> Result<String, RowError> {
    let text = read_bytes(alloc, field)?;
    Ok(format!(in alloc; "{:?}", code_number(text.as_slice()))?)
}

/// The port to which a login asks its lines to be sent.
pub fn downlink_port(alloc: Global, field: &str) -> Result<String, RowError> {
    Ok(format!(in alloc; "{:?}", downlink(&read_line(alloc, field)?))?)
}
