//! The names of refusals, loops and ends.
ghost use Rattle.std.specs.Prelude.{◌≡◌, ◌++◌, ◌+◌, ◌≤◌, length};
ghost use Rattle.aprs_history.specs.Journal.{login_name, mark_name, packet_name, path_name, reason_name};

use crate::writing::{append, append_number};
use aprs_base::Call;
use aprs_history::EndReason;
use arrayvec::ArrayVec;
use login_pass::LoginFault;
use q_construct::QDrop;
use tnc2_line::LineFault;

pub(crate) fn login_name(fault: LoginFault) -> &'static [u8]
    ensures name { result.now ≡ login_name fault }
    ensures short { length result.now ≤ 8 }
{
    match fault {
        LoginFault::NotUser => b"no-user".as_slice(),
        LoginFault::BadCall => b"bad-call".as_slice(),
        LoginFault::NoPass => b"no-pass".as_slice(),
        LoginFault::BadPass => b"bad-pass".as_slice(),
    }
}

pub(crate) fn mark_name(verified: bool) -> &'static [u8]
    ensures name { result.now ≡ mark_name verified }
    ensures short { length result.now ≤ 10 }
{
    if verified {
        b"verified".as_slice()
    } else {
        b"unverified".as_slice()
    }
}

pub(crate) fn reason_name(reason: EndReason) -> &'static [u8]
    ensures name { result.now ≡ reason_name reason }
    ensures short { length result.now ≤ 8 }
{
    match reason {
        EndReason::ByPeer => b"ended".as_slice(),
        EndReason::FoundGone => b"gone".as_slice(),
        EndReason::NoLogin => b"nologin".as_slice(),
        EndReason::Silent => b"silent".as_slice(),
        EndReason::Overfull => b"overfull".as_slice(),
        EndReason::Full => b"full".as_slice(),
        EndReason::Unasked => b"unasked".as_slice(),
        EndReason::ByStop => b"stop".as_slice(),
    }
}

pub(crate) fn append_packet_name(text: &mut ArrayVec<u8, 48>, fault: LineFault)
    requires { length text.old.items ≤ 25 }
    ensures { text.new.items ≡ text.old.items ++ packet_name fault }
{
    match fault {
        LineFault::NoColon => append(text, b"no-colon"),
        LineFault::NoArrow => append(text, b"no-arrow"),
        LineFault::BadSource => append(text, b"bad-source"),
        LineFault::BadDest => append(text, b"bad-dest"),
        LineFault::BadVia(number) => {
            append(text, b"bad-via ");
            append_number(text, u32::from(number));
        }
        LineFault::TwoConstructs => append(text, b"two-constructs"),
        LineFault::NoBody => append(text, b"no-body"),
    }
}

/// A name that ends in a call.
fn append_call_name(text: &mut ArrayVec<u8, 48>, word: &[u8], call: &Call)
    requires { length text.old.items + length word.now ≤ 39 }
    ensures { text.new.items ≡ text.old.items ++ (word.now ++ call.now) }
{
    append(text, word);
    append(text, call.bytes());
}

pub(crate) fn append_path_name(text: &mut ArrayVec<u8, 48>, why: &QDrop)
    requires { length text.old.items ≤ 25 }
    ensures { text.new.items ≡ text.old.items ++ path_name why.now }
{
    match why {
        QDrop::Unverified => append(text, b"unverified"),
        QDrop::NoGate => append(text, b"no-gate"),
        QDrop::ThirdParty => append(text, b"third-party"),
        QDrop::Query => append(text, b"query"),
        QDrop::QAZ => append(text, b"qaz"),
        QDrop::NamesServer => append(text, b"names-server"),
        QDrop::Twice(call) => append_call_name(text, b"twice ", call),
        QDrop::OtherLogin(call) => append_call_name(text, b"other-login ", call),
        QDrop::LoginNotLast => append(text, b"login-not-last"),
        QDrop::Long => append(text, b"too-long"),
    }
}
