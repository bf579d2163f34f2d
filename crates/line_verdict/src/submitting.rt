//! Who submits a datagram.
ghost use Rattle.std.specs.Prelude.{◌≡◌, IfOk, IsTrue};
ghost use Rattle.aprs_base.specs.Bytes.{is_station};
ghost use Rattle.aprs_history.specs.Verdicts.{submitter_of};

use aprs_base::{Call, Cut};
use aprs_history::Refusal;
use login_pass::read_login;
use q_construct::QDrop;

/// The login that a datagram begins with, which must be verified and another than the server's own call, or why the whole
/// datagram is refused.
pub fn submitter_of(server: &Call, cut: &Cut) -> Result<Call, Refusal>
    ensures exact { result ≡ submitter_of server.now cut.now }
    ensures station { IfOk result (λ login. IsTrue (is_station login)) }
{
    let Cut::Line(line) = cut else {
        return Err(Refusal::Long);
    };
    match read_login(line) {
        Err(fault) => Err(Refusal::Login(fault)),
        Ok(login) if login.call == *server => Err(Refusal::OwnName),
        Ok(login) if !login.verified() => Err(Refusal::Path(QDrop::Unverified)),
        Ok(login) => Ok(login.call),
    }
}
