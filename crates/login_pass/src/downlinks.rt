//! Logins that ask for their lines by datagrams.
ghost use Rattle.std.specs.Prelude.{◌≡◌, ◌≤◌, ℕ, length};
ghost use Rattle.login_pass.specs.Downlinks.{downlink_of, is_good, port_of, word_at};
ghost use Rattle.login_pass.specs.Login.{login_of};
ghost use Rattle.login_pass.specs.Words.{words_from};

use crate::login_line::{code_number, read_login};
use crate::words::{is_word, next_word};
use aprs_base::Line;

/// The word that stands so many words behind this place.
fn word_from(line: &[u8], place: usize, n: u32) -> &[u8]
    requires { place ≤ length line.now }
    ensures { result.now ≡ word_at n (words_from place line.now) }
{
    let word = next_word(line, place);
    if n == 0 {
        &line[word.start..word.end]
    } else {
        word_from(line, word.end, n - 1)
    }
}

/// The port that one to five digits spell.
fn read_port(text: &[u8]) -> Option<u16>
    ensures { result ≡ port_of text.now }
{
    let port = code_number(text)?;
    if port == 0 || port > 65_535 {
        return None;
    }
    Some(port as u16)
}

fn is_verified_login(line: &Line) -> bool
    ensures { result ≡ is_good (login_of line.now) }
{
    match read_login(line) {
        Ok(login) => login.verified(),
        Err(_) => false,
    }
}

/// The port, 1 to 65535, to which a verified login asks its lines to be sent: `user CALL pass CODE vers NAME VERSION UDP PORT`, the
/// keywords in any case. No port for any other line. Takes no memory.
#[tactic(auto, unfolding(crate::specs::Downlinks::downlink_of))]
pub fn downlink(line: &Line) -> Option<u16>
    ensures { result ≡ downlink_of line.now }
{
    let text = line.bytes();
    if !is_verified_login(line)
        || !is_word(b"vers", word_from(text, 0, 4))
        || !is_word(b"UDP", word_from(text, 0, 7))
    {
        return None;
    }
    read_port(word_from(text, 0, 8))
}
