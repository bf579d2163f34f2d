//! The logins of the links.
ghost use Rattle.std.specs.Prelude.{◌≡◌, ◌++◌, ◌%◌, ◌<◌, ◌≤◌, codes, length};
ghost use Rattle.drill_plan.specs.Drill.{drill_login, filter_of, filter_part, link_name};

use crate::writing::{append, append_number, empty};
use aprs_base::{Call, Chunk};
use login_pass::passcode;

/// The name by which a link logs in.
fn link_name(link: u32) -> Call
    requires { link < 100000000 }
    ensures { result ≡ link_name link }
{
    let mut name = empty();
    append(&mut name, b"D");
    append_number(&mut name, link);
    Call::read(name.bytes()).unwrap()
}

/// The filter of a link.
fn filter_of(link: u32) -> &'static [u8]
    ensures text { result.now ≡ filter_of link }
    ensures short { length result.now ≤ 20 }
{
    match link % 4 {
        0 => b"t/m".as_slice(),
        1 => b"p/S1/S2".as_slice(),
        2 => b"r/50/30/1500".as_slice(),
        _ => b"t/poims -b/S3*".as_slice(),
    }
}

/// The end of a login: its filter, of which link 1 has none.
fn append_filter(text: &mut Chunk, link: u32)
    requires { length text.old ≤ 100 }
    ensures text { text.new ≡ text.old ++ filter_part link }
    ensures short { length text.new ≤ 200 }
{
    if link != 1 {
        append(text, b" filter ");
        append(text, filter_of(link));
    }
}

/// The login of a link, with its line end.
#[tactic(auto, unfolding(crate::specs::Drill::drill_login))]
pub(crate) fn login_text(link: u32) -> Chunk
    requires { link < 100000000 }
    ensures { result ≡ drill_login link ++ codes "\r\n" }
{
    let name = link_name(link);
    let mut text = empty();
    append(&mut text, b"user ");
    append(&mut text, name.bytes());
    append(&mut text, b" pass ");
    append_number(&mut text, u32::from(passcode(&name)));
    append_filter(&mut text, link);
    append(&mut text, b"\r\n");
    text
}
