//! The lines, each by what it tells. Moments are in seconds. None takes memory.
ghost use Rattle.std.specs.Prelude.{◌≡◌, ◌++◌, ◌+◌, ◌≤◌, codes, length};
ghost use Rattle.std.specs.Fmt.{decimal};
ghost use Rattle.aprs_history.specs.Journal.{end_line, filter_line, is_loop, join_line, label, line_of, login_line, open_line, path_line, path_name, refusal_line, refused_line, unjoined_line};

use crate::names::{append_packet_name, append_path_name, login_name, mark_name, reason_name};
use crate::writing::{append, append_label, append_number};
use aprs_base::{JournalLine, Kind, Source};
use aprs_history::{EndReason, Refusal, Session};
use arrayvec::ArrayVec;
use q_construct::QDrop;
use tnc2_line::LineFault;

/// The beginning of a line: its word, and who it is about.
fn begun(word: &[u8], group: u16, from: &Source) -> ArrayVec<u8, 48>
    requires { length word.now ≤ 8 }
    ensures text { result.items ≡ word.now ++ label group from.now }
    ensures short { length result.items ≤ length word.now + 11 }
{
    let mut text = ArrayVec::new();
    append(&mut text, word);
    append_label(&mut text, group, from);
    text
}

fn line_of(kind: Kind, moment: u64, text: ArrayVec<u8, 48>) -> JournalLine
    ensures { result ≡ line_of kind moment text.items }
{
    JournalLine { kind, moment, text }
}

/// A line that says that something was refused, and by which name.
fn refused(group: u16, from: &Source, moment: u64, name: &[u8]) -> JournalLine
    requires { length name.now ≤ 20 }
    ensures { result ≡ refused_line (label group from.now) moment name.now }
{
    let mut text = begun(b"refused ", group, from);
    append(&mut text, b" ");
    append(&mut text, name);
    line_of(Kind::Refusal, moment, text)
}

/// A line that says that what came was refused as no packet, and by which name.
fn refused_packet(group: u16, from: &Source, moment: u64, fault: LineFault) -> JournalLine
    ensures { result ≡ refusal_line (label group from.now) moment (Refusal.Packet fault) }
{
    let mut text = begun(b"refused ", group, from);
    append(&mut text, b" ");
    append_packet_name(&mut text, fault);
    line_of(Kind::Refusal, moment, text)
}

/// Whether the drop tells of a loop.
fn is_loop(why: &QDrop) -> bool
    ensures { result ≡ is_loop why.now }
{
    matches!(
        why,
        QDrop::NamesServer | QDrop::Twice(_) | QDrop::OtherLogin(_) | QDrop::LoginNotLast
    )
}

/// A line that says that the q construct rule dropped a packet, and why.
fn refused_path(group: u16, from: &Source, moment: u64, why: &QDrop) -> JournalLine
    ensures { result ≡ path_line (label group from.now) moment why.now }
{
    if is_loop(why) {
        dropped(b"loop ", Kind::Loop, group, from, moment, why)
    } else {
        dropped(b"refused ", Kind::Refusal, group, from, moment, why)
    }
}

fn dropped(
    word: &[u8],
    kind: Kind,
    group: u16,
    from: &Source,
    moment: u64,
    why: &QDrop,
) -> JournalLine
    requires { length word.now ≤ 8 }
    ensures { result ≡ line_of kind moment (word.now ++ (label group from.now ++ (codes " " ++ path_name why.now))) }
{
    let mut text = begun(word, group, from);
    append(&mut text, b" ");
    append_path_name(&mut text, why);
    line_of(kind, moment, text)
}

/// The line of a refusal. `group` is the number of the peer group's listener.
pub fn refusal_line(group: u16, from: &Source, moment: u64, refusal: &Refusal) -> JournalLine
    ensures { result ≡ refusal_line (label group from.now) moment refusal.now }
{
    match refusal {
        Refusal::Long => refused(group, from, moment, b"long"),
        Refusal::Login(fault) => refused(group, from, moment, login_name(*fault)),
        Refusal::OwnName => refused(group, from, moment, b"own-name"),
        Refusal::Packet(fault) => refused_packet(group, from, moment, *fault),
        Refusal::ReadOnly => refused(group, from, moment, b"read-only"),
        Refusal::Stranger => refused(group, from, moment, b"stranger"),
        Refusal::Path(why) => refused_path(group, from, moment, why),
        Refusal::Duplicate(..) => duplicate_line(group, from, moment),
    }
}

/// The line of a duplicate that is refused, whatever its packet is.
pub fn duplicate_line(group: u16, from: &Source, moment: u64) -> JournalLine
    ensures { result ≡ refused_line (label group from.now) moment (codes "duplicate") }
{
    refused(group, from, moment, b"duplicate")
}

/// The line of a filter that is refused.
pub fn filter_line(group: u16, from: &Source, moment: u64) -> JournalLine
    ensures { result ≡ filter_line (label group from.now) moment }
{
    refused(group, from, moment, b"filter")
}

/// The line of a good login.
pub fn login_line(group: u16, from: &Source, moment: u64, session: &Session) -> JournalLine
    ensures { result ≡ login_line (label group from.now) moment session.now }
{
    let mut text = begun(b"login ", group, from);
    append(&mut text, b" ");
    append(&mut text, session.call.bytes());
    append(&mut text, b" ");
    append(&mut text, mark_name(session.verified));
    line_of(Kind::Session, moment, text)
}

/// A line of a session's step: a word, a link's number, and another.
fn step(word: &[u8], moment: u64, link: u32, other: u16) -> JournalLine
    requires { length word.now ≤ 8 }
    ensures { result ≡ line_of Kind.Session moment (word.now ++ (decimal link ++ (codes " " ++ decimal other))) }
{
    let mut text = ArrayVec::new();
    append(&mut text, word);
    append_number(&mut text, link);
    append(&mut text, b" ");
    append_number(&mut text, u32::from(other));
    line_of(Kind::Session, moment, text)
}

/// The line of a link that has come to a listener.
pub fn open_line(moment: u64, link: u32, listener: u16) -> JournalLine
    ensures { result ≡ open_line moment link listener }
{
    step(b"open ", moment, link, listener)
}

/// The line of a link to an uplink, which has joined.
pub fn join_line(moment: u64, link: u32, uplink: u16) -> JournalLine
    ensures { result ≡ join_line moment link uplink }
{
    step(b"join ", moment, link, uplink)
}

/// The line of a dial that came to nothing.
pub fn unjoined_line(moment: u64, uplink: u16) -> JournalLine
    ensures { result ≡ unjoined_line moment uplink }
{
    let mut text = ArrayVec::new();
    append(&mut text, b"unjoined ");
    append_number(&mut text, u32::from(uplink));
    line_of(Kind::Session, moment, text)
}

/// The line of a link that has ended.
pub fn end_line(moment: u64, link: u32, reason: EndReason) -> JournalLine
    ensures { result ≡ end_line moment link reason }
{
    let mut text = ArrayVec::new();
    append(&mut text, b"end ");
    append_number(&mut text, link);
    append(&mut text, b" ");
    append(&mut text, reason_name(reason));
    line_of(Kind::Session, moment, text)
}
