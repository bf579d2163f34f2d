//! What an argument of a line may be.
ghost use Rattle.std.specs.Prelude.{◌≡◌, ◌≤◌, ◌&&◌, ◌∷◌, Some, None, true, [], if◌then◌else◌, nat_le, MatchOption};
ghost use Rattle.std.specs.Char.{is_ascii_digit};
ghost use Rattle.std.specs.List.{list_all, slice_split};
ghost use Rattle.std.specs.Option.{option_map};
ghost use Rattle.login_pass.specs.Login.{number_from};
ghost use Rattle.aprs_conf.specs.Arguments.{clients_of, four, host_of, ip_of, is_dot, is_plain, kind_of, last_in, octet_of, octets_in, port_of, same, seconds_of, station_of, time_of, window_of};

use aprs_base::{Call, PortKind, all_digits, first_place};
use arrayvec::ArrayVec;
use login_pass::code_number;

/// The most seconds of a time.
const LONGEST: u32 = 10_000_000;

/// What a listener serves, and whether it is idle.
#[derive(Clone, Copy)]
pub struct Service {
    pub kind: PortKind,
    pub idle: bool,
}

/// A call that may name a station.
pub fn station(text: &[u8]) -> Option<Call>
    ensures { result ≡ station_of text.now }
{
    let call = Call::read(text)?;
    if call.is_station() { Some(call) } else { None }
}

/// A number of one to five digits without leading zeros.
fn plain_number(text: &[u8]) -> Option<u32>
    ensures { result ≡ (if is_plain text.now then Some (number_from 0 text.now) else None) }
{
    let number = code_number(text)?;
    if text.len() == 1 || text[0] != b'0' {
        Some(number)
    } else {
        None
    }
}

fn octet(text: &[u8]) -> Option<u8>
    ensures { result ≡ octet_of text.now }
{
    u8::try_from(plain_number(text)?).ok()
}

/// A port, 1 to 65,535.
pub fn port(text: &[u8]) -> Option<u16>
    ensures { result ≡ port_of text.now }
{
    let number = u16::try_from(plain_number(text)?).ok()?;
    if number == 0 { None } else { Some(number) }
}

/// A number of clients, 1 to 10,000.
pub fn clients(text: &[u8]) -> Option<u32>
    ensures { result ≡ clients_of text.now }
{
    let number = plain_number(text)?;
    if number == 0 || number > 10_000 {
        None
    } else {
        Some(number)
    }
}

/// The number that digits spell, where it is no more than the longest time.
fn short_number(digits: &[u8]) -> Option<u32>
    requires { list_all is_ascii_digit digits.now ≡ true }
    ensures { result ≡ (if nat_le (number_from 0 digits.now) 10000000 then Some (number_from 0 digits.now) else None) }
{
    let mut number: u32 = 0;
    for digit in digits {
        number = number * 10 + u32::from(*digit - b'0');
        if number > LONGEST {
            return None;
        }
    }
    Some(number)
}

/// The seconds that so many units have, 1 to 10,000,000.
fn seconds(digits: &[u8], unit: u32) -> Option<u32>
    requires { (1 ≤ unit) × (unit ≤ 86400) }
    ensures { result ≡ seconds_of unit digits.now }
{
    if digits.is_empty() || !all_digits(digits) {
        return None;
    }
    let seconds = u64::from(short_number(digits)?) * u64::from(unit);
    if seconds == 0 || seconds > u64::from(LONGEST) {
        None
    } else {
        Some(seconds as u32)
    }
}

/// A time in seconds.
pub fn time(text: &[u8]) -> Option<u32>
    ensures { result ≡ time_of text.now }
{
    match text {
        [digits @ .., b's'] => seconds(digits, 1),
        [digits @ .., b'm'] => seconds(digits, 60),
        [digits @ .., b'h'] => seconds(digits, 3_600),
        [digits @ .., b'd'] => seconds(digits, 86_400),
        _ => seconds(text, 1),
    }
}

/// The seconds of a duplicate window, 10 to 300.
pub fn window(text: &[u8]) -> Option<u32>
    ensures { result ≡ window_of text.now }
{
    let seconds = time(text)?;
    if seconds < 10 || seconds > 300 {
        None
    } else {
        Some(seconds)
    }
}

/// The text before the first dot and the text after it, where there is one.
fn cut_dot(text: &[u8]) -> Option<(&[u8], &[u8])>
    ensures { MatchOption result (slice_split is_dot text.now ≡ text.now ∷ []) (λ p. slice_split is_dot text.now ≡ p.0.now ∷ slice_split is_dot p.1.now) }
{
    let place = first_place(b'.', text);
    if place == text.len() {
        None
    } else {
        Some((&text[..place], &text[place + 1..]))
    }
}

/// The number, where no dot follows it.
fn last_octet(text: &[u8]) -> Option<u8>
    ensures { result ≡ last_in (slice_split is_dot text.now) }
{
    match cut_dot(text) {
        Some(_) => None,
        None => octet(text),
    }
}

/// The numbers of four parts, where no dot follows the last.
fn four_octets(first: &[u8], second: &[u8], third: &[u8], last: &[u8]) -> Option<[u8; 4]>
    ensures { result ≡ four (octet_of first.now) (octet_of second.now) (octet_of third.now) (last_in (slice_split is_dot last.now)) }
{
    Some([
        octet(first)?,
        octet(second)?,
        octet(third)?,
        last_octet(last)?,
    ])
}

fn octets(text: &[u8]) -> Option<[u8; 4]>
    ensures { result ≡ octets_in (slice_split is_dot text.now) }
{
    let (first, rest) = cut_dot(text)?;
    let (second, rest) = cut_dot(rest)?;
    let (third, last) = cut_dot(rest)?;
    four_octets(first, second, third, last)
}

/// An IPv4 address; `::` stands for every address.
pub fn ip(text: &[u8]) -> Option<[u8; 4]>
    ensures { result ≡ ip_of text.now }
{
    if text == b"::".as_slice() {
        Some([0, 0, 0, 0])
    } else {
        octets(text)
    }
}

/// A host of 1 to 64 bytes.
pub fn host(text: &[u8]) -> Option<ArrayVec<u8, 64>>
    ensures { option_map (λ h. h.items) result ≡ host_of text.now }
{
    if text.is_empty() {
        return None;
    }
    ArrayVec::try_from(text).ok()
}

/// Whether these are the wanted kind and protocol.
pub fn is_pair(word: &[u8], proto: &[u8], wanted: &[u8], by: &[u8]) -> bool
    ensures { result ≡ (same word.now wanted.now && same proto.now by.now) }
{
    word == wanted && proto == by
}

fn serves(kind: PortKind, idle: bool) -> Option<Service>
    ensures { result ≡ Some (record { kind = kind; idle = idle }) }
{
    Some(Service { kind, idle })
}

/// What a listener of this kind and protocol serves.
pub fn kind(word: &[u8], proto: &[u8]) -> Option<Service>
    ensures { result ≡ kind_of word.now proto.now }
{
    if is_pair(word, proto, b"fullfeed", b"tcp") {
        serves(PortKind::Full, false)
    } else if is_pair(word, proto, b"igate", b"tcp") {
        serves(PortKind::Igate, false)
    } else if is_pair(word, proto, b"clientonly", b"tcp") {
        serves(PortKind::Only, false)
    } else if is_pair(word, proto, b"dupefeed", b"tcp") {
        serves(PortKind::Dupe, false)
    } else if is_pair(word, proto, b"udpsubmit", b"udp") {
        serves(PortKind::Submit, false)
    } else if is_pair(word, proto, b"fullfeed", b"udp") {
        serves(PortKind::Full, true)
    } else if is_pair(word, proto, b"igate", b"udp") {
        serves(PortKind::Igate, true)
    } else if is_pair(word, proto, b"clientonly", b"udp") {
        serves(PortKind::Only, true)
    } else {
        None
    }
}
