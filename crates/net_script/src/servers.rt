//! The servers of a script, and what joins them.
ghost use Rattle.std.specs.Prelude.{◌≡◌};
ghost use Rattle.std.specs.List.{position};
ghost use Rattle.aprs_conf.specs.Arguments.{same};
ghost use Rattle.std.specs.Option.{option_map};
ghost use Rattle.net_script.specs.Grammar.{are_joined, are_peers, pair_at, parted, peer_in, peers_of, server_at, server_in, two_in, two_servers, uplink_in, uplinks_of, with_window};
ghost use Rattle.net_script.specs.Reading.{HasNumbers};

use crate::numbers::count;
use crate::types::{Script, ScriptServer};
use crate::words::{part, station};
use net_history::{Pair, PeerPair};

const MOST_SERVERS: usize = 16;

const MOST_UPLINKS: usize = 8;

const MOST_PEERS: usize = 8;

/// The duplicate window of a server of which none is said, in seconds.
const WINDOW: u32 = 30;

fn place_of(servers: &[ScriptServer], call: &[u8]) -> Option<usize>
    ensures { result ≡ position (λ server. same server.call call.now) servers.now }
{
    servers
        .iter()
        .position(|server| server.call.bytes() == call)
}

/// The number of the server with that call.
pub fn server_of(script: &Script, call: &[u8]) -> Option<u16>
    requires { HasNumbers script.now }
    ensures { result ≡ server_at script.now call.now }
{
    Some(place_of(script.servers.as_slice(), call)? as u16)
}

/// Two servers that differ.
pub fn two_servers(script: &Script, first: &[u8], second: &[u8]) -> Option<(u16, u16)>
    requires { HasNumbers script.now }
    ensures { result ≡ two_servers script.now first.now second.now }
{
    let first = server_of(script, first)?;
    let second = server_of(script, second)?;
    if first == second {
        None
    } else {
        Some((first, second))
    }
}

/// The two servers of a text of two words.
pub fn two_in(script: &Script, text: &[u8]) -> Option<(u16, u16)>
    requires { HasNumbers script.now }
    ensures { result ≡ two_in script.now text.now }
{
    let (first, second) = part(text)?;
    two_servers(script, first, second)
}

fn place_between(pairs: &[Pair], low: u16, high: u16) -> Option<usize>
    ensures { result ≡ pair_at low high pairs.now }
{
    pairs
        .iter()
        .position(|pair| pair.low == low && pair.high == high)
}

/// The number of the pair by which the one has an uplink to the other.
pub fn pair_of(script: &Script, low: u16, high: u16) -> Option<u16>
    requires { HasNumbers script.now }
    ensures { result ≡ pair_at low high script.now.pairs }
{
    Some(place_between(script.pairs.as_slice(), low, high)? as u16)
}

fn are_joined(pairs: &[Pair], a: u16, b: u16) -> bool
    ensures { result ≡ are_joined a b pairs.now }
{
    pairs.iter().any(|pair| (pair.low == a && pair.high == b) || (pair.low == b && pair.high == a))
}

pub fn count_uplinks(pairs: &[Pair], server: u16) -> usize
    ensures { result ≡ uplinks_of server pairs.now }
{
    pairs.iter().filter(|pair| pair.low == server).count()
}

pub fn are_peers(peers: &[PeerPair], a: u16, b: u16) -> bool
    ensures { result ≡ are_peers a b peers.now }
{
    peers.iter().any(|pair| (pair.a == a && pair.b == b) || (pair.a == b && pair.b == a))
}

fn count_peers(peers: &[PeerPair], server: u16) -> usize
    ensures { result ≡ peers_of server peers.now }
{
    peers
        .iter()
        .filter(|pair| pair.a == server || pair.b == server)
        .count()
}

/// The call of a server, and its duplicate window.
fn with_window(text: &[u8]) -> Option<(&[u8], u32)>
    ensures { option_map (λ words. (words.0.now, words.1)) result ≡ with_window text.now (parted text.now) }
{
    match part(text) {
        Some((call, seconds)) => Some((call, count(seconds, 10, 300)?)),
        None => Some((text, WINDOW)),
    }
}

/// `server CALL` or `server CALL W`
pub fn read_server(script: &Script, text: &[u8]) -> Option<ScriptServer>
    requires { HasNumbers script.now }
    ensures { result ≡ server_in script.now text.now }
{
    let (name, window) = with_window(text)?;
    let call = station(name)?;
    if server_of(script, call.bytes()).is_some() || script.servers.len() >= MOST_SERVERS {
        return None;
    }
    Some(ScriptServer { call, window })
}

/// `uplink A B`
pub fn read_uplink(script: &Script, text: &[u8]) -> Option<Pair>
    requires { HasNumbers script.now }
    ensures { result ≡ uplink_in script.now text.now }
{
    let (low, high) = two_in(script, text)?;
    let uplinks = count_uplinks(script.pairs.as_slice(), low);
    if are_joined(script.pairs.as_slice(), low, high) || uplinks >= MOST_UPLINKS {
        return None;
    }
    Some(Pair {
        low,
        uplink: uplinks as u16,
        high,
        listener: 0,
    })
}

/// `peer A B`
pub fn read_peers(script: &Script, text: &[u8]) -> Option<PeerPair>
    requires { HasNumbers script.now }
    ensures { result ≡ peer_in script.now text.now }
{
    let (a, b) = two_in(script, text)?;
    let at_a = count_peers(script.peers.as_slice(), a);
    let at_b = count_peers(script.peers.as_slice(), b);
    if are_peers(script.peers.as_slice(), a, b) || at_a >= MOST_PEERS || at_b >= MOST_PEERS {
        return None;
    }
    Some(PeerPair {
        a,
        at_a: at_a as u16,
        b,
        at_b: at_b as u16,
    })
}
