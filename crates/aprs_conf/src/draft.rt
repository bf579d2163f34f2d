//! What the lines so far have said, and what each kind of line adds.
ghost use Rattle.std.specs.Prelude.{◌≡◌, Some, ◌<◌, ◌∷◌, ◌++◌, List, Ok, Err, IfOk, MatchResult, [], length};
ghost use Rattle.aprs_conf.specs.Grammar.{admin_says, at_of, clients_say, code_says, email_says, empty, front_in, group_in, group_says, is_full, is_group, listen_in, listen_says, nothing_says, page_says, peer_of, peers_from, server_says, time_in_line, timeout_says, uplink_in, uplink_says, upload_says, window_says};
ghost use Rattle.aprs_conf.specs.declared.types.PeerSpec.{PeerSpec};
ghost use Rattle.aprs_conf.specs.Seen.{DraftSeen};
ghost use Rattle.aprs_conf.specs.Reading.{Becomes, BecomesUnless, Fails};
ghost use Rattle.aprs_conf.specs.Words.{arguments_of};

use crate::arguments::{clients, host, ip, is_pair, kind, port, station, time, window};
use crate::errors::{ConfFault, LineError};
use crate::types::{Listen, PeerSpec};
use crate::words::{count_arguments, five, four, next_argument, one, two_alone};
use aprs_base::{Addr, Call, ListenSpec, Text, UplinkSpec};
use login_pass::code_number;
use std::alloc::Global;
use std::marker::Model;

/// Those for requests by HTTP are among them.
const MOST_LISTENS: usize = 16;

const MOST_UPLINKS: usize = 8;

/// What the lines so far have said.
#[derive(Drop)]
pub struct Draft {
    pub server: Option<Call>,
    pub code: Option<u32>,
    pub admin: Option<Text>,
    pub email: Option<Text>,
    pub listens: Vec<Listen>,
    pub upload: Option<Addr>,
    pub page: Option<Addr>,
    pub uplinks: Vec<UplinkSpec>,
    pub group: Option<Addr>,
    pub peers: Vec<PeerSpec>,
    pub up_timeout: Option<u32>,
    pub client_timeout: Option<u32>,
    pub max_clients: Option<u32>,
    pub dupe_window: Option<u32>,
}

impl Model for Draft {
    ghost use Rattle.aprs_conf.specs.Seen.{DraftSeen};

    ghost Value = { DraftSeen };

    ghost view = { λ d. record { server = d.server; code = d.code; admin = d.admin; email = d.email; listens = d.listens.items; upload = d.upload; page = d.page; uplinks = d.uplinks.items; group = d.group; peers = d.peers.items; up_timeout = d.up_timeout; client_timeout = d.client_timeout; max_clients = d.max_clients; dupe_window = d.dupe_window } };
}

impl Draft {
    /// A draft to which no line has added.
    pub fn new(alloc: Global) -> Draft
        ensures { result ≡ empty }
    {
        Draft {
            server: None,
            code: None,
            admin: None,
            email: None,
            listens: Vec::new(alloc),
            upload: None,
            page: None,
            uplinks: Vec::new(alloc),
            group: None,
            peers: Vec::new(alloc),
            up_timeout: None,
            client_timeout: None,
            max_clients: None,
            dupe_window: None,
        }
    }
}

/// `ServerId CALL`
pub fn add_server(draft: &mut Draft, args: &[u8]) -> Result<(), LineError>
    ensures { BecomesUnless result draft.new (server_says draft.old (arguments_of args.now)) }
{
    draft.server = Some(station(one(args)?).ok_or(ConfFault::BadCall)?);
    Ok(())
}

/// `PassCode NUMBER`
pub fn add_code(draft: &mut Draft, args: &[u8]) -> Result<(), LineError>
    ensures { BecomesUnless result draft.new (code_says draft.old (arguments_of args.now)) }
{
    draft.code = Some(code_number(one(args)?).ok_or(ConfFault::BadNumber)?);
    Ok(())
}

/// `MyAdmin TEXT`
pub fn add_admin(alloc: Global, draft: &mut Draft, args: &[u8]) -> Result<(), LineError>
    ensures { BecomesUnless result draft.new (admin_says draft.old (arguments_of args.now)) }
{
    draft.admin = Some(Text::copied(alloc, one(args)?)?);
    Ok(())
}

/// `MyEmail TEXT`
pub fn add_email(alloc: Global, draft: &mut Draft, args: &[u8]) -> Result<(), LineError>
    ensures { BecomesUnless result draft.new (email_says draft.old (arguments_of args.now)) }
{
    draft.email = Some(Text::copied(alloc, one(args)?)?);
    Ok(())
}

/// The one argument as a time.
fn one_time(args: &[u8]) -> Result<u32, ConfFault>
    ensures { result ≡ time_in_line (arguments_of args.now) }
{
    time(one(args)?).ok_or(ConfFault::BadTime)
}

/// `UpstreamTimeout TIME`
pub fn add_up_timeout(draft: &mut Draft, args: &[u8]) -> Result<(), LineError>
    ensures { BecomesUnless result draft.new (timeout_says (λ time. record draft.old { up_timeout = Some time }) (arguments_of args.now)) }
{
    draft.up_timeout = Some(one_time(args)?);
    Ok(())
}

/// `ClientTimeout TIME`
pub fn add_client_timeout(draft: &mut Draft, args: &[u8]) -> Result<(), LineError>
    ensures { BecomesUnless result draft.new (timeout_says (λ time. record draft.old { client_timeout = Some time }) (arguments_of args.now)) }
{
    draft.client_timeout = Some(one_time(args)?);
    Ok(())
}

/// `MaxClients NUMBER`
pub fn add_max_clients(draft: &mut Draft, args: &[u8]) -> Result<(), LineError>
    ensures { BecomesUnless result draft.new (clients_say draft.old (arguments_of args.now)) }
{
    draft.max_clients = Some(clients(one(args)?).ok_or(ConfFault::BadNumber)?);
    Ok(())
}

/// `DupeWindow TIME`
pub fn add_dupe_window(draft: &mut Draft, args: &[u8]) -> Result<(), LineError>
    ensures { BecomesUnless result draft.new (window_says draft.old (arguments_of args.now)) }
{
    draft.dupe_window = Some(window(one(args)?).ok_or(ConfFault::BadTime)?);
    Ok(())
}

/// An address and a port.
fn at(address: &[u8], number: &[u8]) -> Result<Addr, ConfFault>
    ensures { result ≡ at_of address.now number.now }
{
    let ip = ip(address).ok_or(ConfFault::BadAddr)?;
    let port = port(number).ok_or(ConfFault::BadNumber)?;
    Ok(Addr { ip, port })
}

/// A listener, of which the name is not yet a text of its own.
#[derive(Clone, Copy)]
struct ListenRead<'a> {
    name: &'a [u8],
    spec: ListenSpec,
    idle: bool,
}

fn read_listen(args: &[u8]) -> Result<ListenRead<'_>, ConfFault>
    ensures { MatchResult result (λ l. listen_in (arguments_of args.now) ≡ Ok (record { name = l.name.now; spec = l.spec; idle = l.idle })) (λ f. listen_in (arguments_of args.now) ≡ Err f) }
{
    let (name, word, proto, address, number) = five(args, true).ok_or(ConfFault::BadCount)?;
    let service = kind(word, proto).ok_or(ConfFault::BadKind)?;
    let at = at(address, number)?;
    Ok(ListenRead {
        name,
        spec: ListenSpec {
            kind: service.kind,
            at,
        },
        idle: service.idle,
    })
}

/// Whether there may be no listener more.
fn is_full(draft: &Draft) -> bool
    ensures { result ≡ is_full draft.now }
{
    let uploads = usize::from(draft.upload.is_some());
    let pages = usize::from(draft.page.is_some());
    draft.listens.len() >= MOST_LISTENS - uploads - pages
}

/// Adds a listener, whose name becomes a text of its own.
fn push_listen(
    alloc: Global,
    listens: &mut Vec<Listen>,
    read: ListenRead<'_>,
) -> Result<(), LineError>
    ensures { MatchResult result (λ _. listens.new.items ≡ listens.old.items ++ record { name = read.entry.name.now; spec = read.entry.spec; idle = read.entry.idle } ∷ []) (λ e. e ≡ LineError.Memory) }
{
    listens.push(Listen {
        name: Text::copied(alloc, read.name)?,
        spec: read.spec,
        idle: read.idle,
    })?;
    Ok(())
}

/// `Listen NAME KIND PROTO ADDR PORT`, perhaps `hidden`
#[tactic(auto, unfolding(crate::specs::Grammar::listen_says))]
pub fn add_listen(alloc: Global, draft: &mut Draft, args: &[u8]) -> Result<(), LineError>
    ensures { BecomesUnless result draft.new (listen_says draft.old (arguments_of args.now)) }
{
    let read = read_listen(args)?;
    if is_full(draft) {
        return Err(LineError::Fault(ConfFault::TooMany));
    }
    push_listen(alloc, &mut draft.listens, read)
}

/// `ADDR PORT`
fn read_front(args: &[u8]) -> Result<Addr, ConfFault>
    ensures { result ≡ front_in (arguments_of args.now) }
{
    let (address, number) = two_alone(args).ok_or(ConfFault::BadCount)?;
    at(address, number)
}

/// `HTTPUpload ADDR PORT`
#[tactic(auto, unfolding(crate::specs::Grammar::upload_says))]
pub fn add_upload(draft: &mut Draft, args: &[u8]) -> Result<(), LineError>
    ensures { BecomesUnless result draft.new (upload_says draft.old (arguments_of args.now)) }
{
    let at = read_front(args)?;
    if is_full(draft) {
        return Err(LineError::Fault(ConfFault::TooMany));
    }
    draft.upload = Some(at);
    Ok(())
}

/// `HTTPStatus ADDR PORT`
#[tactic(auto, unfolding(crate::specs::Grammar::page_says))]
pub fn add_page(draft: &mut Draft, args: &[u8]) -> Result<(), LineError>
    ensures { BecomesUnless result draft.new (page_says draft.old (arguments_of args.now)) }
{
    let at = read_front(args)?;
    if is_full(draft) {
        return Err(LineError::Fault(ConfFault::TooMany));
    }
    draft.page = Some(at);
    Ok(())
}

fn read_uplink(args: &[u8]) -> Result<UplinkSpec, ConfFault>
    ensures { result ≡ uplink_in (arguments_of args.now) }
{
    let (_, kind, proto, name, number) = five(args, false).ok_or(ConfFault::BadCount)?;
    if !is_pair(kind, proto, b"full", b"tcp") {
        return Err(ConfFault::BadKind);
    }
    let host = host(name).ok_or(ConfFault::BadHost)?;
    let port = port(number).ok_or(ConfFault::BadNumber)?;
    Ok(UplinkSpec { host, port })
}

/// `Uplink NAME full tcp HOST PORT`
#[tactic(auto, unfolding(crate::specs::Grammar::uplink_says))]
pub fn add_uplink(draft: &mut Draft, args: &[u8]) -> Result<(), LineError>
    ensures { BecomesUnless result draft.new (uplink_says draft.old (arguments_of args.now)) }
{
    let uplink = read_uplink(args)?;
    if draft.uplinks.len() >= MOST_UPLINKS {
        return Err(LineError::Fault(ConfFault::TooMany));
    }
    draft.uplinks.push(uplink)?;
    Ok(())
}

fn peer(name: &[u8], address: &[u8], number: &[u8]) -> Result<PeerSpec, ConfFault>
    ensures { result ≡ peer_of name.now address.now number.now }
{
    let call = station(name).ok_or(ConfFault::BadCall)?;
    let at = at(address, number)?;
    Ok(PeerSpec { call, at })
}

/// The first peer of these arguments, and what stands behind it; its name is `name`.
fn first_peer<'a>(name: &[u8], args: &'a [u8]) -> Result<(PeerSpec, &'a [u8]), ConfFault>
    ensures value { (peers : List PeerSpec) → MatchResult result (λ p. peers_from peers (name.now ∷ arguments_of args.now) ≡ peers_from (peers ++ p.0 ∷ []) (arguments_of p.1.now)) (λ f. peers_from peers (name.now ∷ arguments_of args.now) ≡ Err f) }
    ensures shorter { IfOk result (λ p. length p.1.now < length args.now) }
{
    let Some((address, behind)) = next_argument(args) else {
        return Err(ConfFault::BadCount);
    };
    let Some((number, behind)) = next_argument(behind) else {
        return Err(ConfFault::BadCount);
    };
    Ok((peer(name, address, number)?, behind))
}

/// The peers of these arguments.
fn read_peers(alloc: Global, args: &[u8]) -> Result<Vec<PeerSpec>, LineError>
    ensures { MatchResult result (λ peers. peers_from [] (arguments_of args.now) ≡ Ok peers.items) (λ e. Fails e (peers_from [] (arguments_of args.now))) }
{
    let mut peers = Vec::new(alloc);
    let mut rest = args;
    while let Some((name, behind)) = next_argument(rest) {
        let (peer, behind) = first_peer(name, behind)?;
        peers.push(peer)?;
        rest = behind;
    }
    Ok(peers)
}

/// Whether there are as many arguments as 1 to 8 peers have.
fn is_group(args: &[u8]) -> bool
    ensures { result ≡ is_group (arguments_of args.now) }
{
    let count = count_arguments(args);
    count >= 7 && count <= 28 && count % 3 == 1
}

fn read_group(args: &[u8]) -> Result<(Addr, &[u8]), ConfFault>
    ensures { MatchResult result (λ g. group_in (arguments_of args.now) ≡ Ok (g.0, arguments_of g.1.now)) (λ f. group_in (arguments_of args.now) ≡ Err f) }
{
    let Some((_, proto, address, number, behind)) = four(args) else {
        return Err(ConfFault::BadCount);
    };
    if proto != b"udp".as_slice() {
        return Err(ConfFault::BadKind);
    }
    Ok((at(address, number)?, behind))
}

/// `PeerGroup NAME udp ADDR PORT`, and `CALL ADDR PORT` for each peer
#[tactic(auto, unfolding(crate::specs::Grammar::group_says))]
pub fn add_group(alloc: Global, draft: &mut Draft, args: &[u8]) -> Result<(), LineError>
    ensures { BecomesUnless result draft.new (group_says draft.old (arguments_of args.now)) }
{
    if !is_group(args) {
        return Err(LineError::Fault(ConfFault::BadCount));
    }
    let (at, behind) = read_group(args)?;
    draft.peers = read_peers(alloc, behind)?;
    draft.group = Some(at);
    Ok(())
}

/// Whether a line without effect has an argument or more.
pub fn expect_argument(args: &[u8]) -> Result<(), ConfFault>
    ensures { (draft : DraftSeen) → Becomes result draft (nothing_says draft (arguments_of args.now)) }
{
    match next_argument(args) {
        Some(_) => Ok(()),
        None => Err(ConfFault::BadCount),
    }
}
