//! The front for the status page: it stands before the front for packets by HTTP, and that before a wire.
ghost use Rattle.std.specs.Prelude.{◌≡◌, ℕ, ◌++◌, List, [], IfOk, IsErrOf, OnErr, OnOk};
ghost use Rattle.std.specs.List.{find};
ghost use Rattle.aprs_base.specs.Outside.{AfterAct, AfterListen, AfterSend, CountsLink, failed_after, gones_with, new_link, with_cast};
ghost use Rattle.aprs_base.specs.declared.events.Happening.TheVariants as did;
ghost use Rattle.aprs_base.specs.declared.events.Sent.{Sent};
ghost use Rattle.http_submit.specs.Fronts.{listened_as};
ghost use Rattle.http_submit.specs.Owing.{GrewBy, Loses};
ghost use Rattle.http_submit.specs.Pools.{is_link};
ghost use Rattle.status_page.specs.Counting.{taken_by};
ghost use Rattle.status_page.specs.Page.{page_reply, page_text};
ghost use Rattle.status_page.specs.PageFronts.{Hears, PageTurns, PoolTurnsAt, counting, fresh_page, judged, moment_after, reply_by};
ghost use Rattle.status_page.specs.Paying.{Pays, PaysBeginning, PaysBoth, PaysSome, Replies, RepliesPart, TakesPageTurn};

use crate::counts::Counts;
use crate::replies::page_reply;
use crate::requests::{Get, read_get};
use aprs_base::{
    Addr, Call, Event, ListenSpec, Memory, PortKind, Sent, Text, Totals, Wire, WireError,
};
use http_submit::{HttpFront, Owed, Pool, reply};
use std::alloc::Global;
use std::marker::Model;

/// The last second of the year 9999, in seconds since 1970. No moment is later.
const LAST_MOMENT: u64 = 253_402_300_799;

/// The most bytes of a request.
const MOST_BYTES: usize = 4096;

/// The status by which the page itself is owed.
const PAGE: u16 = 200;

/// A front for the status page: it counts what happens, and replies to those who ask for the page on the links of one listener.
/// No event is changed by it.
#[derive(Drop)]
pub struct PageFront {
    alloc: Global,
    at: Option<u16>,
    server: Call,
    moment: u64,
    totals: Totals,
    counts: Counts,
    pool: Pool,
}

impl Model for PageFront {
    ghost use Rattle.status_page.specs.PageFronts.{PageSeen};

    ghost Value = { PageSeen };

    ghost view = { λ p. record { at = p.at; server = p.server; moment = p.moment; totals = p.totals; counts = p.counts; pool = p.pool } };
}

/// The moment after an event.
fn moment_after(event: &Event, moment: u64) -> u64
    ensures { result ≡ moment_after event.now moment }
{
    match event {
        Event::Tick(tick) => (*tick).min(LAST_MOMENT).max(moment),
        _ => moment,
    }
}

/// How many bytes a link took of an offer.
fn taken(sent: Sent) -> usize
    ensures { (link : ℕ) (bytes : List ℕ) → result ≡ taken_by (did.Sent link bytes sent) }
{
    match sent {
        Sent::Took(n) => n,
        Sent::Gone => 0,
    }
}

/// What the bytes of a link so far come to: it is settled, or waits on.
fn judge(pool: &mut Pool, link: u32, bytes: &[u8], so_far: &[u8], get: Get)
    requires { pool.old.owed ≡ [] }
    ensures { pool.new ≡ judged link bytes.now so_far.now get pool.old }
{
    match get {
        Get::Whole => pool.settle(link, PAGE),
        Get::Refused(status) => pool.settle(link, status),
        Get::More if so_far.len() >= MOST_BYTES => pool.settle(link, 413),
        Get::More => pool.add(link, bytes),
    }
}

/// Bytes come on a link.
fn hear(pool: &mut Pool, link: u32, bytes: &[u8])
    requires { pool.old.owed ≡ [] }
    ensures { Hears link bytes.now (find (is_link link) pool.old.waiting) pool.old pool.new }
{
    let Some(waiting) = pool.find(link) else {
        return;
    };
    let so_far = waiting.heard(bytes);
    let get = read_get(so_far.as_slice());
    judge(pool, link, bytes, so_far.as_slice(), get);
}

/// An event is handed up, at the front's port and at this moment.
fn note(pool: &mut Pool, port: u16, moment: u64, event: &Event)
    requires { pool.old.owed ≡ [] }
    ensures { PoolTurnsAt port moment pool.old event.now pool.new }
{
    match event {
        Event::Tick(_) => pool.tick(moment),
        Event::Opened {
            listener,
            link,
            from,
        } if *listener == port => pool.open(*link, *from, moment),
        Event::Bytes(link, bytes) => hear(pool, *link, bytes.bytes()),
        Event::Ended(link) => pool.forget(*link),
        _ => {}
    }
}

/// Sends a link its reply, once and whatever it takes of it, and closes it but where it was gone.
#[tactic(auto, using(crate::proofs::PayingLemmas::unsent, crate::proofs::PayingLemmas::unsent_keeps, crate::proofs::PayingLemmas::unclosed))]
fn reply_to<W: Wire>(inner: &mut W, link: u32, text: &[u8]) -> Result<(), Memory>
    ensures all { OnOk result (GrewBy (W.shown inner.old).told (W.shown inner.new).told (Replies link text.now)) }
    ensures part { OnErr result (GrewBy (W.shown inner.old).told (W.shown inner.new).told (RepliesPart link text.now)) }
    ensures listens { (W.shown inner.new).failed_listens ≡ (W.shown inner.old).failed_listens }
    ensures nexts { (W.shown inner.new).failed_nexts ≡ (W.shown inner.old).failed_nexts }
    ensures links { (W.shown inner.new).links ≡ (W.shown inner.old).links }
    ensures gones { (outcome : Sent) × ((W.shown inner.new).gones ≡ gones_with outcome (W.shown inner.old).gones) }
{
    match inner.send(link, text)? {
        Sent::Took(_) => inner.close(link),
        Sent::Gone => Ok(()),
    }
}

impl PageFront {
    /// A front for the listener of this number, or one that only counts. It takes some 66 KB. Later only pages take memory of its own.
    pub fn new(alloc: Global, at: Option<u16>, server: Call) -> Result<PageFront, Memory>
        ensures { IfOk result (λ page. page ≡ fresh_page at server) }
    {
        Ok(PageFront {
            alloc,
            at,
            server,
            moment: 0,
            totals: Totals {
                accepted: 0,
                duplicate: 0,
                refused: 0,
                queued: 0,
            },
            counts: Counts::new(),
            pool: Pool::new(alloc)?,
        })
    }

    /// Publishes the server's totals: pages tell these from now on. Takes no memory.
    pub fn publish(&mut self, totals: &Totals)
        ensures { self.new ≡ record self.old { totals = totals.now } }
    {
        self.totals = *totals;
    }

    /// Has the wire listen. At its own number the front asks for streams.
    pub fn listen<W: Wire>(
        &mut self,
        http: &mut HttpFront,
        inner: &mut W,
        n: u16,
        spec: &ListenSpec,
    ) -> Result<(), WireError>
        ensures same { self.new ≡ self.old }
        ensures front { http.new ≡ http.old }
        ensures after { AfterListen (W.shown inner.old) (W.shown inner.new) n (listened_as http.old.at n (listened_as self.old.at n spec.now)) result }
    {
        let mut asked = *spec;
        if self.at == Some(n) {
            asked.kind = PortKind::Full;
        }
        http.listen(inner, n, &asked)
    }

    /// Has the wire offer bytes to a link, and counts those that it takes.
    pub fn send<W: Wire>(
        &mut self,
        _http: &mut HttpFront,
        inner: &mut W,
        link: u32,
        bytes: &[u8],
    ) -> Result<Sent, Memory>
        ensures after { AfterSend (W.shown inner.old) (W.shown inner.new) link bytes.now result }
        ensures counted { IfOk result (λ s. self.new ≡ counting (did.Sent link bytes.now s) self.old) }
        ensures uncounted { OnErr result (self.new ≡ self.old) }
        ensures front { _http.new ≡ _http.old }
    {
        let sent = inner.send(link, bytes)?;
        self.counts.sent(taken(sent));
        Ok(sent)
    }

    /// Has the wire send a datagram to a peer, and counts it.
    pub fn cast<W: Wire>(
        &mut self,
        _http: &mut HttpFront,
        inner: &mut W,
        peer: u16,
        to: Addr,
        bytes: &[u8],
    ) -> Result<(), Memory>
        ensures after { AfterAct (W.shown inner.old) (W.shown inner.new) (with_cast peer to bytes.now) result }
        ensures counted { OnOk result (self.new ≡ counting (did.Cast peer bytes.now) self.old) }
        ensures uncounted { OnErr result (self.new ≡ self.old) }
        ensures front { _http.new ≡ _http.old }
    {
        inner.cast(peer, to, bytes)?;
        self.counts.cast();
        Ok(())
    }

    /// An event is handed up: it is counted, and those who ask for the page are heard.
    fn turn(&mut self, event: &Event)
        requires { self.old.pool.owed ≡ [] }
        ensures { PageTurns self.old event.now self.new }
    {
        self.counts.event(event);
        self.moment = moment_after(event, self.moment);
        if let Some(port) = self.at {
            note(&mut self.pool, port, self.moment, event);
        }
    }

    /// The reply with the page as it stands.
    fn page(&self) -> Result<Text, Memory>
        ensures { IfOk result (λ text. text ≡ page_reply (page_text self.now.counts self.now.server self.now.moment self.now.totals)) }
    {
        let page = self
            .counts
            .json(self.alloc, &self.server, self.moment, &self.totals)?;
        page_reply(self.alloc, &page)
    }

    /// Pays one link: with the page, or with the reply of its status.
    #[tactic(auto, using(crate::proofs::PayingLemmas::unsent, crate::proofs::PayingLemmas::unsent_keeps))]
    fn pay<W: Wire>(&self, inner: &mut W, owed: Owed) -> Result<(), Memory>
        ensures all { OnOk result (GrewBy (W.shown inner.old).told (W.shown inner.new).told (Replies owed.link (reply_by self.now owed.status))) }
        ensures part { OnErr result (GrewBy (W.shown inner.old).told (W.shown inner.new).told (RepliesPart owed.link (reply_by self.now owed.status))) }
        ensures listens { (W.shown inner.new).failed_listens ≡ (W.shown inner.old).failed_listens }
        ensures nexts { (W.shown inner.new).failed_nexts ≡ (W.shown inner.old).failed_nexts }
        ensures links { (W.shown inner.new).links ≡ (W.shown inner.old).links }
        ensures gones { (outcome : Sent) × ((W.shown inner.new).gones ≡ gones_with outcome (W.shown inner.old).gones) }
    {
        if owed.status == PAGE {
            return reply_to(inner, owed.link, self.page()?.as_bytes());
        }
        reply_to(inner, owed.link, reply(owed.status).as_slice())
    }

    /// Pays all, in order.
    #[tactic(auto, using(crate::proofs::PayingLemmas::first_part, crate::proofs::PayingLemmas::none_lost))]
    fn pay_all<W: Wire>(&self, inner: &mut W, owed: &[Owed]) -> Result<(), Memory>
        ensures all { OnOk result (GrewBy (W.shown inner.old).told (W.shown inner.new).told (Pays self.now owed.now)) }
        ensures some { OnErr result (GrewBy (W.shown inner.old).told (W.shown inner.new).told (PaysSome self.now owed.now)) }
        ensures listens { (W.shown inner.new).failed_listens ≡ (W.shown inner.old).failed_listens }
        ensures nexts { (W.shown inner.new).failed_nexts ≡ (W.shown inner.old).failed_nexts }
        ensures links { (W.shown inner.new).links ≡ (W.shown inner.old).links }
        ensures gones { Loses owed.now (W.shown inner.old).gones (W.shown inner.new).gones }
    {
        match owed {
            [] => Ok(()),
            [first, rest @ ..] => {
                self.pay(inner, *first)?;
                self.pay_all(inner, rest)
            }
        }
    }

    /// Pays all that is owed, and then takes the turn of the front for packets: it hands up what that hands up, and counts it.
    /// After an error both fronts are spent. After `Memory` a beginning of what was owed may be paid.
    #[tactic(auto, using(crate::proofs::PayingLemmas::lost_first, crate::proofs::PayingLemmas::lost_both))]
    pub fn next<W: Wire>(&mut self, http: &mut HttpFront, inner: &mut W) -> Result<Event, WireError>
        ensures turn { IfOk result (λ up. TakesPageTurn (W.shown inner.old).told (W.shown inner.new).told self.old self.new http.old http.new up) }
        ensures counts { IfOk result (λ up. CountsLink (new_link up) (W.shown inner.old).links (W.shown inner.new).links) }
        ensures failed { IsErrOf result WireError.Failed → PaysBoth (W.shown inner.old).told (W.shown inner.new).told self.old http.old }
        ensures some { OnErr result (PaysBeginning (W.shown inner.old).told (W.shown inner.new).told self.old http.old) }
        ensures uncounted { OnErr result ((W.shown inner.new).links ≡ (W.shown inner.old).links) }
        ensures listens { (W.shown inner.new).failed_listens ≡ (W.shown inner.old).failed_listens }
        ensures nexts { (W.shown inner.new).failed_nexts ≡ failed_after result (W.shown inner.old).failed_nexts }
        ensures gones { Loses (self.old.pool.owed ++ http.old.pool.owed) (W.shown inner.old).gones (W.shown inner.new).gones }
    {
        self.pay_all(inner, self.pool.owed())?;
        self.pool.clear_owed();
        let came = http.next(inner);
        if let Ok(up) = &came {
            self.turn(up);
        }
        came
    }
}
