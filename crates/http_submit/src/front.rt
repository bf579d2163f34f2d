//! A front that stands before a wire.
ghost use Rattle.std.specs.Prelude.{◌≡◌, ◌≤◌, [], IfOk, IsErrOf, OnErr, length, unwrap_or};
ghost use Rattle.std.specs.List.{find};
ghost use Rattle.aprs_base.specs.Outside.{AfterListen, CountsLink, failed_after, new_link};
ghost use Rattle.http_submit.specs.Fronts.{Hears, Turns, TurnsAt, fresh_front, handed_up, is_at, judged, listened_as, ticked_to};
ghost use Rattle.http_submit.specs.Owing.{GrewBy, Loses, Pays, PaysSome, TakesTurn};
ghost use Rattle.http_submit.specs.Pools.{is_link};
ghost use Rattle.http_submit.specs.Requests.{LiesWithin};

use crate::pool::{MOST_BYTES, Pool};
use crate::replies::pay_all;
use crate::requests::{Post, read_post};
use aprs_base::{Addr, Chunk, Event, ListenSpec, Memory, PortKind, Wire, WireError};
use std::alloc::Global;
use std::marker::Model;

/// The last second of the year 9999, in seconds since 1970. No moment is later.
const LAST_MOMENT: u64 = 253_402_300_799;

/// A front before a wire: it takes the requests that come on the links of one listener, replies to them, closes these links,
/// and hands up the body of each whole request as a datagram. All else passes unchanged.
#[derive(Drop)]
pub struct HttpFront {
    at: Option<u16>,
    moment: u64,
    pool: Pool,
}

impl Model for HttpFront {
    ghost use Rattle.http_submit.specs.Fronts.{FrontSeen};

    ghost Value = { FrontSeen };

    ghost view = { λ f. record { at = f.at; moment = f.moment; pool = f.pool } };
}

/// The datagram that is handed up for a request, where it is whole.
fn handed_up(port: u16, from: Addr, so_far: &[u8], post: &Post) -> Option<Event>
    requires lies { LiesWithin (length so_far.now) post.now }
    ensures { (e : _) → unwrap_or result e ≡ handed_up port from so_far.now e post.now }
{
    let Post::Whole { start, len, .. } = post else {
        return None;
    };
    let (start, len) = (usize::from(*start), usize::from(*len));
    let bytes = Chunk::new(&so_far[start..start + len]).unwrap();
    Some(Event::Datagram {
        listener: port,
        from,
        bytes,
    })
}

impl HttpFront {
    /// A front for the listener of this number, or one that passes everything on. It alone takes memory: some 66 KB.
    pub fn new(alloc: Global, at: Option<u16>) -> Result<HttpFront, Memory>
        ensures { IfOk result (λ front. front ≡ fresh_front at) }
    {
        Ok(HttpFront {
            at,
            moment: 0,
            pool: Pool::new(alloc)?,
        })
    }

    /// Has the wire listen. At its own number the front asks it for streams.
    pub fn listen<W: Wire>(
        &mut self,
        inner: &mut W,
        n: u16,
        spec: &ListenSpec,
    ) -> Result<(), WireError>
        ensures same { self.new ≡ self.old }
        ensures after { AfterListen (W.shown inner.old) (W.shown inner.new) n (listened_as self.old.at n spec.now) result }
    {
        let mut asked = *spec;
        if self.at == Some(n) {
            asked.kind = PortKind::Full;
        }
        inner.listen(n, &asked)
    }

    /// A tick comes.
    fn tick(&mut self, moment: u64)
        requires { self.old.pool.owed ≡ [] }
        ensures { self.new ≡ ticked_to moment self.old }
    {
        self.moment = moment.min(LAST_MOMENT).max(self.moment);
        self.pool.tick(self.moment);
    }

    /// What the bytes of a link so far come to: it is settled, or waits on.
    fn judge(&mut self, link: u32, bytes: &[u8], so_far: &[u8], post: &Post)
        requires { self.old.pool.owed ≡ [] }
        ensures { self.new ≡ record self.old { pool = judged link bytes.now so_far.now post.now self.old.pool } }
    {
        match post {
            Post::Whole { known: true, .. } => self.pool.settle(link, 202),
            Post::Whole { known: false, .. } => self.pool.settle(link, 403),
            Post::Refused(status) => self.pool.settle(link, *status),
            Post::More if so_far.len() >= MOST_BYTES => self.pool.settle(link, 413),
            Post::More => self.pool.add(link, bytes),
        }
    }

    /// Bytes come on a link. Answers the datagram that is handed up in their place, where they make a request whole.
    fn hear(&mut self, port: u16, link: u32, chunk: &Chunk) -> Option<Event>
        requires { self.old.pool.owed ≡ [] }
        ensures { Hears port link chunk.now (find (is_link link) self.old.pool.waiting) self.old self.new (unwrap_or result (Event.Bytes link chunk.now)) }
    {
        let waiting = self.pool.find(link)?;
        let from = waiting.from;
        let so_far = waiting.heard(chunk.bytes());
        let post = read_post(so_far.as_slice());
        self.judge(link, chunk.bytes(), so_far.as_slice(), &post);
        handed_up(port, from, so_far.as_slice(), &post)
    }

    /// An event comes at the front's port. Answers what is handed up in its place.
    fn note(&mut self, port: u16, event: &Event) -> Option<Event>
        requires { self.old.pool.owed ≡ [] }
        ensures { TurnsAt port self.old event.now self.new (unwrap_or result event.now) }
    {
        match event {
            Event::Tick(moment) => self.tick(*moment),
            Event::Opened {
                listener,
                link,
                from,
            } if *listener == port => self.pool.open(*link, *from, self.moment),
            Event::Bytes(link, bytes) => return self.hear(port, *link, bytes),
            Event::Ended(link) => self.pool.forget(*link),
            _ => {}
        }
        None
    }

    /// An event comes, and becomes what is handed up in its place.
    fn turn(&mut self, event: &mut Event)
        requires { self.old.pool.owed ≡ [] }
        ensures { Turns self.old event.old self.new event.new }
    {
        if let Some(port) = self.at {
            if let Some(up) = self.note(port, event) {
                *event = up;
            }
        }
    }

    /// Pays all that is owed, and takes the wire's next event. It is handed up as it came; where it makes a request whole, a datagram
    /// from the link's address is handed up in its place, with the request's body as its bytes.
    /// After an error the front is spent. After `Memory` a beginning of what was owed may be paid.
    #[tactic(auto, using(crate::proofs::OwingLemmas::all_some))]
    pub fn next<W: Wire>(&mut self, inner: &mut W) -> Result<Event, WireError>
        ensures turn { IfOk result (λ up. TakesTurn (W.shown inner.old).told (W.shown inner.new).told self.old self.new up) }
        ensures counts { IfOk result (λ up. CountsLink (new_link up) (W.shown inner.old).links (W.shown inner.new).links) }
        ensures failed { IsErrOf result WireError.Failed → GrewBy (W.shown inner.old).told (W.shown inner.new).told (Pays self.old.pool.owed) }
        ensures some { OnErr result (GrewBy (W.shown inner.old).told (W.shown inner.new).told (PaysSome self.old.pool.owed)) }
        ensures uncounted { OnErr result ((W.shown inner.new).links ≡ (W.shown inner.old).links) }
        ensures listens { (W.shown inner.new).failed_listens ≡ (W.shown inner.old).failed_listens }
        ensures nexts { (W.shown inner.new).failed_nexts ≡ failed_after result (W.shown inner.old).failed_nexts }
        ensures gones { Loses self.old.pool.owed (W.shown inner.old).gones (W.shown inner.new).gones }
    {
        pay_all(inner, self.pool.owed())?;
        self.pool.clear_owed();
        let mut came = inner.next();
        if let Ok(event) = &mut came {
            self.turn(event);
        }
        came
    }
}
