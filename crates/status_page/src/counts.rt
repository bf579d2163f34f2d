//! What the status page counts.
ghost use Rattle.std.specs.Prelude.{◌≡◌, ℕ, List, [], ◌∷◌};
ghost use Rattle.aprs_base.specs.declared.events.Happening.TheVariants as did;
ghost use Rattle.aprs_base.specs.declared.events.Sent.TheVariants as sent;
ghost use Rattle.status_page.specs.Counting.{counts_after, no_counts, plus, sums_of};

use aprs_base::Event;

/// What happened since the server's start. No count passes 18,446,744,073,709,551,615: it stays there.
#[derive(Clone, Copy, PartialEq, Eq, Debug)]
pub struct Counts {
    /// Links that were opened to the server.
    pub opened: u64,
    /// Links that the server made to its uplinks.
    pub joined: u64,
    /// Bytes that came on links and in datagrams.
    pub received: u64,
    /// Datagrams that came.
    pub datagrams: u64,
    /// Bytes that links took.
    pub taken: u64,
    /// Datagrams that were cast to peers, and to links that have their lines so.
    pub casts: u64,
}

/// What an event adds.
fn added(event: &Event) -> Counts
    ensures { result ≡ sums_of (did.Event event.now ∷ []) }
{
    let mut more = Counts::new();
    match event {
        Event::Opened { .. } => more.opened = 1,
        Event::Joined { .. } => more.joined = 1,
        Event::Bytes(_, bytes) => more.received = bytes.bytes().len() as u64,
        Event::Datagram { bytes, .. } => {
            more.received = bytes.bytes().len() as u64;
            more.datagrams = 1;
        }
        _ => {}
    }
    more
}

impl Counts {
    /// Nothing is counted yet.
    pub fn new() -> Counts
        ensures { result ≡ no_counts }
    {
        Counts {
            opened: 0,
            joined: 0,
            received: 0,
            datagrams: 0,
            taken: 0,
            casts: 0,
        }
    }

    /// These counts and more.
    fn plus(&self, more: &Counts) -> Counts
        ensures { result ≡ plus self.now more.now }
    {
        Counts {
            opened: self.opened.saturating_add(more.opened),
            joined: self.joined.saturating_add(more.joined),
            received: self.received.saturating_add(more.received),
            datagrams: self.datagrams.saturating_add(more.datagrams),
            taken: self.taken.saturating_add(more.taken),
            casts: self.casts.saturating_add(more.casts),
        }
    }

    /// Counts an event that came.
    pub fn event(&mut self, event: &Event)
        ensures { self.new ≡ counts_after self.old (did.Event event.now ∷ []) }
    {
        *self = self.plus(&added(event));
    }

    /// Counts the bytes that a link took of an offer.
    pub fn sent(&mut self, n: usize)
        ensures { (link : ℕ) (offered : List ℕ) → self.new ≡ counts_after self.old (did.Sent link offered (sent.Took n) ∷ []) }
    {
        let more = Counts {
            taken: n as u64,
            ..Counts::new()
        };
        *self = self.plus(&more);
    }

    /// Counts a datagram that was cast to a peer.
    pub fn cast(&mut self)
        ensures { (peer : ℕ) (bytes : List ℕ) → self.new ≡ counts_after self.old (did.Cast peer bytes ∷ []) }
    {
        let more = Counts {
            casts: 1,
            ..Counts::new()
        };
        *self = self.plus(&more);
    }
}
