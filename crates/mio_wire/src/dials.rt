//! The dials that are not answered yet.
ghost use Rattle.std.specs.Prelude.{◌≡◌, ◌==◌, ◌<◌, [], ◌∷◌, ◌++◌, Some, true, OnOk, OnErr, IfNone, IfSome, length, position, remove, option_map, slice_get};
ghost use Rattle.mio_wire.specs.Dialled.{Answered, first_dead, is_dead, outcome_of};
ghost use Rattle.mio_wire.specs.declared.dials.Outcome.TheVariants.{Joins};

use crate::turns::FIRST_DIAL;
use aprs_base::Addr;
use mio::net::TcpStream;
use std::alloc::{AllocError, Global};

/// For so many seconds a dial may be without an answer.
const MOST_SECONDS: u64 = 30;

/// A dial that failed is answered at the tick of another second. So where a look-up took long, what came meanwhile is served
/// before the next dial.
const FAILED_SECONDS: u64 = 1;

/// A dial that is not answered yet.
#[derive(Drop)]
pub(crate) struct Dial {
    pub(crate) uplink: u16,
    /// The address that it is for.
    pub(crate) at: Addr,
    /// The moment at which it began, in seconds.
    pub(crate) since: u64,
    /// Its token at the poll.
    pub(crate) token: usize,
    /// None where it has failed.
    pub(crate) stream: Option<TcpStream>,
}

impl Dial {
    /// Whether it failed in another second, or no answer came for 30 s. A clock that is set back doesn't keep it open.
    #[tactic(auto, unfolding(crate::specs::Dialled::is_dead))]
    fn is_dead(&self, second: u64) -> bool
        ensures { result ≡ is_dead second self.now }
    {
        let most = if self.stream.is_none() {
            FAILED_SECONDS
        } else {
            MOST_SECONDS
        };
        second.abs_diff(self.since) >= most
    }
}

/// What is known of a dial.
#[derive(Clone, Copy)]
pub(crate) enum Outcome {
    Waits,
    Joins,
    Fails,
}

/// What is known of a dial once the poll told of its socket or didn't, by whether that has a peer.
fn known(told: bool, has_peer: bool) -> Outcome
    ensures { result ≡ outcome_of told has_peer }
{
    match (told, has_peer) {
        (false, _) => Outcome::Waits,
        (true, true) => Outcome::Joins,
        (true, false) => Outcome::Fails,
    }
}

/// The dials that are not answered yet, in the order in which they began.
#[derive(Drop)]
pub(crate) struct Dials {
    pub(crate) list: Vec<Dial>,
    /// How many were made.
    made: usize,
}

impl Dials {
    pub(crate) fn new(alloc: Global) -> Dials
        ensures { result.list.items ≡ [] }
    {
        Dials {
            list: Vec::new(alloc),
            made: 0,
        }
    }

    /// A token that no dial had before.
    pub(crate) fn next_token(&mut self) -> usize
        ensures { self.new.list ≡ self.old.list }
    {
        self.made = self.made.saturating_add(1);
        FIRST_DIAL.saturating_add(self.made)
    }

    pub(crate) fn add(&mut self, dial: Dial) -> Result<(), AllocError>
        ensures ok { OnOk result (self.new.list.items ≡ self.old.list.items ++ dial ∷ []) }
        ensures err { OnErr result (self.new.list.items ≡ self.old.list.items) }
    {
        self.list.push(dial)?;
        Ok(())
    }

    /// Where the first dial stands that is dead.
    fn dead(&self, second: u64) -> Option<usize>
        ensures place { result ≡ position (is_dead second) self.now.list.items }
        ensures within { IfSome result (λ place. place < length self.now.list.items) }
    {
        self.list.iter().position(|dial| dial.is_dead(second))
    }

    /// Where the dial with a token stands.
    pub(crate) fn place_of(&self, token: usize) -> Option<usize>
        ensures place { result ≡ position (λ d. d.token == token) self.now.list.items }
        ensures within { IfSome result (λ place. place < length self.now.list.items) }
    {
        self.list.iter().position(|dial| dial.token == token)
    }

    /// What is known of the dial at a place, whose socket the poll told of or didn't. Until it is known, nothing is asked of
    /// the socket but its peer.
    pub(crate) fn outcome(&self, place: usize, told: bool) -> Outcome
        requires { place < length self.now.list.items }
        ensures { result ≡ Joins → told ≡ true }
    {
        let has_peer = match &self.list[place].stream {
            Some(stream) => stream.peer_addr().is_ok(),
            None => false,
        };
        known(told, has_peer)
    }

    /// Takes the dial at a place out of the list.
    pub(crate) fn take(&mut self, place: usize) -> Dial
        requires { place < length self.old.list.items }
        ensures dial { slice_get self.old.list.items place ≡ Some result }
        ensures others { self.new.list.items ≡ remove self.old.list.items place }
    {
        self.list.remove(place)
    }

    /// Gives up the first dial that is dead, if any: its uplink.
    #[tactic(auto, unfolding(crate::specs::Dialled::first_dead))]
    pub(crate) fn give_up_dead(&mut self, second: u64) -> Option<u16>
        ensures uplink { result ≡ first_dead second self.old.list.items }
        ensures answered { IfSome result (λ uplink. Answered uplink self.old.list.items self.new.list.items) }
        ensures none { IfNone result (self.new ≡ self.old) }
    {
        let place = self.dead(second)?;
        Some(self.give_up(place))
    }

    /// Gives up the dial at a place: its uplink.
    pub(crate) fn give_up(&mut self, place: usize) -> u16
        requires { place < length self.old.list.items }
        ensures uplink { option_map (λ d. d.uplink) (slice_get self.old.list.items place) ≡ Some result }
        ensures answered { Answered result self.old.list.items self.new.list.items }
    {
        self.take(place).uplink
    }
}
