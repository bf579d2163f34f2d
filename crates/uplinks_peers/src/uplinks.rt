//! Dialling uplinks, one after another.
ghost use Rattle.std.specs.Prelude.{◌≡◌, ◌<◌, ◌-◌, ◌&&◌, ◌↔◌, nat_lt, nat_le, IfSome, IfNone, IsSome, IsTrue};
ghost use Rattle.uplinks_peers.specs.UplinkLaws.{IsAwaited, IsDialDue, IsInTurn, IsOrderly, IsToClose};
ghost use Rattle.uplinks_peers.specs.Uplinks.{acts_at, dialling, ended_at, is_dialled, is_rested, untried, uplinks_after};
ghost use Rattle.uplinks_peers.specs.declared.uplinks.UpEvent.TheVariants as event;

use std::marker::Model;

/// The seconds between the end of a try and the next dial.
const PAUSE: u64 = 10;

/// What happens to uplinks and to links.
#[derive(Clone, Copy)]
pub enum UpEvent {
    /// A second has passed.
    Tick,
    /// A dial came through, and this is its link.
    Joined { uplink: u16, link: u32 },
    /// A dial came to nothing.
    Unjoined(u16),
    /// The link, of an uplink or not, brought bytes.
    Heard(u32),
    /// The link, of an uplink or not, ended.
    Ended(u32),
}

/// What is to be done after an event.
#[derive(Clone, Copy, Default)]
pub struct UpActs {
    /// The uplink to dial.
    pub dial: Option<u16>,
    /// Whether the joined link gets the login line.
    pub login: bool,
    /// The link to close.
    pub close: Option<u32>,
}

/// How far the last try is.
#[derive(Clone, Copy, PartialEq, Eq)]
enum Attempt {
    Idle,
    Dialled(u16),
    /// With the moment of the link's last bytes, or else of its joining.
    Joined { uplink: u16, link: u32, last: u64 },
}

/// The uplinks, by their numbers from 0. One at most is dialled or joined at a time.
#[derive(Drop)]
pub struct Uplinks {
    count: u16,
    timeout: u32,
    next: u16,
    attempt: Attempt,
    tried: Option<u64>,
}

impl Model for Uplinks {
    ghost use Rattle.std.specs.Prelude.{◌<◌};
    ghost use Rattle.uplinks_peers.specs.Attempts.{dialled_of, joined_of};
    ghost use Rattle.uplinks_peers.specs.Uplinks.{UplinksSeen};

    ghost Value = { UplinksSeen };

    ghost view = { λ u. record { count = u.count; timeout = u.timeout; next = u.next; dialled = dialled_of u.attempt; joined = joined_of u.attempt; tried = u.tried } };

    ghost invariant = { λ u. 0 < u.count → u.next < u.count };
}

impl Uplinks {
    /// So many uplinks, of which the first is next and none was dialled yet. A joined one that brings nothing for
    /// `timeout` seconds is silent.
    pub fn new(count: u16, timeout: u32) -> Uplinks
        ensures { result ≡ untried count timeout }
    {
        Uplinks {
            count,
            timeout,
            next: 0,
            attempt: Attempt::Idle,
            tried: None,
        }
    }

    /// What the event at `now`, in seconds, makes of the uplinks, and what is to be done then. At a tick a silent link
    /// is closed. Otherwise the next uplink is dialled, where none is dialled or joined and ten seconds have passed since
    /// the last try ended. The uplink that is dialled may join; any other link that joins is closed.
    pub fn step(&mut self, event: UpEvent, now: u64) -> UpActs
        ensures uplinks { self.new ≡ uplinks_after event now self.old }
        ensures acts { result ≡ acts_at event now self.old }
        ensures orderly { IsOrderly self.new }
        ensures dials { IsSome result.dial ↔ IsDialDue event now self.old }
        ensures in_turn { IfSome result.dial (λ uplink. IsInTurn uplink self.old self.new) }
        ensures keeps_turn { IfNone result.dial (self.new.next ≡ self.old.next) }
        ensures logs_in { IsTrue result.login ↔ IsAwaited event self.old }
        ensures closes { (link : _) → (result.close ≡ Some link) ↔ IsToClose link event now self.old }
    {
        match event {
            UpEvent::Tick => return self.tick(now),
            UpEvent::Joined { uplink, link } => return self.join(uplink, link, now),
            UpEvent::Unjoined(uplink) => self.unjoin(uplink, now),
            UpEvent::Heard(link) => self.hear(link, now),
            UpEvent::Ended(link) => self.end(link, now),
        }
        UpActs::default()
    }

    /// Whether that uplink is being dialled.
    pub fn is_dialled(&self, uplink: u16) -> bool
        ensures { result ≡ is_dialled uplink self.now.dialled }
    {
        match self.attempt {
            Attempt::Dialled(dialled) => uplink == dialled,
            Attempt::Idle | Attempt::Joined { .. } => false,
        }
    }

    fn tick(&mut self, now: u64) -> UpActs
        ensures uplinks { self.new ≡ uplinks_after event.Tick now self.old }
        ensures acts { result ≡ acts_at event.Tick now self.old }
        ensures orderly { IsOrderly self.new }
    {
        let mut acts = UpActs::default();
        match self.attempt {
            Attempt::Joined { link, last, .. } => {
                if is_past(last, u64::from(self.timeout), now) {
                    self.end_try(now);
                    acts.close = Some(link);
                }
            }
            Attempt::Idle => {
                if self.may_dial(now) {
                    acts.dial = Some(self.next);
                    self.dial();
                }
            }
            Attempt::Dialled(_) => {}
        }
        acts
    }

    fn join(&mut self, uplink: u16, link: u32, now: u64) -> UpActs
        ensures uplinks { self.new ≡ uplinks_after (event.Joined uplink link) now self.old }
        ensures acts { result ≡ acts_at (event.Joined uplink link) now self.old }
        ensures orderly { IsOrderly self.new }
    {
        if self.attempt != Attempt::Dialled(uplink) {
            return UpActs {
                close: Some(link),
                ..UpActs::default()
            };
        }
        self.attempt = Attempt::Joined {
            uplink,
            link,
            last: now,
        };
        UpActs {
            login: true,
            ..UpActs::default()
        }
    }

    fn unjoin(&mut self, uplink: u16, now: u64)
        ensures uplinks { self.new ≡ uplinks_after (event.Unjoined uplink) now self.old }
        ensures orderly { IsOrderly self.new }
    {
        if self.attempt == Attempt::Dialled(uplink) {
            self.end_try(now);
        }
    }

    fn hear(&mut self, heard: u32, now: u64)
        ensures uplinks { self.new ≡ uplinks_after (event.Heard heard) now self.old }
        ensures orderly { IsOrderly self.new }
    {
        if let Attempt::Joined { link, last, .. } = &mut self.attempt {
            if *link == heard {
                *last = now;
            }
        }
    }

    fn end(&mut self, ended: u32, now: u64)
        ensures uplinks { self.new ≡ uplinks_after (event.Ended ended) now self.old }
        ensures orderly { IsOrderly self.new }
    {
        if let Attempt::Joined { link, .. } = self.attempt {
            if link == ended {
                self.end_try(now);
            }
        }
    }

    fn dial(&mut self)
        requires { 0 < self.old.count }
        ensures { self.new ≡ dialling self.old }
    {
        self.attempt = Attempt::Dialled(self.next);
        self.next = (self.next + 1) % self.count;
    }

    fn end_try(&mut self, now: u64)
        ensures { self.new ≡ ended_at now self.old }
    {
        self.attempt = Attempt::Idle;
        self.tried = Some(now);
    }

    /// Whether there is one to dial, and the last try is over for long enough.
    fn may_dial(&self, now: u64) -> bool
        ensures { result ≡ (nat_lt 0 self.now.count && is_rested now self.now.tried) }
    {
        self.count > 0 && self.tried.is_none_or(|tried| is_past(tried, PAUSE, now))
    }
}

/// Whether so many seconds have passed since the moment.
fn is_past(moment: u64, seconds: u64, now: u64) -> bool
    ensures { result ≡ nat_le seconds (now - moment) }
{
    now.saturating_sub(moment) >= seconds
}
