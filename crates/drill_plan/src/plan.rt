//! The events of a drill, in order.
ghost use Rattle.std.specs.Prelude.{◌≡◌, ◌↔◌, ◌-◌, ◌≤◌, [], IsTrue};
ghost use Rattle.aprs_base.specs.Outside.{are_numbered};
ghost use Rattle.drill_plan.specs.Drill.{drill_events, opening_of};
ghost use Rattle.drill_plan.specs.Left.{tick_after};

use crate::lines::{line_text, next_state};
use crate::logins::login_text;
use aprs_base::{Addr, Event};
use std::marker::Model;

/// The moment at which a drill begins.
const BEGIN: u64 = 1_000_000;

/// After so many lines a second has passed.
const LINES_A_SECOND: u32 = 100;

/// Which drill.
#[derive(Clone, Copy, PartialEq, Eq)]
pub struct Plan {
    /// Where its states begin.
    pub seed: u32,
    /// How many lines link 1 sends.
    pub lines: u32,
    /// How many links there are.
    pub links: u32,
}

/// The events of a drill that are left: a tick, the openings and the logins of the links, the lines with a tick after each
/// hundred and after the last, and the stop.
#[derive(Clone, Drop)]
pub struct Events {
    plan: Plan,
    /// The moment of the tick that is due.
    tick: Option<u64>,
    /// How many links came.
    opened: u32,
    /// How many links logged in.
    logged_in: u32,
    /// How many lines came.
    sent: u32,
    /// The state of the last of them.
    state: u32,
    stopped: bool,
}

impl Model for Events {
    ghost use Rattle.std.specs.Prelude.{◌≤◌, List};
    ghost use Rattle.aprs_base.specs.declared.events.Event.{Event};

    ghost Value = { List Event };

    ghost use Rattle.drill_plan.specs.Left.{events_left};

    ghost view = { events_left };

    ghost invariant = { λ e. e.plan.links ≤ 1000 };
}

/// The coming of a link: the first to the full feed, the others to the igate port.
fn opening(link: u32) -> Event
    ensures { result ≡ opening_of link }
{
    Event::Opened {
        listener: if link == 1 { 0 } else { 1 },
        link,
        from: Addr {
            ip: [0; 4],
            port: 0,
        },
    }
}

/// The moment of the tick that comes after so many lines of all, where one does.
fn tick_after(sent: u32, lines: u32) -> Option<u64>
    requires { sent ≤ lines }
    ensures { result ≡ tick_after sent (lines - sent) }
{
    if sent == lines || sent % LINES_A_SECOND == 0 {
        Some(BEGIN + u64::from(sent.div_ceil(LINES_A_SECOND)))
    } else {
        None
    }
}

impl Events {
    /// All events of a drill, whose links are 1,000 at most.
    pub fn new(plan: Plan) -> Events
        requires { plan.links ≤ 1000 }
        ensures exact { result ≡ drill_events plan }
        ensures numbered { IsTrue (are_numbered 0 result) }
    {
        Events {
            plan,
            tick: Some(BEGIN),
            opened: 0,
            logged_in: 0,
            sent: 0,
            state: plan.seed,
            stopped: false,
        }
    }

    /// Whether no event is left.
    pub fn is_over(&self) -> bool
        ensures { IsTrue result ↔ (self.now ≡ []) }
    {
        copy_events(self).next().is_none()
    }
}

impl Iterator for Events {
    ghost use Rattle.std.specs.Iterator.{YieldsFirst, item_count};

    type Item = Event;

    ghost next_gives = { YieldsFirst (λ left. left) };

    ghost remaining = { item_count (λ left. left) };

    #[tactic(auto, using(crate::proofs::LeftLemmas::link_first))]
    fn next(&mut self) -> Option<Event> {
        if let Some(moment) = self.tick {
            self.tick = None;
            return Some(Event::Tick(moment));
        }
        if self.opened < self.plan.links {
            self.opened += 1;
            return Some(opening(self.opened));
        }
        if self.logged_in < self.plan.links {
            self.logged_in += 1;
            return Some(Event::Bytes(self.logged_in, login_text(self.logged_in)));
        }
        if self.sent < self.plan.lines {
            self.sent += 1;
            self.state = next_state(self.state);
            self.tick = tick_after(self.sent, self.plan.lines);
            return Some(Event::Bytes(1, line_text(self.state)));
        }
        if self.stopped {
            return None;
        }
        self.stopped = true;
        Some(Event::Stop)
    }
}

/// A copy of the events that are left, which takes no memory.
pub fn copy_events(events: &Events) -> Events
    ensures { result ≡ events.now }
{
    events.clone().unwrap()
}
