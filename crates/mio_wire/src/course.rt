//! How far a wire has come: what its next event depends on.
ghost use Rattle.std.specs.Prelude.{◌≡◌, None};
ghost use Rattle.mio_wire.specs.Coming.{after_event, has_stopped};
ghost use Rattle.mio_wire.specs.Pacing.{rested};

use crate::pace::Pace;
use aprs_base::Event;

#[derive(Clone, Copy)]
pub(crate) struct Course {
    /// A stop comes once so many links have ended, where a number is given.
    pub(crate) stop_after: Option<u32>,
    /// The moment of the last tick.
    pub(crate) second: Option<u64>,
    /// How many links ended.
    pub(crate) ended: u32,
    /// What was handed up, and sent, since the last tick.
    pub(crate) pace: Pace,
}

impl Course {
    pub(crate) fn new(stop_after: Option<u32>) -> Course
        ensures { result ≡ record { stop_after = stop_after; second = None; ended = 0; pace = rested } }
    {
        Course {
            stop_after,
            second: None,
            ended: 0,
            pace: Pace::rested(),
        }
    }

    /// Whether as many links ended as were asked for.
    #[tactic(auto, unfolding(crate::specs::Coming::has_stopped))]
    pub(crate) fn is_stopped(&self) -> bool
        ensures { result ≡ has_stopped self.now.stop_after self.now.ended }
    {
        match self.stop_after {
            Some(count) => self.ended >= count,
            None => false,
        }
    }

    /// Counts an event that is handed up.
    pub(crate) fn note(&mut self, event: &Event)
        ensures { self.new ≡ after_event event.now self.old }
    {
        match event {
            Event::Tick(moment) => {
                self.second = Some(*moment);
                self.pace = Pace::rested();
            }
            Event::Bytes(_, bytes) | Event::Datagram { bytes, .. } => {
                self.pace.note_bytes(bytes.bytes());
            }
            Event::Ended(_) => {
                self.ended = self.ended.saturating_add(1);
                self.pace.note_event();
            }
            Event::Opened { .. } | Event::Joined { .. } | Event::Unjoined(_) | Event::Room(_) => {
                self.pace.note_event();
            }
            Event::Stop => {}
        }
    }
}
