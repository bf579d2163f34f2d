//! Drills, event by event.
ghost use Rattle.std.specs.Prelude.{◌≤◌};

use crate::fields::{Answer, Fault, Fields, not_allowed, said, shown, yes_or_no};
use aprs_base::Event;
use drill_plan::{Events, Plan, copy_events};
use row_texts::write_bytes;
use std::alloc::Global;

/// The drill that rows speak of.
#[derive(Drop)]
pub struct Drill {
    alloc: Global,
    events: Events,
}

fn event_text(alloc: Global, event: Option<&Event>) -> Answer {
    match event {
        None => said(alloc, "none"),
        Some(Event::Tick(moment)) => Ok(format!(in alloc; "tick {moment}")?),
        Some(
            Event::Opened {
                listener,
                link,
                from,
            },
        ) => {
            let ip = from.ip;
            let port = from.port;
            Ok(format!(in alloc; "opened {listener} {link} from {ip:?} {port}")?)
        }
        Some(Event::Bytes(link, chunk)) => {
            let text = write_bytes(alloc, chunk.bytes())?;
            Ok(format!(in alloc; "bytes {link} {text}")?)
        }
        Some(Event::Stop) => said(alloc, "stop"),
        Some(_) => said(alloc, "another event"),
    }
}

/// What is asked of the events that are left.
fn asked(alloc: Global, left: &[Event], word: &str, place: usize) -> Answer {
    match word {
        "at" => event_text(alloc, left.get(place)),
        "length" => shown(alloc, left.len()),
        "last" => event_text(alloc, left.last()),
        _ => Err(Fault::Unknown),
    }
}

impl Drill {
    pub fn new(alloc: Global) -> Drill {
        let plan = Plan {
            seed: 0,
            lines: 0,
            links: 0,
        };
        Drill {
            alloc,
            events: Events::new(plan),
        }
    }

    fn begin(&mut self, fields: &mut Fields) -> Answer {
        let plan = Plan {
            seed: fields.number(),
            lines: fields.number(),
            links: fields.number(),
        };
        if plan.links > 1000 {
            return not_allowed(self.alloc);
        }
        self.events = Events::new(plan);
        said(self.alloc, "done")
    }

    pub fn answer(&mut self, fields: &mut Fields) -> Answer {
        match fields.word() {
            "new" => self.begin(fields),
            "next" => event_text(self.alloc, self.events.next().as_ref()),
            "copied" => event_text(self.alloc, copy_events(&self.events).next().as_ref()),
            "over" => yes_or_no(self.alloc, self.events.is_over()),
            word => {
                let left: Vec<Event> = copy_events(&self.events).collect(self.alloc)?;
                asked(
                    self.alloc,
                    left.as_slice(),
                    word,
                    fields.perhaps().unwrap_or(0),
                )
            }
        }
    }
}
