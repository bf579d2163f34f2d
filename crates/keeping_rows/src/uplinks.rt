//! Uplinks at given moments, and who gets what came from whom.

use crate::fields::{Answer, Fault, Fields, said, yes_or_no};
use std::alloc::Global;
use uplinks_peers::{Side, UpActs, UpEvent, Uplinks, goes_to};

const SIDES: [(&str, Side); 3] = [
    ("client", Side::Client),
    ("uplink", Side::Uplink),
    ("peer", Side::Peer),
];

/// What is to be done.
fn acts_text(alloc: Global, acts: UpActs) -> Answer {
    match (acts.dial, acts.login, acts.close) {
        (None, false, None) => said(alloc, "nothing"),
        (Some(uplink), false, None) => Ok(format!(in alloc; "dial {uplink}")?),
        (None, true, None) => said(alloc, "login"),
        (None, false, Some(link)) => Ok(format!(in alloc; "close {link}")?),
        _ => said(alloc, "several acts"),
    }
}

fn read_event(word: &str, fields: &mut Fields) -> Result<UpEvent, Fault> {
    match word {
        "tick" => Ok(UpEvent::Tick),
        "joined" => Ok(UpEvent::Joined {
            uplink: fields.number(),
            link: fields.number(),
        }),
        "unjoined" => Ok(UpEvent::Unjoined(fields.number())),
        "heard" => Ok(UpEvent::Heard(fields.number())),
        "ended" => Ok(UpEvent::Ended(fields.number())),
        _ => Err(Fault::Unknown),
    }
}

fn passes(fields: &mut Fields) -> Answer {
    let from = fields.named(SIDES.as_slice())?;
    let to = fields.named(SIDES.as_slice())?;
    yes_or_no(fields.alloc, goes_to(from, to))
}

pub fn answer(uplinks: &mut Uplinks, fields: &mut Fields) -> Answer {
    match fields.word() {
        "new" => {
            *uplinks = Uplinks::new(fields.number(), fields.number());
            said(fields.alloc, "done")
        }
        "passes" => passes(fields),
        word => {
            let event = read_event(word, fields)?;
            acts_text(fields.alloc, uplinks.step(event, fields.number()))
        }
    }
}
