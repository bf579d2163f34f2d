//! Links that hear stations and are promised positions.

use crate::fields::{Answer, Fault, Fields, all_of, said};
use heard_routing::Heard;
use std::alloc::Global;
use std::hash::RandomState;

/// The table that rows speak of.
#[derive(Drop)]
pub struct Hearers {
    alloc: Global,
    hasher: RandomState,
    heard: Heard,
}

impl Hearers {
    pub fn new(alloc: Global, hasher: &RandomState) -> Result<Hearers, Fault> {
        Ok(Hearers {
            alloc,
            hasher: *hasher,
            heard: Heard::new(alloc, hasher)?,
        })
    }

    /// The links that heard a call, or that were promised its position, after those that stand in the row.
    fn routes(&mut self, word: &str, fields: &mut Fields) -> Answer {
        let call = fields.call();
        let now = fields.number();
        let mut links = fields.numbers()?;
        match word {
            "receivers" => self.heard.receivers(self.alloc, &call, now, &mut links)?,
            "courtesy" => self.heard.courtesy(self.alloc, &call, now, &mut links)?,
            _ => return Err(Fault::Unknown),
        }
        all_of(self.alloc, links.as_slice())
    }

    /// A link hears a call, or is promised its position.
    fn keep(&mut self, word: &str, fields: &mut Fields) -> Answer {
        let link = fields.number();
        let call = fields.call();
        let now = fields.number();
        match word {
            "note" => self.heard.note(self.alloc, link, &call, now)?,
            _ => self.heard.promise(self.alloc, link, &call, now)?,
        }
        said(self.alloc, "done")
    }

    pub fn answer(&mut self, fields: &mut Fields) -> Answer {
        let word = fields.word();
        match word {
            "new" => self.heard = Heard::new(self.alloc, &self.hasher)?,
            "note" | "promise" => return self.keep(word, fields),
            "forget" => self.heard.forget(fields.number()),
            "expire" => self.heard.expire(fields.number()),
            _ => return self.routes(word, fields),
        }
        said(self.alloc, "done")
    }
}
