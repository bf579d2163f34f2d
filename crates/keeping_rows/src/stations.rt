//! Where stations were last seen, and which of them are gates.

use crate::fields::{Answer, Fault, Fields, or_none, said, yes_or_no};
use aprs_base::{Line, Packet, Source};
use aprs_body::classify;
use station_table::Stations;
use std::alloc::Global;
use std::hash::RandomState;
use std::sync::Arc;
use tnc2_line::read;

/// The table that rows speak of.
#[derive(Drop)]
pub struct Seen {
    alloc: Global,
    hasher: RandomState,
    stations: Stations,
}

/// The packet of a line, which came from link 1.
fn packet_of(moment: u64, line: Arc<Line>) -> Result<Packet, Fault> {
    let Ok(parts) = read(&line) else {
        return Err(Fault::Unknown);
    };
    let body = classify(&parts.dest, parts.body.as_slice());
    Ok(Packet {
        from: Source::Link(1),
        moment,
        parts,
        body,
        line,
    })
}

impl Seen {
    pub fn new(alloc: Global, hasher: &RandomState) -> Result<Seen, Fault> {
        Ok(Seen {
            alloc,
            hasher: *hasher,
            stations: Stations::new(alloc, hasher)?,
        })
    }

    fn note(&mut self, fields: &mut Fields) -> Result<(), Fault> {
        let packet = packet_of(fields.number(), fields.shared_line()?)?;
        self.stations.note(self.alloc, &packet)?;
        Ok(())
    }

    /// The latitude at which a call was last seen.
    fn latitude(&self, fields: &mut Fields) -> Answer {
        let seen = self.stations.place_of(&fields.call(), fields.number());
        or_none(self.alloc, seen.map(|seen| seen.place.lat))
    }

    pub fn answer(&mut self, fields: &mut Fields) -> Answer {
        match fields.word() {
            "new" => self.stations = Stations::new(self.alloc, &self.hasher)?,
            "note" => self.note(fields)?,
            "latitude" => return self.latitude(fields),
            "gate" => {
                let is_gate = self.stations.is_gate(&fields.call(), fields.number());
                return yes_or_no(self.alloc, is_gate);
            }
            "expire" => self.stations.expire(fields.number()),
            _ => return Err(Fault::Unknown),
        }
        said(self.alloc, "done")
    }
}
