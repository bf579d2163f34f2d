//! The table of stations.
ghost use Rattle.std.specs.Prelude.{◌≡◌, ℕ, ◌≤◌, ◌⊎◌, List, [], ◌∷◌, ◌++◌, filter, option_map, OnOk, OnErr, IfOk};
ghost use Rattle.filter_eval.specs.Passes.{fresh, is_some_and, is_text, is_young, third};
ghost use Rattle.aprs_base.specs.PacketSeen.{PacketSeen};
ghost use Rattle.indexmap.specs.IndexMap.{hasher_of, IsUnchanged, IsUnique};
ghost use Rattle.station_table.specs.Last.{Agrees, AgreesAt, HasExactly, last_gate, last_place};
ghost use Rattle.station_table.specs.Stations.{gate_at, gate_in, is_gate_letter, is_young_gate, is_young_place, noted, no_stations, place_at, put_gate, put_place, seen_in, with_place, young};

use aprs_base::{Call, Memory, Packet, Parts, copy_call};
use aprs_body::class;
use filter_eval::{Seen, is_young};
use indexmap::IndexMap;
use std::alloc::Global;
use std::hash::RandomState;
use std::marker::Model;
use tnc2_line::construct;

/// Where stations were last seen, and when stations were last gates.
#[derive(Drop)]
pub struct Stations {
    places: IndexMap<Call, Seen, RandomState>,
    gates: IndexMap<Call, u64, RandomState>,
}

impl Model for Stations {
    ghost use Rattle.std.specs.Prelude.{◌≡◌};
    ghost use Rattle.indexmap.specs.IndexMap.{hasher_of, IsUnique};
    ghost use Rattle.filter_eval.specs.Passes.{is_text};
    ghost use Rattle.station_table.specs.Stations.{StationsSeen};

    ghost Value = { StationsSeen };

    ghost view = { λ s. record { places = s.places.entries; gates = s.gates.entries; hasher = hasher_of s.places } };

    ghost invariant = { λ s. IsUnique is_text s.places × IsUnique is_text s.gates × (hasher_of s.gates ≡ hasher_of s.places) };
}

/// Where an accepted packet says that its source is: a position with a place.
pub fn seen_in(packet: &Packet) -> Option<Seen>
    ensures { result ≡ seen_in packet.now }
{
    if packet.body.class & class::POSITION == 0 {
        return None;
    }
    let place = packet.body.place?;
    Some(Seen {
        place,
        moment: packet.moment,
    })
}

/// Whether the call after this construct is a gate's.
fn is_before_gate(construct: &Call) -> bool
    ensures { result ≡ is_some_and is_gate_letter (third construct.now) }
{
    matches!(construct.bytes().get(2), Some(b'r' | b'R' | b'o'))
}

/// The call right after qAr, qAR or qAo.
fn gate_in(parts: &Parts) -> Option<&Call>
    ensures { option_map (λ call. call.now) result ≡ gate_in parts.now }
{
    let place = construct(parts)? as usize;
    let vias = parts.vias.as_slice();
    if !is_before_gate(&vias[place].call) {
        return None;
    }
    vias.get(place + 1).map(|via| &via.call)
}

fn note_place(places: &mut IndexMap<Call, Seen, RandomState>, packet: &Packet) -> Result<(), Memory>
    ensures ok { OnOk result (places.new.entries ≡ put_place packet.now.parts.source (seen_in packet.now) places.old.entries) }
    ensures err { OnErr result (IsUnchanged places.old places.new) }
    ensures unique { IsUnique is_text places.old → IsUnique is_text places.new }
    ensures hasher { hasher_of places.new ≡ hasher_of places.old }
{
    if let Some(seen) = seen_in(packet) {
        places.insert(copy_call(&packet.parts.source), seen)?;
    }
    Ok(())
}

fn note_gate(gates: &mut IndexMap<Call, u64, RandomState>, packet: &Packet) -> Result<(), Memory>
    ensures ok { OnOk result (gates.new.entries ≡ put_gate (gate_in packet.now.parts) packet.now.moment gates.old.entries) }
    ensures err { OnErr result (IsUnchanged gates.old gates.new) }
    ensures unique { IsUnique is_text gates.old → IsUnique is_text gates.new }
    ensures hasher { hasher_of gates.new ≡ hasher_of gates.old }
{
    if let Some(gate) = gate_in(&packet.parts) {
        gates.insert(copy_call(gate), packet.moment)?;
    }
    Ok(())
}

fn keep_young_places(places: &mut IndexMap<Call, Seen, RandomState>, now: u64)
    ensures kept { places.new.entries ≡ filter (is_young_place now) places.old.entries }
    ensures unique { IsUnique is_text places.new }
    ensures hasher { hasher_of places.new ≡ hasher_of places.old }
{
    places.retain(|_, seen| seen.is_fresh(now));
}

fn keep_young_gates(gates: &mut IndexMap<Call, u64, RandomState>, now: u64)
    ensures kept { gates.new.entries ≡ filter (is_young_gate now) gates.old.entries }
    ensures unique { IsUnique is_text gates.new }
    ensures hasher { hasher_of gates.new ≡ hasher_of gates.old }
{
    gates.retain(|_, moment| is_young(*moment, now));
}

impl Stations {
    /// No station was seen. Each map has a copy of the hasher.
    pub fn new(alloc: Global, hasher: &RandomState) -> Result<Stations, Memory>
        ensures empty { IfOk result (λ table. table ≡ no_stations hasher.now) }
        ensures last { IfOk result (λ table. Agrees table []) }
        ensures exactly { (now : ℕ) → IfOk result (λ table. HasExactly now table []) }
    {
        Ok(Stations {
            places: IndexMap::with_hasher(alloc, *hasher),
            gates: IndexMap::with_hasher(alloc, *hasher),
        })
    }

    /// Notes an accepted packet: where its source is, if it is a position with a place, and that the call right after
    /// qAr, qAR or qAo is a gate. For want of memory the place may be noted and the gate not.
    pub fn note(&mut self, _alloc: Global, packet: &Packet) -> Result<(), Memory>
        ensures ok { OnOk result (self.new ≡ noted packet.now self.old) }
        // The table goes on to have the last that the packets told, this one after the others.
        ensures last { (packets : List PacketSeen) → Agrees self.old packets → OnOk result (Agrees self.new (packets ++ packet.now ∷ [])) }
        ensures last_at { (moment : ℕ) (packets : List PacketSeen) → AgreesAt moment self.old packets → OnOk result (AgreesAt moment self.new (packets ++ packet.now ∷ [])) }
        // A table with exactly those of less than two days before the packet's moment goes on to be one.
        ensures exactly { (now : ℕ) (packets : List PacketSeen) → packet.now.moment ≡ now → HasExactly now self.old packets → OnOk result (HasExactly now self.new (packets ++ packet.now ∷ [])) }
        ensures err { OnErr result ((self.new ≡ self.old) ⊎ (self.new ≡ with_place packet.now self.old)) }
    {
        note_place(&mut self.places, packet)?;
        note_gate(&mut self.gates, packet)
    }

    /// Where the call was seen less than two days before `now`, which is in seconds.
    pub fn place_of(&self, call: &Call, now: u64) -> Option<Seen>
        ensures exact { result ≡ fresh now (place_at self.now call.now) }
        // Its last position.
        ensures last { (packets : List PacketSeen) → AgreesAt now self.now packets → result ≡ fresh now (last_place packets call.now) }
    {
        self.places
            .get(call)
            .copied()
            .filter(|seen| seen.is_fresh(now))
    }

    /// Whether the call was a gate less than two days before `now`, which is in seconds.
    pub fn is_gate(&self, call: &Call, now: u64) -> bool
        ensures exact { result ≡ is_some_and (is_young now) (gate_at self.now call.now) }
        ensures last { (packets : List PacketSeen) → AgreesAt now self.now packets → result ≡ is_some_and (is_young now) (last_gate packets call.now) }
    {
        self.gates
            .get(call)
            .is_some_and(|moment| is_young(*moment, now))
    }

    /// Forgets what is two days old or older at `now`, which is in seconds.
    pub fn expire(&mut self, now: u64)
        ensures kept { self.new ≡ young now self.old }
        ensures last_at { (before : ℕ) (packets : List PacketSeen) → before ≤ now → AgreesAt before self.old packets → AgreesAt now self.new packets }
        ensures exactly { (before : ℕ) (packets : List PacketSeen) → before ≤ now → HasExactly before self.old packets → HasExactly now self.new packets }
    {
        keep_young_places(&mut self.places, now);
        keep_young_gates(&mut self.gates, now);
    }
}
