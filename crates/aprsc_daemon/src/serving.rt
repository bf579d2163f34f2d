//! The serving of a wire: listeners first, then round after round.
ghost use Rattle.std.specs.Prelude.{◌≡◌, ◌≤◌, ◌<◌, ◌+◌, ℕ, List, [], ◌∷◌, ◌++◌, IfOk, IfSome, OnOk, OnErr, IfErr, IsErrOf, MatchBool, Option, None, Some, length, true, false, take};
ghost use Rattle.aprs_base.specs.Outside.{Told, CountsLink, failed_after, new_link};
ghost use Rattle.aprs_conf.specs.Sound.{IsSound};
ghost use Rattle.aprs_history.specs.Setting.{Setting};
ghost use Rattle.aprs_history.specs.Stands.{StandsFor};
ghost use Rattle.aprs_history.specs.Downs.{down_of, whole_lines};
ghost use Rattle.aprs_history.specs.Texts.{untaken};
ghost use Rattle.aprs_history.specs.Dials.{CastSeen};
ghost use Rattle.link_queue.specs.Lines.{ended_line};
ghost use Rattle.aprs_history.specs.History.{History, ends_round, is_stopped, trace_of};
ghost use Rattle.aprs_history.specs.Headline.{HasFreshLinks};
ghost use Rattle.aprs_history.specs.Rounds.{AreFresh, greatest_after, is_whole, with_events};
ghost use Rattle.front_history.specs.Serving.{ActsOn, EndsOn, GoesOn, Opens, SendsOn, ports_of};
ghost use Rattle.aprs_history.specs.Trace.{is_member};
ghost use Rattle.server_core.specs.LinkSteps.{AreServed, Rises, has_number, numbers, pending_at};
ghost use Rattle.server_core.specs.Sending.{bytes_in};
ghost use Rattle.served_links.specs.Links.{down_at};
ghost use Rattle.server_core.specs.Meaning.{CoreMeaning, listeners, setting_of};
ghost use Rattle.aprsc_daemon.specs.Causes.{OpensOnly};
ghost use Rattle.aprsc_daemon.specs.Failing.{FailsNot, failed_by_opening, failed_by_serving};
ghost use Rattle.aprsc_daemon.specs.Fronts.{state_of};
ghost use Rattle.aprsc_daemon.specs.Phases.{Acting, AreOfRound, Brings, BringsUp, Broken, Counted, Finished, Gathering, Idling, Listening, Offering, Resting, Sending, Served, is_partial};
ghost use Rattle.aprs_base.specs.Journals.{JournalLineSeen};
ghost use Rattle.aprs_base.specs.Slots.{TakesLines};
ghost use Rattle.aprs_history.specs.Runs.{are_listens};
ghost use Rattle.std.specs.List.{AllZip};
ghost use Rattle.server_core.specs.Meaning.{AreActs, Stands};
ghost use Rattle.server_core.specs.Steps.{SameRest};

use crate::fronts::Fronts;
use crate::journals::tell_all;
use aprs_base::{
    Event, Gate, Line, ListenSpec, Memory, Sent, Slot, UplinkSpec, Wire, WireError, first_place,
};
use aprs_conf::{Conf, PeerSpec};
use arrayvec::ArrayVec;
use server_core::{Acts, CastOut, Core, Down, listeners};
use std::alloc::Global;
use std::hash::RandomState;
use std::marker::Sync;
use std::sync::{Wait, WaitMethods};
use std::thread::Threads;

/// The most bytes of one offer.
const MOST_OFFERED: usize = 65_536;

/// The first number of a downlink on the wire. Those before it are the peers'.
const FIRST_DOWN: u16 = 256;

/// Why not every listener was opened.
#[derive(Clone, Copy)]
pub(crate) enum ListenError {
    /// The call for the listener of this number failed.
    Failed(u16),
    Memory,
}

/// Opens each listener, in rising number.
pub(crate) fn listen_all<W: Wire>(
    fronts: &mut Fronts,
    wire: &mut W,
    listens: &[ListenSpec],
) -> Result<(), ListenError>
    requires { length listens.now ≤ 17 }
    ensures same { fronts.new ≡ fronts.old }
    ensures run { (s : Setting) → s.listens ≡ listens.now
        → OnOk result (Opens s fronts.old.page fronts.old.http (W.shown wire.old).told (W.shown wire.new).told (Listening s (length listens.now))) }
    ensures failed { IfErr result (λ e. (n : ℕ) → e ≡ ListenError.Failed n
        → (s : Setting) → s.listens ≡ listens.now → Opens s fronts.old.page fronts.old.http (W.shown wire.old).told (W.shown wire.new).told (Listening s n)) }
    ensures within { IfErr result (λ e. (n : ℕ) → e ≡ ListenError.Failed n → n < length listens.now) }
    ensures err { (s : Setting) → s.listens ≡ listens.now
        → OnErr result (Opens s fronts.old.page fronts.old.http (W.shown wire.old).told (W.shown wire.new).told (λ more. HasFreshLinks more × (are_listens more ≡ true))) }
    ensures listens { (W.shown wire.new).failed_listens ≡ failed_by_opening result (W.shown wire.old).failed_listens }
    ensures nexts { (W.shown wire.new).failed_nexts ≡ (W.shown wire.old).failed_nexts }
{
    let mut n = 0;
    for spec in listens {
        match fronts.page.listen(&mut fronts.http, wire, n, spec) {
            Ok(()) => n += 1,
            Err(WireError::Failed) => return Err(ListenError::Failed(n)),
            Err(WireError::Memory) => return Err(ListenError::Memory),
        }
    }
    Ok(())
}

/// Opens the listeners of a configuration, and makes its core.
pub(crate) fn open<W: Wire>(
    alloc: Global,
    conf: Conf,
    workers: u32,
    fronts: &mut Fronts,
    wire: &mut W,
    hasher: &RandomState,
) -> Result<Core, ListenError>
    requires sound { IsSound conf }
    requires some { 1 ≤ workers }
    requires most { workers ≤ 64 }
    ensures same { fronts.new ≡ fronts.old }
    ensures run { IfOk result (λ core. Opens (setting_of conf) fronts.old.page fronts.old.http (W.shown wire.old).told (W.shown wire.new).told (Resting [] core)) }
    ensures conf { IfOk result (λ core. core.conf ≡ conf) }
    ensures fresh { IfOk result (λ core. (core.seen.greatest ≡ 0) × (core.seen.stopped ≡ false)) }
    ensures listen { IfErr result (λ e. (n : ℕ) → e ≡ ListenError.Failed n
        → Opens (setting_of conf) fronts.old.page fronts.old.http (W.shown wire.old).told (W.shown wire.new).told (OpensOnly n)) }
    ensures within { IfErr result (λ e. (n : ℕ) → e ≡ ListenError.Failed n → n < length (listeners conf)) }
    ensures err { OnErr result (Opens (setting_of conf) fronts.old.page fronts.old.http (W.shown wire.old).told (W.shown wire.new).told (λ more. HasFreshLinks more × (are_listens more ≡ true))) }
    ensures listens { (W.shown wire.new).failed_listens ≡ failed_by_opening result (W.shown wire.old).failed_listens }
    ensures nexts { (W.shown wire.new).failed_nexts ≡ (W.shown wire.old).failed_nexts }
{
    let Ok(listens) = listeners(alloc, &conf) else {
        return Err(ListenError::Memory);
    };
    listen_all(fronts, wire, listens.as_slice())?;
    match Core::new(alloc, hasher, conf, workers) {
        Ok(core) => Ok(core),
        Err(Memory) => Err(ListenError::Memory),
    }
}

/// Whether an event ends its round, after so many.
fn is_last(before: usize, event: &Event) -> bool
    ensures { result ≡ ends_round before event.now }
{
    matches!(event, Event::Tick(_) | Event::Stop) || before == 511
}

/// Takes the next event, and says whether the round is whole with it.
fn take_next<W: Wire>(
    fronts: &mut Fronts,
    wire: &mut W,
    events: &mut Vec<Event>,
) -> Result<bool, WireError>
    requires { is_partial 0 events.old.items ≡ true }
    ensures whole { IfOk result (λ whole. MatchBool whole (is_whole 0 events.new.items ≡ true) (is_partial 0 events.new.items ≡ true)) }
    ensures more { OnOk result (length events.new.items ≡ length events.old.items + 1) }
    ensures brings { (at : Option ℕ) (start : Option Told) → at ≡ fronts.old.http.at → BringsUp at events.old.items start (W.shown wire.old).told
        → OnOk result (BringsUp at events.new.items start (W.shown wire.new).told) }
    ensures counted { (first : ℕ) → Counted first events.old.items (W.shown wire.old).links
        → OnOk result (Counted first events.new.items (W.shown wire.new).links) }
    ensures run { (s : Setting) (lines : List JournalLineSeen) (core : CoreMeaning) → setting_of core.conf ≡ s → fronts.old.page.totals ≡ core.seen.totals
        → OnOk result (GoesOn s (W.shown wire.old).told (state_of fronts.old) (W.shown wire.new).told (state_of fronts.new) (Gathering lines core events.old.items) (Gathering lines core events.new.items)) }
    ensures idle { (s : Setting) (lines : List JournalLineSeen) (core : CoreMeaning) (first : ℕ) → setting_of core.conf ≡ s → fronts.old.page.totals ≡ core.seen.totals
        → core.seen.greatest ≤ first → Counted first events.old.items (W.shown wire.old).links
        → IsErrOf result WireError.Failed → EndsOn s (W.shown wire.old).told (state_of fronts.old) (W.shown wire.new).told (Gathering lines core events.old.items) (Idling s lines) }
    ensures err { (s : Setting) (lines : List JournalLineSeen) (core : CoreMeaning) (first : ℕ) → setting_of core.conf ≡ s → fronts.old.page.totals ≡ core.seen.totals
        → core.seen.greatest ≤ first → Counted first events.old.items (W.shown wire.old).links
        → OnErr result (EndsOn s (W.shown wire.old).told (state_of fronts.old) (W.shown wire.new).told (Gathering lines core events.old.items) (Broken s lines)) }
    ensures totals { OnOk result (fronts.new.page.totals ≡ fronts.old.page.totals) }
    ensures ports { OnOk result (ports_of (state_of fronts.new) ≡ ports_of (state_of fronts.old)) }
    ensures listens { (W.shown wire.new).failed_listens ≡ (W.shown wire.old).failed_listens }
    ensures nexts { (W.shown wire.new).failed_nexts ≡ failed_after result (W.shown wire.old).failed_nexts }
{
    let event = fronts.page.next(&mut fronts.http, wire)?;
    let whole = is_last(events.as_slice().len(), &event);
    events.reserve(1)?;
    events.push_reserved(event);
    Ok(whole)
}

/// Takes the events of one whole round.
fn gather<W: Wire>(
    fronts: &mut Fronts,
    wire: &mut W,
    events: &mut Vec<Event>,
) -> Result<(), WireError>
    requires { events.old.items ≡ [] }
    ensures whole { OnOk result (is_whole 0 events.new.items ≡ true) }
    ensures brings { OnOk result (BringsUp fronts.old.http.at events.new.items (W.shown wire.old).told (W.shown wire.new).told) }
    ensures counted { OnOk result (Counted (W.shown wire.old).links events.new.items (W.shown wire.new).links) }
    ensures run { (s : Setting) (lines : List JournalLineSeen) (core : CoreMeaning) → setting_of core.conf ≡ s → fronts.old.page.totals ≡ core.seen.totals
        → OnOk result (GoesOn s (W.shown wire.old).told (state_of fronts.old) (W.shown wire.new).told (state_of fronts.new) (Gathering lines core []) (Gathering lines core events.new.items)) }
    ensures idle { (s : Setting) (lines : List JournalLineSeen) (core : CoreMeaning) → setting_of core.conf ≡ s → fronts.old.page.totals ≡ core.seen.totals
        → core.seen.greatest ≤ (W.shown wire.old).links
        → IsErrOf result WireError.Failed → EndsOn s (W.shown wire.old).told (state_of fronts.old) (W.shown wire.new).told (Gathering lines core []) (Idling s lines) }
    ensures err { (s : Setting) (lines : List JournalLineSeen) (core : CoreMeaning) → setting_of core.conf ≡ s → fronts.old.page.totals ≡ core.seen.totals
        → core.seen.greatest ≤ (W.shown wire.old).links
        → OnErr result (EndsOn s (W.shown wire.old).told (state_of fronts.old) (W.shown wire.new).told (Gathering lines core []) (Broken s lines)) }
    ensures ports { OnOk result (ports_of (state_of fronts.new) ≡ ports_of (state_of fronts.old)) }
    ensures listens { (W.shown wire.new).failed_listens ≡ (W.shown wire.old).failed_listens }
    ensures nexts { (W.shown wire.new).failed_nexts ≡ failed_after result (W.shown wire.old).failed_nexts }
{
    let mut whole = false;
    while !whole {
        whole = take_next(fronts, wire, events)?;
    }
    Ok(())
}

/// The next bytes of a link, which are written into the buffer unless links share them.
fn next_bytes<'a>(core: &'a Core, link: u32, buffer: &'a mut [u8]) -> &'a [u8]
    requires served { has_number link core.now.seen.links ≡ true }
    requires room { length buffer.old ≡ 65536 }
    ensures bytes { result.now ≡ take 65536 (pending_at link core.now.seen.links) }
    ensures next { (h : History) → Stands core.now h
        → result.now ≡ take 65536 (untaken (setting_of core.now.conf) (trace_of (setting_of core.now.conf) h) link) }
{
    if let Some(bytes) = core.shared_offer(link) {
        return bytes;
    }
    let count = core.offer(link, buffer);
    &buffer[..count]
}

/// Offers a link its next bytes, and tells the core what became of them.
fn offer_one<W: Wire>(
    core: &mut Core,
    fronts: &mut Fronts,
    wire: &mut W,
    link: u32,
    buffer: &mut [u8],
) -> Result<(), Memory>
    requires served { has_number link core.old.seen.links ≡ true }
    requires plain { down_at link core.old.seen.links ≡ None }
    requires same { (h : History) → Stands core.old h → down_of (setting_of core.old.conf) (trace_of (setting_of core.old.conf) h) link ≡ None }
    requires room { length buffer.old ≡ 65536 }
    ensures run { (s : Setting) (lines : List JournalLineSeen) (offers closes : List ℕ) → setting_of core.old.conf ≡ s → is_member link offers ≡ false
        → OnOk result (SendsOn s (W.shown wire.old).told fronts.old.page (W.shown wire.new).told fronts.new.page (Offering lines core.old (link ∷ offers) closes) (Offering lines core.new offers closes)) }
    ensures uncounted { OnErr result (fronts.new ≡ fronts.old) }
    ensures brings { OnOk result (Brings [] (W.shown wire.old).told (W.shown wire.new).told) }
    ensures err { OnErr result ((W.shown wire.new).told ≡ (W.shown wire.old).told) }
    ensures rest { SameRest core.old core.new }
    ensures numbers { numbers core.new.seen.links ≡ numbers core.old.seen.links }
    ensures front { fronts.new.http ≡ fronts.old.http }
    ensures port { fronts.new.page.at ≡ fronts.old.page.at }
    ensures failures { FailsNot (W.shown wire.old) (W.shown wire.new) }
    ensures links { (W.shown wire.new).links ≡ (W.shown wire.old).links }
{
    let bytes = next_bytes(core, link, buffer);
    let offered = bytes.len();
    match fronts.page.send(&mut fronts.http, wire, link, bytes)? {
        Sent::Took(count) => core.took(link, offered, count),
        Sent::Gone => core.gone(link),
    }
    Ok(())
}

/// The bytes up to the first LF and with it, and those behind it. `None` where there is no LF.
fn first_line(bytes: &[u8]) -> Option<(&[u8], &[u8])>
    ensures some { IfSome result (λ cut. (whole_lines bytes.now ≡ cut.0.now ∷ whole_lines cut.1.now) × (bytes.now ≡ cut.0.now ++ cut.1.now)) }
    ensures shorter { IfSome result (λ cut. length cut.1.now < length bytes.now) }
    ensures none { result ≡ None → whole_lines bytes.now ≡ [] }
{
    let end = first_place(b'\n', bytes);
    if end == bytes.len() {
        return None;
    }
    Some(bytes.split_at(end + 1))
}

/// Casts a line to a downlink, in a datagram.
fn cast_line<W: Wire>(
    fronts: &mut Fronts,
    wire: &mut W,
    down: Down,
    line: &[u8],
) -> Result<(), Memory>
    ensures run { (s : Setting) (lines : List JournalLineSeen) (core : CoreMeaning) (link : ℕ) (sent left : List (List ℕ)) (offers closes : List ℕ) → setting_of core.conf ≡ s → is_member link offers ≡ false
        → OnOk result (SendsOn s (W.shown wire.old).told fronts.old.page (W.shown wire.new).told fronts.new.page
        (Sending lines core link down sent (line.now ∷ left) offers closes) (Sending lines core link down (sent ++ line.now ∷ []) left offers closes)) }
    ensures err { OnErr result ((W.shown wire.new).told ≡ (W.shown wire.old).told) }
    ensures uncounted { OnErr result (fronts.new ≡ fronts.old) }
    ensures brings { OnOk result (Brings [] (W.shown wire.old).told (W.shown wire.new).told) }
    ensures front { fronts.new.http ≡ fronts.old.http }
    ensures port { fronts.new.page.at ≡ fronts.old.page.at }
    ensures failures { FailsNot (W.shown wire.old) (W.shown wire.new) }
    ensures links { (W.shown wire.new).links ≡ (W.shown wire.old).links }
{
    match FIRST_DOWN.checked_add(down.number) {
        Some(number) => fronts
            .page
            .cast(&mut fronts.http, wire, number, down.to, line),
        None => Ok(()),
    }
}

/// Casts the whole lines of the bytes to a downlink, each in a datagram of its own, and says how many bytes they have.
fn cast_lines<W: Wire>(
    fronts: &mut Fronts,
    wire: &mut W,
    down: Down,
    bytes: &[u8],
) -> Result<usize, Memory>
    ensures run { (s : Setting) (lines : List JournalLineSeen) (core : CoreMeaning) (link : ℕ) (offers closes : List ℕ) → setting_of core.conf ≡ s → is_member link offers ≡ false
        → OnOk result (SendsOn s (W.shown wire.old).told fronts.old.page (W.shown wire.new).told fronts.new.page
        (Sending lines core link down [] (whole_lines bytes.now) offers closes) (Sending lines core link down (whole_lines bytes.now) [] offers closes)) }
    ensures err { (s : Setting) (lines : List JournalLineSeen) (core : CoreMeaning) (link : ℕ) (offers closes : List ℕ) → setting_of core.conf ≡ s → is_member link offers ≡ false
        → OnErr result (SendsOn s (W.shown wire.old).told fronts.old.page (W.shown wire.new).told fronts.new.page
        (Sending lines core link down [] (whole_lines bytes.now) offers closes) (Broken s lines)) }
    ensures count { IfOk result (λ count. count ≡ bytes_in (whole_lines bytes.now)) }
    ensures within { IfOk result (λ count. count ≤ length bytes.now) }
    ensures brings { OnOk result (Brings [] (W.shown wire.old).told (W.shown wire.new).told) }
    ensures front { fronts.new.http ≡ fronts.old.http }
    ensures port { fronts.new.page.at ≡ fronts.old.page.at }
    ensures failures { FailsNot (W.shown wire.old) (W.shown wire.new) }
    ensures links { (W.shown wire.new).links ≡ (W.shown wire.old).links }
{
    let mut rest = bytes;
    while let Some((line, behind)) = first_line(rest) {
        cast_line(fronts, wire, down, line)?;
        rest = behind;
    }
    Ok(bytes.len() - rest.len())
}

/// Casts a downlink its next lines, and tells the core that it took them.
fn stream_one<W: Wire>(
    core: &mut Core,
    fronts: &mut Fronts,
    wire: &mut W,
    link: u32,
    down: Down,
    buffer: &mut [u8],
) -> Result<(), Memory>
    requires served { has_number link core.old.seen.links ≡ true }
    requires down { down_at link core.old.seen.links ≡ Some down }
    requires same { (h : History) → Stands core.old h → down_of (setting_of core.old.conf) (trace_of (setting_of core.old.conf) h) link ≡ Some down }
    requires room { length buffer.old ≡ 65536 }
    ensures run { (s : Setting) (lines : List JournalLineSeen) (offers closes : List ℕ) → setting_of core.old.conf ≡ s → is_member link offers ≡ false
        → OnOk result (SendsOn s (W.shown wire.old).told fronts.old.page (W.shown wire.new).told fronts.new.page (Offering lines core.old (link ∷ offers) closes) (Offering lines core.new offers closes)) }
    ensures err { (s : Setting) (lines : List JournalLineSeen) (offers closes : List ℕ) → setting_of core.old.conf ≡ s → is_member link offers ≡ false
        → OnErr result (SendsOn s (W.shown wire.old).told fronts.old.page (W.shown wire.new).told fronts.new.page (Offering lines core.old (link ∷ offers) closes) (Broken s lines)) }
    ensures brings { OnOk result (Brings [] (W.shown wire.old).told (W.shown wire.new).told) }
    ensures rest { SameRest core.old core.new }
    ensures numbers { numbers core.new.seen.links ≡ numbers core.old.seen.links }
    ensures front { fronts.new.http ≡ fronts.old.http }
    ensures port { fronts.new.page.at ≡ fronts.old.page.at }
    ensures failures { FailsNot (W.shown wire.old) (W.shown wire.new) }
    ensures links { (W.shown wire.new).links ≡ (W.shown wire.old).links }
{
    let bytes = next_bytes(core, link, buffer);
    let offered = bytes.len();
    let count = cast_lines(fronts, wire, down, bytes)?;
    if count > 0 {
        core.took(link, offered, count);
    }
    Ok(())
}

/// Offers a link its next bytes, or casts it the whole lines of them where it is a downlink.
fn send_one<W: Wire>(
    core: &mut Core,
    fronts: &mut Fronts,
    wire: &mut W,
    link: u32,
    buffer: &mut [u8],
) -> Result<(), Memory>
    requires served { has_number link core.old.seen.links ≡ true }
    requires room { length buffer.old ≡ 65536 }
    ensures run { (s : Setting) (lines : List JournalLineSeen) (offers closes : List ℕ) → setting_of core.old.conf ≡ s → is_member link offers ≡ false
        → OnOk result (SendsOn s (W.shown wire.old).told fronts.old.page (W.shown wire.new).told fronts.new.page (Offering lines core.old (link ∷ offers) closes) (Offering lines core.new offers closes)) }
    ensures err { (s : Setting) (lines : List JournalLineSeen) (offers closes : List ℕ) → setting_of core.old.conf ≡ s → is_member link offers ≡ false
        → OnErr result (SendsOn s (W.shown wire.old).told fronts.old.page (W.shown wire.new).told fronts.new.page (Offering lines core.old (link ∷ offers) closes) (Broken s lines)) }
    ensures brings { OnOk result (Brings [] (W.shown wire.old).told (W.shown wire.new).told) }
    ensures rest { SameRest core.old core.new }
    ensures numbers { numbers core.new.seen.links ≡ numbers core.old.seen.links }
    ensures front { fronts.new.http ≡ fronts.old.http }
    ensures port { fronts.new.page.at ≡ fronts.old.page.at }
    ensures failures { FailsNot (W.shown wire.old) (W.shown wire.new) }
    ensures links { (W.shown wire.new).links ≡ (W.shown wire.old).links }
{
    match core.down(link) {
        Some(down) => stream_one(core, fronts, wire, link, down, buffer),
        None => offer_one(core, fronts, wire, link, buffer),
    }
}

/// Makes each offer, in rising number.
fn send_all<W: Wire>(
    core: &mut Core,
    fronts: &mut Fronts,
    wire: &mut W,
    offers: &[u32],
    buffer: &mut [u8],
) -> Result<(), Memory>
    requires served { AreServed offers.now core.old.seen.links }
    requires rising { (high : ℕ) × Rises 0 offers.now high }
    requires room { length buffer.old ≡ 65536 }
    ensures run { (s : Setting) (lines : List JournalLineSeen) (closes : List ℕ) → setting_of core.old.conf ≡ s
        → OnOk result (SendsOn s (W.shown wire.old).told fronts.old.page (W.shown wire.new).told fronts.new.page (Offering lines core.old offers.now closes) (Offering lines core.new [] closes)) }
    ensures err { (s : Setting) (lines : List JournalLineSeen) (closes : List ℕ) → setting_of core.old.conf ≡ s
        → OnErr result (SendsOn s (W.shown wire.old).told fronts.old.page (W.shown wire.new).told fronts.new.page (Offering lines core.old offers.now closes) (Broken s lines)) }
    ensures brings { OnOk result (Brings [] (W.shown wire.old).told (W.shown wire.new).told) }
    ensures rest { SameRest core.old core.new }
    ensures front { fronts.new.http ≡ fronts.old.http }
    ensures port { fronts.new.page.at ≡ fronts.old.page.at }
    ensures failures { FailsNot (W.shown wire.old) (W.shown wire.new) }
    ensures links { (W.shown wire.new).links ≡ (W.shown wire.old).links }
{
    for link in offers {
        send_one(core, fronts, wire, *link, buffer)?;
    }
    Ok(())
}

/// Closes each of these links.
fn close_all<W: Wire>(wire: &mut W, closes: &[u32]) -> Result<(), Memory>
    ensures run { (s : Setting) (lines : List JournalLineSeen) (core : CoreMeaning) → setting_of core.conf ≡ s
        → OnOk result (ActsOn s (W.shown wire.old).told (W.shown wire.new).told (Offering lines core [] closes.now) (Offering lines core [] [])) }
    ensures err { (s : Setting) (lines : List JournalLineSeen) (core : CoreMeaning) → setting_of core.conf ≡ s
        → OnErr result (ActsOn s (W.shown wire.old).told (W.shown wire.new).told (Offering lines core [] closes.now) (Broken s lines)) }
    ensures brings { OnOk result (Brings [] (W.shown wire.old).told (W.shown wire.new).told) }
    ensures failures { FailsNot (W.shown wire.old) (W.shown wire.new) }
    ensures links { (W.shown wire.new).links ≡ (W.shown wire.old).links }
{
    for link in closes {
        wire.close(*link)?;
    }
    Ok(())
}

/// Begins the dial that is due.
fn dial_due<W: Wire>(wire: &mut W, uplinks: &[UplinkSpec], dial: Option<u16>) -> Result<(), Memory>
    ensures run { (s : Setting) (lines : List JournalLineSeen) (core : CoreMeaning) (casts : List CastSeen) (offers closes : List ℕ)
        → setting_of core.conf ≡ s → core.conf.uplinks ≡ uplinks.now
        → OnOk result (ActsOn s (W.shown wire.old).told (W.shown wire.new).told (Acting lines core dial casts offers closes) (Acting lines core None casts offers closes)) }
    ensures err { OnErr result ((W.shown wire.new).told ≡ (W.shown wire.old).told) }
    ensures brings { OnOk result (Brings [] (W.shown wire.old).told (W.shown wire.new).told) }
    ensures failures { FailsNot (W.shown wire.old) (W.shown wire.new) }
    ensures links { (W.shown wire.new).links ≡ (W.shown wire.old).links }
{
    let Some(uplink) = dial else {
        return Ok(());
    };
    match uplinks.get(usize::from(uplink)) {
        Some(spec) => wire.dial(uplink, spec),
        None => Ok(()),
    }
}

/// A line with its end, in one datagram.
fn datagram_of(line: &Line) -> ArrayVec<u8, 512>
    ensures { result.items ≡ ended_line line.now }
{
    let mut bytes = ArrayVec::new();
    bytes.try_extend_from_slice(line.bytes()).unwrap();
    bytes.push(b'\r');
    bytes.push(b'\n');
    bytes
}

/// Casts a line to its peer.
fn cast_one<W: Wire>(
    fronts: &mut Fronts,
    wire: &mut W,
    peers: &[PeerSpec],
    cast: &CastOut,
) -> Result<(), Memory>
    ensures run { (s : Setting) (lines : List JournalLineSeen) (core : CoreMeaning) (casts : List CastSeen) (offers closes : List ℕ)
        → setting_of core.conf ≡ s → core.conf.peers ≡ peers.now
        → OnOk result (SendsOn s (W.shown wire.old).told fronts.old.page (W.shown wire.new).told fronts.new.page (Acting lines core None (cast.now ∷ casts) offers closes) (Acting lines core None casts offers closes)) }
    ensures err { OnErr result ((W.shown wire.new).told ≡ (W.shown wire.old).told) }
    ensures uncounted { OnErr result (fronts.new ≡ fronts.old) }
    ensures brings { OnOk result (Brings [] (W.shown wire.old).told (W.shown wire.new).told) }
    ensures front { fronts.new.http ≡ fronts.old.http }
    ensures port { fronts.new.page.at ≡ fronts.old.page.at }
    ensures failures { FailsNot (W.shown wire.old) (W.shown wire.new) }
    ensures links { (W.shown wire.new).links ≡ (W.shown wire.old).links }
{
    match peers.get(usize::from(cast.peer)) {
        Some(peer) => {
            let bytes = datagram_of(&cast.line);
            fronts.page.cast(&mut fronts.http, wire, cast.peer, peer.at, bytes.as_slice())
        }
        None => Ok(()),
    }
}

/// Makes each cast, in order.
fn cast_all<W: Wire>(
    fronts: &mut Fronts,
    wire: &mut W,
    peers: &[PeerSpec],
    casts: &[CastOut],
) -> Result<(), Memory>
    ensures run { (s : Setting) (lines : List JournalLineSeen) (core : CoreMeaning) (offers closes : List ℕ)
        → setting_of core.conf ≡ s → core.conf.peers ≡ peers.now
        → OnOk result (SendsOn s (W.shown wire.old).told fronts.old.page (W.shown wire.new).told fronts.new.page (Acting lines core None casts.now offers closes) (Offering lines core offers closes)) }
    ensures err { (s : Setting) (lines : List JournalLineSeen) (core : CoreMeaning) (offers closes : List ℕ)
        → setting_of core.conf ≡ s → core.conf.peers ≡ peers.now
        → OnErr result (SendsOn s (W.shown wire.old).told fronts.old.page (W.shown wire.new).told fronts.new.page (Acting lines core None casts.now offers closes) (Broken s lines)) }
    ensures brings { OnOk result (Brings [] (W.shown wire.old).told (W.shown wire.new).told) }
    ensures front { fronts.new.http ≡ fronts.old.http }
    ensures port { fronts.new.page.at ≡ fronts.old.page.at }
    ensures failures { FailsNot (W.shown wire.old) (W.shown wire.new) }
    ensures links { (W.shown wire.new).links ≡ (W.shown wire.old).links }
{
    for cast in casts {
        cast_one(fronts, wire, peers, cast)?;
    }
    Ok(())
}

/// Does what is due for other servers: the dial, and then the casts.
fn reach_out<W: Wire>(
    fronts: &mut Fronts,
    wire: &mut W,
    conf: &Conf,
    acts: &Acts,
) -> Result<(), Memory>
    ensures run { (s : Setting) (lines : List JournalLineSeen) (core : CoreMeaning) → setting_of core.conf ≡ s → core.conf ≡ conf.now
        → OnOk result (SendsOn s (W.shown wire.old).told fronts.old.page (W.shown wire.new).told fronts.new.page
        (Acting lines core acts.now.dial acts.now.casts acts.now.offers acts.now.closes) (Offering lines core acts.now.offers acts.now.closes)) }
    ensures err { (s : Setting) (lines : List JournalLineSeen) (core : CoreMeaning) → setting_of core.conf ≡ s → core.conf ≡ conf.now
        → OnErr result (SendsOn s (W.shown wire.old).told fronts.old.page (W.shown wire.new).told fronts.new.page
        (Acting lines core acts.now.dial acts.now.casts acts.now.offers acts.now.closes) (Broken s lines)) }
    ensures brings { OnOk result (Brings [] (W.shown wire.old).told (W.shown wire.new).told) }
    ensures front { fronts.new.http ≡ fronts.old.http }
    ensures port { fronts.new.page.at ≡ fronts.old.page.at }
    ensures failures { FailsNot (W.shown wire.old) (W.shown wire.new) }
    ensures links { (W.shown wire.new).links ≡ (W.shown wire.old).links }
{
    dial_due(wire, conf.uplinks.as_slice(), acts.dial)?;
    cast_all(fronts, wire, conf.peers.as_slice(), acts.casts.as_slice())
}

/// The core takes one whole round of events, and the journals are told its lines.
fn tell_round<R: Threads + Sync, G: Gate + Sync>(
    rt: &R,
    alloc: Global,
    core: &mut Core,
    events: &[Event],
    journals: &mut Vec<Slot>,
    gate: &G,
) -> Result<Acts, Memory>
    requires whole { is_whole 0 events.now ≡ true }
    requires fresh { AreFresh core.old.seen.greatest events.now }
    requires going { core.old.seen.stopped ≡ false }
    ensures told { (told : List JournalLineSeen) × AllZip (TakesLines journal_shown told) journals.old.items journals.new.items
        × OnOk result (AreOfRound core.old events.now told) × OnErr result (told ≡ []) }
    ensures conf { OnOk result (core.new.conf ≡ core.old.conf) }
    ensures greatest { OnOk result (core.new.seen.greatest ≡ greatest_after events.now core.old.seen.greatest) }
    ensures done { IfOk result (λ acts. acts.done ≡ core.new.seen.stopped) }
    ensures rising { IfOk result (λ acts. Rises 0 acts.offers core.new.seen.greatest) }
    ensures served { IfOk result (λ acts. AreServed acts.offers core.new.seen.links) }
    ensures stands { (h : History) → Stands core.old h → OnOk result (Stands core.new (with_events events.now h)) }
    ensures due { (h : History) → Stands core.old h
        → IfOk result (λ acts. AreActs (setting_of core.new.conf) (with_events events.now h) acts) }
{
    let mut lines = Vec::new(alloc);
    let acts = core.round(rt, alloc, events, &mut lines, gate)?;
    tell_all(journals, lines.as_slice());
    Ok(acts)
}

/// Does what is due after a round, and says whether the server stopped with it. The journals are told the round's lines
/// before anything else is done.
fn act<R: Threads + Sync, W: Wire, G: Gate + Sync>(
    rt: &R,
    alloc: Global,
    core: &mut Core,
    fronts: &mut Fronts,
    wire: &mut W,
    events: &[Event],
    journals: &mut Vec<Slot>,
    buffer: &mut [u8],
    gate: &G,
) -> Result<bool, Memory>
    requires whole { is_whole 0 events.now ≡ true }
    requires fresh { AreFresh core.old.seen.greatest events.now }
    requires going { core.old.seen.stopped ≡ false }
    requires room { length buffer.old ≡ 65536 }
    ensures run { (told : List JournalLineSeen) × AllZip (TakesLines journal_shown told) journals.old.items journals.new.items
        × ((s : Setting) (lines : List JournalLineSeen) → setting_of core.old.conf ≡ s
        → OnOk result (SendsOn s (W.shown wire.old).told fronts.old.page (W.shown wire.new).told fronts.new.page (Gathering lines core.old events.now) (Resting (lines ++ told) core.new))
        × OnErr result (SendsOn s (W.shown wire.old).told fronts.old.page (W.shown wire.new).told fronts.new.page (Gathering lines core.old events.now) (Broken s (lines ++ told)))) }
    ensures brings { OnOk result (Brings [] (W.shown wire.old).told (W.shown wire.new).told) }
    ensures conf { OnOk result (core.new.conf ≡ core.old.conf) }
    ensures greatest { OnOk result (core.new.seen.greatest ≡ greatest_after events.now core.old.seen.greatest) }
    ensures done { IfOk result (λ done. done ≡ core.new.seen.stopped) }
    ensures front { fronts.new.http ≡ fronts.old.http }
    ensures port { fronts.new.page.at ≡ fronts.old.page.at }
    ensures failures { FailsNot (W.shown wire.old) (W.shown wire.new) }
    ensures links { (W.shown wire.new).links ≡ (W.shown wire.old).links }
{
    let acts = tell_round(rt, alloc, core, events, journals, gate)?;
    reach_out(fronts, wire, core.conf(), &acts)?;
    send_all(core, fronts, wire, acts.offers.as_slice(), buffer)?;
    close_all(wire, acts.closes.as_slice())?;
    Ok(acts.done)
}

/// Serves one round, and says whether the server stopped with it. The events are those of a whole round; where the wire
/// tells what happened, it brought them and no other in this call, each as the front hands it up. The journals are told the
/// round's lines, or none.
fn serve_round<R: Threads + Sync, W: Wire, G: Gate + Sync>(
    rt: &R,
    alloc: Global,
    core: &mut Core,
    fronts: &mut Fronts,
    wire: &mut W,
    events: &mut Vec<Event>,
    journals: &mut Vec<Slot>,
    buffer: &mut [u8],
    gate: &G,
) -> Result<bool, WireError>
    requires going { core.old.seen.stopped ≡ false }
    requires numbered { core.old.seen.greatest ≤ (W.shown wire.old).links }
    requires room { length buffer.old ≡ 65536 }
    ensures run { (told : List JournalLineSeen) × AllZip (TakesLines journal_shown told) journals.old.items journals.new.items
        × ((s : Setting) (lines : List JournalLineSeen) → setting_of core.old.conf ≡ s
        → OnOk result (GoesOn s (W.shown wire.old).told (state_of fronts.old) (W.shown wire.new).told (state_of fronts.new) (Resting lines core.old) (Resting (lines ++ told) core.new))
        × OnErr result (EndsOn s (W.shown wire.old).told (state_of fronts.old) (W.shown wire.new).told (Resting lines core.old) (Broken s (lines ++ told)))
        × (IsErrOf result WireError.Failed → EndsOn s (W.shown wire.old).told (state_of fronts.old) (W.shown wire.new).told (Resting lines core.old) (Idling s (lines ++ told)))) }
    ensures ports { OnOk result (ports_of (state_of fronts.new) ≡ ports_of (state_of fronts.old)) }
    ensures whole { OnOk result (is_whole 0 events.new.items ≡ true) }
    ensures brings { OnOk result (BringsUp fronts.old.http.at events.new.items (W.shown wire.old).told (W.shown wire.new).told) }
    ensures conf { OnOk result (core.new.conf ≡ core.old.conf) }
    ensures numbered { OnOk result (core.new.seen.greatest ≤ (W.shown wire.new).links) }
    ensures done { IfOk result (λ done. done ≡ core.new.seen.stopped) }
    ensures listens { (W.shown wire.new).failed_listens ≡ (W.shown wire.old).failed_listens }
    ensures nexts { (W.shown wire.new).failed_nexts ≡ failed_after result (W.shown wire.old).failed_nexts }
{
    fronts.page.publish(&core.totals());
    events.clear();
    gather(fronts, wire, events)?;
    match act(
        rt,
        alloc,
        core,
        fronts,
        wire,
        events.as_slice(),
        journals,
        buffer,
        gate,
    ) {
        Ok(done) => Ok(done),
        Err(Memory) => Err(WireError::Memory),
    }
}

/// How the serving of a wire ends.
#[derive(Clone, Copy)]
pub(crate) enum End {
    /// A stop was read, and every act that it made due was done.
    Stopped,
    /// The wire failed.
    Failed,
    Memory,
}

/// Serves a wire, round after round, until a stop or a fault. The journals are told the lines of the rounds.
pub(crate) fn serve<R: Threads + Sync + Wait, W: Wire, G: Gate + Sync>(
    rt: &R,
    alloc: Global,
    core: &mut Core,
    fronts: &mut Fronts,
    wire: &mut W,
    journals: &mut Vec<Slot>,
    gate: &G,
) -> End
    requires going { core.old.seen.stopped ≡ false }
    requires numbered { core.old.seen.greatest ≤ (W.shown wire.old).links }
    ensures run { (told : List JournalLineSeen) × AllZip (TakesLines journal_shown told) journals.old.items journals.new.items
        × ((s : Setting) (lines : List JournalLineSeen) → setting_of core.old.conf ≡ s
        → EndsOn s (W.shown wire.old).told (state_of fronts.old) (W.shown wire.new).told (Resting lines core.old) (Served s result (lines ++ told))) }
    ensures stands { result ≡ End.Stopped → (s : Setting) (lines : List JournalLineSeen) → setting_of core.old.conf ≡ s
        → EndsOn s (W.shown wire.old).told (state_of fronts.old) (W.shown wire.new).told (Resting lines core.old) (λ more. Finished s more × StandsFor s core.new.seen more) }
    ensures listens { (W.shown wire.new).failed_listens ≡ (W.shown wire.old).failed_listens }
    ensures nexts { (W.shown wire.new).failed_nexts ≡ failed_by_serving result (W.shown wire.old).failed_nexts }
{
    let mut events = Vec::new(alloc);
    let mut buffer = [0u8; MOST_OFFERED];
    for _ in rt.forever() {
        match serve_round(
            rt,
            alloc,
            core,
            fronts,
            wire,
            &mut events,
            journals,
            &mut buffer,
            gate,
        ) {
            Ok(false) => {}
            Ok(true) => return End::Stopped,
            Err(WireError::Failed) => return End::Failed,
            Err(WireError::Memory) => return End::Memory,
        }
    }
    unreachable!()
}
