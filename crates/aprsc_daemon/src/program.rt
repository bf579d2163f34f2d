//! The program: what its words name is read and served.
ghost use Rattle.std.specs.Prelude.{◌≡◌, ◌⊎◌, ◌≤◌, ◌<◌, ℕ, List, Option, None, Ok, Some, IfOk, IfErr, OnErr, length, map, string_bytes, true};
ghost use Rattle.std.specs.List.{AllZip};
ghost use Rattle.aprs_base.specs.Outside.{Rose, WireShown};
ghost use Rattle.aprs_base.specs.Stores.{FilesShown, Holds, SinkShown, bytes_named};
ghost use Rattle.aprs_base.specs.Journals.{JournalLineSeen};
ghost use Rattle.aprs_base.specs.Slots.{TakesDue, TakesLines};
ghost use Rattle.aprs_base.specs.declared.files.MemFile.{MemFile};
ghost use Rattle.aprs_conf.specs.Seen.{ConfSeen};
ghost use Rattle.aprs_conf.specs.Sound.{IsSound};
ghost use Rattle.aprs_conf.specs.Grammar.{conf_of};
ghost use Rattle.aprsc_daemon.specs.Causes.{Asks, Cause, CountsOnce, DrillEnds, Ended, HasCause, HasNamed, KeepsPromise, NamesNone, NetEnds, Opening, ReadsWell, Said, code_of_status, is_before_serving, outside_of, status_of};
ghost use Rattle.aprsc_daemon.specs.Loading.{SaysUnfit};
ghost use Rattle.aprsc_daemon.specs.Phases.{JournalTold};
ghost use Rattle.aprsc_daemon.specs.Runs.{RunsFor, setting_named};
ghost use Rattle.aprsc_daemon.specs.Asked.{IsBounded};
ghost use Rattle.aprsc_daemon.specs.Words.{NetWordsSeen, ServerWordsSeen, asked_of, drill_of, net_of};

use crate::configuring::{MOST_READ, Unfit, load};
use crate::drill::drill;
use crate::fronts::Fronts;
use crate::saying::{
    bad_step, listen_failed, summary, too_large, trouble, unread, usage, valid, write_all,
};
use crate::serving::{End, ListenError, open, serve};
use crate::words::{DrillWords, NetWords, Task, Words, WordsError, read_words};
use aprs_base::{FileError, Files, Gate, Memory, Sink, SinkError, Slot, Wire, copy_call};
use aprs_conf::Conf;
use net_report::text_of;
use net_script::ScriptError;
use std::alloc::Global;
use std::hash::RandomState;
use std::marker::Sync;
use std::mem::forget;
use std::sync::Wait;
use std::thread::Threads;

/// How the program ends.
#[derive(Clone, Copy)]
pub(crate) enum Status {
    Stopped,
    Checked,
    Drilled,
    Reported,
    BadWords,
    BadFile,
    UnreadFile,
    NoListener,
    LostWire,
    NoMemory,
    LostSink,
}

impl Status {
    fn code(self) -> u8
        ensures { result ≡ code_of_status self }
    {
        match self {
            Status::Stopped | Status::Checked | Status::Drilled | Status::Reported => 0,
            Status::BadWords => 1,
            Status::BadFile => 2,
            Status::UnreadFile => 3,
            Status::NoListener => 4,
            Status::LostWire => 5,
            Status::NoMemory => 6,
            Status::LostSink => 7,
        }
    }
}

fn ended(end: End) -> Status
    ensures { result ≡ status_of end }
{
    match end {
        End::Stopped => Status::Stopped,
        End::Failed => Status::LostWire,
        End::Memory => Status::NoMemory,
    }
}

/// Writes a text, and gives the wanted status, or that of a sink that failed.
fn say<S: Sink>(out: &mut S, text: &[u8], wanted: Status) -> Status
    ensures { Said (S.shown out.old) (S.shown out.new) text.now wanted result }
{
    match write_all(out, text) {
        Ok(()) => wanted,
        Err(SinkError::Failed) => Status::LostSink,
        Err(SinkError::Memory) => Status::NoMemory,
    }
}

/// Writes a text, unless memory was wanting for it, and gives the wanted status, or that of what failed.
fn say_made<S: Sink>(out: &mut S, text: Result<Vec<u8>, Memory>, wanted: Status) -> Status
    ensures { (t : List ℕ) → IfOk text (λ made. made.items ≡ t) → Said (S.shown out.old) (S.shown out.new) t wanted result }
{
    match text {
        Ok(text) => say(out, text.as_slice(), wanted),
        Err(Memory) => Status::NoMemory,
    }
}

/// Runs a configuration.
fn run_conf<R: Threads + Sync + Wait, W: Wire, S: Sink, G: Gate + Sync>(
    rt: &R,
    alloc: Global,
    conf: Conf,
    workers: u32,
    wire: &mut W,
    out: &mut S,
    hasher: &RandomState,
    journals: &mut Vec<Slot>,
    gate: &G,
) -> Status
    requires sound { IsSound conf }
    requires some { 1 ≤ workers }
    requires most { workers ≤ 64 }
    ensures journals { (told : List JournalLineSeen) × AllZip (TakesLines journal_shown told) journals.old.items journals.new.items
        × RunsFor conf (W.shown wire.old).told (W.shown wire.new).told (JournalTold (code_of_status result) (setting_named conf) told) }
    ensures still { is_before_serving (code_of_status result) ≡ true → journals.new ≡ journals.old }
    ensures cause { (words : List (List ℕ)) (files files_after : FilesShown) → HasNamed Task.Serve words files.told conf
        → ReadsWell words files files_after → Cause result (outside_of words files files_after
        (W.shown wire.old) (W.shown wire.new) (S.shown out.old) (S.shown out.new)) }
{
    let (page, upload) = (conf.page_number(), conf.upload_number());
    let Ok(mut fronts) = Fronts::new(alloc, page, upload, copy_call(&conf.server)) else {
        return Status::NoMemory;
    };
    let Ok(served) = conf.served(alloc) else {
        return Status::NoMemory;
    };
    match open(alloc, served, workers, &mut fronts, wire, hasher) {
        Ok(mut core) => {
            let end = serve(rt, alloc, &mut core, &mut fronts, wire, journals, gate);
            // What it keeps isn't taken apart: the process ends next.
            forget(core);
            ended(end)
        }
        Err(ListenError::Failed(n)) => say_made(out, listen_failed(alloc, n), Status::NoListener),
        Err(ListenError::Memory) => Status::NoMemory,
    }
}

/// Says why a file gives no configuration.
fn say_unfit<S: Sink>(alloc: Global, name: &str, why: Unfit, out: &mut S) -> Status
    ensures { SaysUnfit (S.shown out.old) (S.shown out.new) name.now why result }
{
    match why {
        Unfit::TooLarge => say_made(out, too_large(alloc, name), Status::BadFile),
        Unfit::Unread => say_made(out, unread(alloc, name), Status::UnreadFile),
        Unfit::Trouble(why) => say_made(out, trouble(alloc, name, why), Status::BadFile),
        Unfit::Memory => Status::NoMemory,
    }
}

/// Runs a drill, and writes what it counted.
fn run_drill<R: Threads + Sync + Wait, S: Sink>(
    rt: &R,
    alloc: Global,
    asked: DrillWords,
    out: &mut S,
    hasher: &RandomState,
) -> Status
    requires { IsBounded (Words.Drill asked) }
    ensures drill { DrillEnds (code_of_status result) asked.plan (S.shown out.old) (S.shown out.new) }
    ensures cause { (words : List (List ℕ)) (files : FilesShown) (wire : WireShown) → drill_of words ≡ Some asked
        → Cause result (outside_of words files files wire wire (S.shown out.old) (S.shown out.new)) }
{
    match drill(rt, alloc, asked, hasher) {
        Ok(counts) => say_made(out, summary(alloc, asked.plan, counts), Status::Drilled),
        Err(Memory) => Status::NoMemory,
    }
}

/// Runs the script that a text is, and writes what it comes to.
fn run_script<R: Threads + Sync, S: Sink>(
    rt: &R,
    alloc: Global,
    asked: &NetWords<'_>,
    text: &[u8],
    out: &mut S,
    hasher: &RandomState,
) -> Status
    ensures { (words : List (List ℕ)) (files files_after : FilesShown) (wire : WireShown) → net_of words ≡ Some asked.now → Holds files.told asked.now.file text.now
        → ReadsWell words files files_after → Cause result (outside_of words files files_after wire wire (S.shown out.old) (S.shown out.new)) }
{
    match text_of(rt, alloc, hasher, text) {
        Ok(report) => say(out, report.as_slice(), Status::Reported),
        Err(ScriptError::TooLarge) => say_made(out, too_large(alloc, asked.file), Status::BadFile),
        Err(ScriptError::BadStep(line)) => {
            say_made(out, bad_step(alloc, asked.file, line), Status::BadFile)
        }
        Err(ScriptError::Memory) => Status::NoMemory,
    }
}

/// Runs the script that a file holds.
fn run_net<R: Threads + Sync, F: Files, S: Sink>(
    rt: &R,
    alloc: Global,
    asked: &NetWords<'_>,
    files: &mut F,
    out: &mut S,
    hasher: &RandomState,
) -> Status
    ensures { (words : List (List ℕ)) (wire : WireShown) → net_of words ≡ Some asked.now
        → Cause result (outside_of words (F.shown files.old) (F.shown files.new) wire wire (S.shown out.old) (S.shown out.new)) }
{
    let mut script = Vec::new(alloc);
    match files.read(asked.file, MOST_READ, &mut script) {
        Ok(()) => run_script(rt, alloc, asked, script.as_slice(), out, hasher),
        Err(FileError::Big) => say_made(out, too_large(alloc, asked.file), Status::BadFile),
        Err(FileError::Failed) => say_made(out, unread(alloc, asked.file), Status::UnreadFile),
        Err(FileError::Memory) => Status::NoMemory,
    }
}

fn run<R: Threads + Sync + Wait, F: Files, W: Wire, S: Sink, G: Gate + Sync>(
    rt: &R,
    alloc: Global,
    words: &[String],
    files: &mut F,
    wire: &mut W,
    out: &mut S,
    hasher: &RandomState,
    journals: &mut Vec<Slot>,
    gate: &G,
) -> Status
    ensures journals { (conf : ConfSeen) (told_files : List MemFile) → (F.shown files.old).told ≡ Some told_files
        → HasNamed Task.Serve (map string_bytes words.now) (F.shown files.old).told conf
        → (told : List JournalLineSeen) × AllZip (TakesLines journal_shown told) journals.old.items journals.new.items
        × RunsFor conf (W.shown wire.old).told (W.shown wire.new).told (JournalTold (code_of_status result) (setting_named conf) told) }
    ensures checks { (asked : ServerWordsSeen) → asked_of (map string_bytes words.now) ≡ Some asked → asked.task ≡ Task.Check
        → (wire.new ≡ wire.old) × (journals.new ≡ journals.old) }
    ensures drill { (asked : DrillWords) → drill_of (map string_bytes words.now) ≡ Some asked
        → (wire.new ≡ wire.old) × (files.new ≡ files.old) × DrillEnds (code_of_status result) asked.plan (S.shown out.old) (S.shown out.new) }
    ensures net { (asked : NetWordsSeen) → net_of (map string_bytes words.now) ≡ Some asked → (wire.new ≡ wire.old) × (journals.new ≡ journals.old) }
    ensures still { is_before_serving (code_of_status result) ≡ true → journals.new ≡ journals.old }
    ensures unnamed { NamesNone (map string_bytes words.now) (F.shown files.old).told → journals.new ≡ journals.old }
    ensures cause { Cause result (outside_of (map string_bytes words.now) (F.shown files.old) (F.shown files.new)
        (W.shown wire.old) (W.shown wire.new) (S.shown out.old) (S.shown out.new)) }
{
    match read_words(alloc, words) {
        Ok(Words::Server(asked)) => match load(alloc, asked.file, files) {
            Ok(conf) => match asked.task {
                Task::Serve => run_conf(
                    rt,
                    alloc,
                    conf,
                    asked.workers,
                    wire,
                    out,
                    hasher,
                    journals,
                    gate,
                ),
                Task::Check => say_made(out, valid(alloc, asked.file), Status::Checked),
            },
            Err(why) => say_unfit(alloc, asked.file, why, out),
        },
        Ok(Words::Drill(asked)) => run_drill(rt, alloc, asked, out, hasher),
        Ok(Words::Net(asked)) => run_net(rt, alloc, &asked, files, out, hasher),
        Err(WordsError::Refused) => say(out, usage(), Status::BadWords),
        Err(WordsError::Memory) => Status::NoMemory,
    }
}

/// Runs the server: the words are `-c FILE` and perhaps `-w N`, and the file holds the configuration. N is the most workers,
/// 1 to 64, and 1 where it isn't given; each part of the links that they match goes through the gate. What the server sees of
/// what happens on the wire is a run for this configuration, and the bytes that each link takes are a prefix of its defined
/// text. Those who submit by HTTP get a reply and are closed; the server sees a datagram in the place of a whole request. Those
/// who ask for the status page get it, with each number as counted over what the server saw, and are closed. Of these replies
/// the server sees nothing. With `-y` beside them the configuration is read and nothing else. `hasher` is the key of the tables
/// in memory, on which no text depends.
///
/// With `drill SEED LINES LINKS` and perhaps `-w N` in their place, the events of that drill are run over a wire of its own, and
/// a line says what was counted. It depends on the three numbers alone.
///
/// With `net FILE` in their place, the file holds a script: its steps are done in a network of servers in memory, and a text says
/// which of them were not there, and what each server accepted.
///
/// The status is 0 after a stop, for a valid configuration with `-y`, for a drill, or for a script; 1 for words that `clap`
/// refuses, or whose drill has more than 4,000,000 lines times links; 2 for a bad configuration or script; 3
/// where its file can't be read; 4 where a listener failed; 5 where the wire failed; 6 for want of memory; and 7 where the
/// sink failed in the writing of a text for 0 to 4. A file of more than 65,536 bytes is bad.
pub fn aprsc<R: Threads + Sync + Wait, F: Files, W: Wire, S: Sink, G: Gate + Sync>(
    rt: &R,
    alloc: Global,
    words: &[String],
    files: &mut F,
    wire: &mut W,
    out: &mut S,
    hasher: &RandomState,
    journals: &mut Vec<Slot>,
    gate: &G,
) -> u8
    // Where the words ask for a run and the files tell what they hold, what the server saw of the happenings that the call
    // appended is a run for the named configuration. All else of them are the replies that its fronts owed, and their closes: a
    // page tells the totals of the rounds that are finished, and the counts of all that the server saw.
    ensures run { (conf : ConfSeen) (told : List MemFile) → (F.shown files.old).told ≡ Some told
        → HasNamed Task.Serve (map string_bytes words.now) (F.shown files.old).told conf
        → RunsFor conf (W.shown wire.old).told (W.shown wire.new).told (Ended result (setting_named conf)) }
    // So the bytes that each link took are a prefix of its text, and a link was closed only for a reason.
    ensures headline { (conf : ConfSeen) (told : List MemFile) → (F.shown files.old).told ≡ Some told
        → HasNamed Task.Serve (map string_bytes words.now) (F.shown files.old).told conf
        → RunsFor conf (W.shown wire.old).told (W.shown wire.new).told (KeepsPromise (setting_named conf)) }
    // The journals were told the lines of the history, each those of its kinds, as far as they didn't fail; after status 6
    // the lines of the last finished round may be missing.
    ensures journals { (conf : ConfSeen) (told_files : List MemFile) → (F.shown files.old).told ≡ Some told_files
        → HasNamed Task.Serve (map string_bytes words.now) (F.shown files.old).told conf
        → (told : List JournalLineSeen) × AllZip (TakesDue journal_shown told) journals.old.items journals.new.items
        × RunsFor conf (W.shown wire.old).told (W.shown wire.new).told (JournalTold result (setting_named conf) told) }
    // Where the words ask for a check, the wire and the journals stay as they were.
    ensures checks { (asked : ServerWordsSeen) → asked_of (map string_bytes words.now) ≡ Some asked → asked.task ≡ Task.Check
        → (wire.new ≡ wire.old) × (journals.new ≡ journals.old) }
    // Where they ask for a drill, the wire, the files and the journals stay so too, and the drill ends with its summary on
    // the sink, for want of memory, or where the sink failed.
    ensures drill { (asked : DrillWords) → drill_of (map string_bytes words.now) ≡ Some asked
        → (wire.new ≡ wire.old) × (files.new ≡ files.old) × (journals.new ≡ journals.old)
        × DrillEnds result asked.plan (S.shown out.old) (S.shown out.new) }
    // Where they ask for a network, the wire and the journals stay so, and the call ends with what the file's script comes to on
    // the sink, with what is wrong with the file, for want of memory, or where the sink failed.
    ensures net { (asked : NetWordsSeen) → net_of (map string_bytes words.now) ≡ Some asked
        → (wire.new ≡ wire.old) × (journals.new ≡ journals.old)
        × NetEnds result asked.file (F.shown files.old).told (S.shown out.old) (S.shown out.new) }
    // The journals stay as they were whenever the words ask for no run or the file holds no configuration, and whenever
    // the call ended before it served.
    ensures unnamed { NamesNone (map string_bytes words.now) (F.shown files.old).told → journals.new ≡ journals.old }
    ensures still { is_before_serving result ≡ true → journals.new ≡ journals.old }
    // Each status has its cause, and its text stands on the sink.
    ensures cause { HasCause result (outside_of (map string_bytes words.now) (F.shown files.old) (F.shown files.new)
        (W.shown wire.old) (W.shown wire.new) (S.shown out.old) (S.shown out.new)) }
    // The counts of failed calls are exact: the call that the status tells of failed once, and no other did.
    ensures counts { CountsOnce result (outside_of (map string_bytes words.now) (F.shown files.old) (F.shown files.new)
        (W.shown wire.old) (W.shown wire.new) (S.shown out.old) (S.shown out.new)) }
    // Where no fault was counted, the status is the one that the words and the file ask for, or 6.
    ensures complete { (code : ℕ) → Asks (map string_bytes words.now) (F.shown files.old).told code
        → ¬ Rose (F.shown files.old).faults (F.shown files.new).faults
        → ¬ Rose (W.shown wire.old).failed_listens (W.shown wire.new).failed_listens
        → ¬ Rose (W.shown wire.old).failed_nexts (W.shown wire.new).failed_nexts
        → ¬ Rose (S.shown out.old).faults (S.shown out.new).faults
        → (result ≡ code) ⊎ (result ≡ 6) }
    // Once the file of a run was read, the sink is lost only before every listener is open.
    ensures early { (conf : ConfSeen) (told : List MemFile) → (F.shown files.old).told ≡ Some told
        → HasNamed Task.Serve (map string_bytes words.now) (F.shown files.old).told conf
        → ¬ Rose (F.shown files.old).faults (F.shown files.new).faults
        → result ≡ 7
        → RunsFor conf (W.shown wire.old).told (W.shown wire.new).told (Opening (setting_named conf)) }
{
    run(rt, alloc, words, files, wire, out, hasher, journals, gate).code()
}
