//! The steps of a script, one after another.
ghost use Rattle.std.specs.Prelude.{◌≡◌, ◌++◌, IfOk, MatchResult, Ok, OnOk, false, reverse};
ghost use Rattle.net_history.specs.Network.{Layout};
ghost use Rattle.net_history.specs.Report.{report_of};
ghost use Rattle.net_history.specs.Steps.{network_of};
ghost use Rattle.net_schedule.specs.Running.{layout_of};
ghost use Rattle.net_script.specs.Laws.{IsWired};
ghost use Rattle.net_script.specs.Layouts.{layout_of as asked_layout};
ghost use Rattle.net_script.specs.Limits.{KeepsLimits};
ghost use Rattle.net_script.specs.Reading.{FailsAt};
ghost use Rattle.net_script.specs.Running.{Progress, beginning, event_of, not_there, script_text, with_line};
ghost use Rattle.net_report.specs.Told.{HasCome, text_by, text_of};

use crate::openings::{Opened, last_link, opened_by, push_some};
use aprs_base::Memory;
use itoa::Buffer;
use net_history::NetEvent;
use net_schedule::{Network, Step};
use net_script::{Script, ScriptError, ScriptStep, StepLine, read};
use std::alloc::Global;
use std::hash::RandomState;
use std::marker::{Model, Sync};
use std::mem::{forget, replace};
use std::thread::Threads;

/// A step of a script as one of its network.
fn event_of(openings: &[Opened], step: ScriptStep) -> NetEvent
    ensures { result ≡ event_of (reverse openings.now) step }
{
    match step {
        ScriptStep::Open { server, call } => NetEvent::Open {
            server,
            listener: 0,
            call,
        },
        ScriptStep::Say { server, call, line } => NetEvent::Say {
            server,
            link: last_link(openings, server, &call),
            line,
        },
        ScriptStep::Round { server, moment } => NetEvent::Round { server, moment },
        ScriptStep::Join { pair } => NetEvent::Join { pair },
        ScriptStep::Cut { pair } => NetEvent::Cut { pair },
        ScriptStep::Carry { pair, up, n } => NetEvent::Carry { pair, up, n },
        ScriptStep::Cast { from, to, k } => NetEvent::Cast { from, to, k },
    }
}

/// Says that the step of a line isn't there.
fn answer(out: &mut Vec<u8>, number: u32) -> Result<(), Memory>
    ensures { OnOk result (out.new.items ≡ out.old.items ++ not_there number) }
{
    let mut digits = Buffer::new();
    out.extend_from_slice(b"line ")?;
    out.extend_from_slice(digits.format(number).as_bytes())?;
    out.extend_from_slice(b": not there\n")?;
    Ok(())
}

/// A script that runs.
#[derive(Drop)]
struct Run {
    network: Network,
    openings: Vec<Opened>,
    answers: Vec<u8>,
}

impl Model for Run {
    ghost use Rattle.std.specs.Prelude.{reverse};
    ghost use Rattle.net_report.specs.Told.{RunKept};

    ghost Value = { RunKept };

    ghost view = { λ r. record { network = r.network; openings = reverse r.openings.items; answers = r.answers.items } };
}

impl Run {
    /// Does the step of the next line, or says that it isn't there.
    fn take<R: Threads + Sync>(
        &mut self,
        rt: &R,
        alloc: Global,
        line: StepLine,
    ) -> Result<(), Memory>
        requires { self.old.network.spent ≡ false }
        ensures layout { OnOk result (layout_of self.new.network ≡ layout_of self.old.network) }
        ensures going { OnOk result (self.new.network.spent ≡ false) }
        ensures come { (before : Progress) → HasCome self.old before → OnOk result (HasCome self.new (with_line (layout_of self.old.network) before line)) }
    {
        let StepLine { number, step } = line;
        let opened = opened_by(&self.network, &step);
        let event = event_of(self.openings.as_slice(), step);
        match self.network.step(rt, alloc, event)? {
            Step::Done => push_some(&mut self.openings, opened),
            Step::NotThere => answer(&mut self.answers, number),
        }
    }

    /// The answers, and then the report.
    fn text(&mut self, alloc: Global) -> Result<Vec<u8>, Memory>
        ensures { (progress : Progress) → HasCome self.old progress
            → IfOk result (λ text. text.items ≡ progress.answers ++ report_of (network_of (layout_of self.old.network) progress.steps)) }
    {
        let mut text = replace(&mut self.answers, Vec::new(alloc));
        self.network.report(&mut text)?;
        Ok(text)
    }

    /// Does the steps of all lines, and gives what the script comes to.
    fn play<R: Threads + Sync>(
        &mut self,
        rt: &R,
        alloc: Global,
        lines: Vec<StepLine>,
    ) -> Result<Vec<u8>, Memory>
        requires { HasCome self.old beginning }
        ensures { (layout : Layout) → layout_of self.old.network ≡ layout → IfOk result (λ text. text.items ≡ text_by layout lines.items) }
    {
        for line in lines {
            self.take(rt, alloc, line)?;
        }
        self.text(alloc)
    }
}

/// What a script comes to.
fn run_script<R: Threads + Sync>(
    rt: &R,
    alloc: Global,
    hasher: &RandomState,
    script: Script,
) -> Result<Vec<u8>, Memory>
    requires limits { KeepsLimits script }
    requires wired { IsWired (asked_layout script) }
    ensures { IfOk result (λ text. text.items ≡ script_text script) }
{
    let confs = script.confs(alloc)?;
    let Script {
        pairs,
        peers,
        steps,
        ..
    } = script;
    let mut run = Run {
        network: Network::new(alloc, hasher, confs, pairs, peers)?,
        openings: Vec::new(alloc),
        answers: Vec::new(alloc),
    };
    let text = run.play(rt, alloc, steps);
    // What it keeps isn't taken apart: the process ends next.
    forget(run);
    text
}

/// What the text of a script comes to: a line for each step that isn't there, with the number of its own line, and then the report of
/// what each server accepted. `hasher` is the key of the tables in memory, on which no text depends.
///
/// A text that is no script has the error of its reading: `TooLarge` where it has more than 65,536 bytes, or else the number of its
/// first bad line.
pub fn text_of<R: Threads + Sync>(
    rt: &R,
    alloc: Global,
    hasher: &RandomState,
    text: &[u8],
) -> Result<Vec<u8>, ScriptError>
    ensures { MatchResult result (λ out. text_of text.now ≡ Ok out.items) (λ e. FailsAt e (text_of text.now)) }
{
    let script = read(alloc, text)?;
    match run_script(rt, alloc, hasher, script) {
        Ok(out) => Ok(out),
        Err(Memory) => Err(ScriptError::Memory),
    }
}
