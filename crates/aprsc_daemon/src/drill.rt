//! The drill: a run of the server over the events of a plan, and what it counts.
ghost use Rattle.std.specs.Prelude.{◌≡◌, ◌<◌, ◌≤◌, [], Some, IfOk, IfSome, OnOk};
ghost use Rattle.aprs_base.specs.WireScript.{shown_by};
ghost use Rattle.aprs_conf.specs.Sound.{IsSound};
ghost use Rattle.server_core.specs.Meaning.{setting_of};
ghost use Rattle.aprsc_daemon.specs.Drill.{HasCounts, IsDriven, drill_setting};

use crate::configuring::read_conf;
use crate::fronts::Fronts;
use crate::serving::{End, open, serve};
use crate::words::DrillWords;
use aprs_base::{
    Addr, Event, ListenSpec, MemWire, Memory, OpenGate, Sent, Totals, UplinkSpec, Wire, WireError,
    copy_call,
};
use aprs_conf::Conf;
use drill_plan::{Events, Plan, copy_events};
use std::alloc::Global;
use std::hash::RandomState;
use std::marker::{Model, Sync};
use std::mem::forget;
use std::sync::Wait;
use std::thread::Threads;

/// The configuration of every drill.
const DRILL_CONF: &[u8] = b"ServerId DRILL\nPassCode 13052\nMaxClients 1000\n\
Listen \"full\" fullfeed tcp 0.0.0.0 1\nListen \"igate\" igate tcp 0.0.0.0 2\n";

/// What a drill counts.
#[derive(Clone, Copy)]
pub(crate) struct Counts {
    pub totals: Totals,
    /// The bytes that all links took.
    pub taken: u64,
}

/// A wire that gives the events of a plan, and takes every offer whole.
#[derive(Drop)]
struct DrillWire {
    plan: Plan,
    /// The events that are still to come.
    events: Events,
    wire: MemWire,
    /// The bytes that all links took.
    taken: u64,
}

impl Model for DrillWire {
    ghost use Rattle.aprsc_daemon.specs.Drill.{DrillWireSeen, IsDriven};

    ghost Value = { DrillWireSeen };

    ghost view = { λ w. record { plan = w.plan; events = w.events; wire = w.wire; taken = w.taken } };

    ghost invariant = { λ w. IsDriven w.plan w.events w.wire w.taken };
}

impl DrillWire {
    fn new(alloc: Global, plan: Plan) -> Result<DrillWire, Memory>
        requires { plan.links ≤ 1000 }
        ensures { IfOk result (λ w. (shown_by w.wire).told ≡ Some (record { done = []; listened = []; dialled = []; cast_to = [] })) }
    {
        match MemWire::new(alloc, Vec::new(alloc), Vec::new(alloc), None, None) {
            Ok(wire) => Ok(DrillWire {
                plan,
                events: Events::new(plan),
                wire,
                taken: 0,
            }),
            Err(_) => Err(Memory),
        }
    }

    /// The bytes that all links took, where all events of this plan came.
    fn taken_by(&self, plan: Plan) -> Option<u64>
        ensures { IfSome result (λ taken. IsDriven plan [] self.now.wire taken) }
    {
        if self.plan == plan && self.events.is_over() {
            Some(self.taken)
        } else {
            None
        }
    }
}

impl Wire for DrillWire {
    ghost shown = { λ w. shown_by w.wire };

    fn listen(&mut self, n: u16, spec: &ListenSpec) -> Result<(), WireError> {
        self.wire.listen(n, spec)
    }

    fn next(&mut self) -> Result<Event, WireError> {
        let mut later = copy_events(&self.events);
        let Some(event) = later.next() else {
            return Err(WireError::Memory);
        };
        self.wire.note(&event)?;
        self.events = later;
        Ok(event)
    }

    fn send(&mut self, link: u32, bytes: &[u8]) -> Result<Sent, Memory> {
        let Some(taken) = self.taken.checked_add(bytes.len() as u64) else {
            return Err(Memory);
        };
        let sent = self.wire.send(link, bytes)?;
        self.taken = taken;
        Ok(sent)
    }

    fn close(&mut self, link: u32) -> Result<(), Memory> {
        self.wire.close(link)
    }

    fn dial(&mut self, uplink: u16, spec: &UplinkSpec) -> Result<(), Memory> {
        self.wire.dial(uplink, spec)
    }

    fn cast(&mut self, peer: u16, to: Addr, bytes: &[u8]) -> Result<(), Memory> {
        self.wire.cast(peer, to, bytes)
    }
}

fn drill_conf(alloc: Global) -> Result<Conf, Memory>
    ensures setting { IfOk result (λ conf. setting_of conf ≡ drill_setting) }
    ensures sound { IfOk result IsSound }
{
    match read_conf(alloc, DRILL_CONF) {
        Ok(conf) => Ok(conf),
        Err(_) => Err(Memory),
    }
}

/// Runs a drill by its words, and gives what it counted.
pub(crate) fn drill<R: Threads + Sync + Wait>(
    rt: &R,
    alloc: Global,
    asked: DrillWords,
    hasher: &RandomState,
) -> Result<Counts, Memory>
    requires some { 1 ≤ asked.workers }
    requires most { asked.workers ≤ 64 }
    requires few { asked.plan.links ≤ 1000 }
    ensures { IfOk result (HasCounts asked.plan) }
{
    let conf = drill_conf(alloc)?;
    let mut wire = DrillWire::new(alloc, asked.plan)?;
    let mut fronts = Fronts::new(alloc, None, None, copy_call(&conf.server))?;
    let Ok(mut core) = open(alloc, conf, asked.workers, &mut fronts, &mut wire, hasher) else {
        return Err(Memory);
    };
    let end = serve(
        rt,
        alloc,
        &mut core,
        &mut fronts,
        &mut wire,
        &mut Vec::new(alloc),
        &OpenGate,
    );
    let totals = core.totals();
    let taken = wire.taken_by(asked.plan);
    // What they keep isn't taken apart: the process ends next.
    forget(core);
    forget(fronts);
    forget(wire);
    match (end, taken) {
        (End::Stopped, Some(taken)) => Ok(Counts { totals, taken }),
        _ => Err(Memory),
    }
}
