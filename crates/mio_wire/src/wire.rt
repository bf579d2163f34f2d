//! The wire over the sockets of the system.
ghost use Rattle.std.specs.Prelude.{◌≡◌, ◌≢◌, ◌<◌, ℕ, ◌+◌, ◌-◌, ◌^◌, ◌≤◌, ◌++◌, ◌&&◌, not, [], ◌∷◌, Some, None, true, false, is_some, length, OnOk, OnErr, IfNone, IfOk, IfSome, IsErrOf};
ghost use Rattle.aprs_base.specs.Outside.{AfterAct, AfterListen, AfterNext, AfterSend, IsOutcome, with_cast, with_closed, with_dial};
ghost use Rattle.aprs_base.specs.declared.events.Event.TheVariants.{Tick};
ghost use Rattle.aprs_base.specs.declared.events.WireError.TheVariants as WireError;
ghost use Rattle.mio_wire.specs.Pacing.{is_due, rested};
ghost use Rattle.mio_wire.specs.Coming.{ComesNext, StepGives, TicksAt, after_event, after_offer};
ghost use Rattle.std.specs.Net.Grammar.{IsIpv4Text};
ghost use Rattle.std.specs.declared.net.ipv4_addr.Ipv4Addr.{Ipv4Addr};
ghost use Rattle.mio_wire.specs.Names.{IsIn};
ghost use Rattle.mio_wire.specs.Dialled.{Answers, Begins};
ghost use Rattle.mio_wire.specs.Linked.{TakesOf, TellsOfOne, numbers, numbers_after, without};
ghost use Rattle.mio_wire.specs.Arrivals.{IsArrival, after_sent, counts, failed_with};
ghost use Rattle.mio_wire.specs.Seen.{IsStep, StepsTo, seen};
ghost use Rattle.mio_wire.specs.Unread.{HandsUp, IsHeld, Leaves, forgotten, nothing, unread_after};
ghost use Rattle.mio_wire.specs.Held.{IsServed, MovesAt, NamesListener, holding, listening, listening_after, reads_on, unread};

use crate::briefs::{Brief, Head, whole};
use crate::course::Course;
use crate::dials::{Dial, Dials};
use crate::links::Links;
use crate::names::Names;
use crate::parting::Parting;
use crate::sockets::Sockets;
use aprs_base::{Addr, Event, ListenSpec, Memory, Sent, UplinkSpec, Wire, WireError};
use mio::net::TcpStream;
use std::alloc::Global;
use std::net::{Net, Shutdown};
use std::sync::Wait;
use std::time::{Clock, Duration, SystemTime};

/// How many milliseconds are left of a second of which so many are over.
fn left_of_second(over: u32) -> u64
    ensures { result ≡ 1000 - over }
{
    1000u64.saturating_sub(u64::from(over))
}

/// A count of failed calls after one more answer that is no good. It stays at the greatest.
fn failed_with(error: WireError, failed: u64) -> u64
    ensures { result ≡ failed_with error failed }
{
    match error {
        WireError::Failed => failed.saturating_add(1),
        WireError::Memory => failed,
    }
}

/// The address of a dial for which none was found.
const NOWHERE: Addr = Addr {
    ip: [0; 4],
    port: 0,
};

/// The network of the system. It tells nothing of what happens but its counts: of failed calls, of links that a send found
/// gone, and of links that were made.
///
/// The tick of a new second comes once the sockets were asked twice since the last tick's second was over and all that they had is handed up: so
/// nothing that came is late by a pause of the process, not even what a link says that is let in only then. Beside it there is a tick of the last moment as soon as all that came is handed
/// up, where something was handed up since the last tick; one where 400 line ends or 48,000 bytes were handed up; and one where
/// a send took 65,536 bytes whole. Links that end come after all else that came; where many do, the sockets are asked again in
/// between, after a tick of the last moment. Listeners that couldn't open a link try again with the tick of a new second.
#[derive(Drop)]
pub struct MioWire<'a, R: Net + Clock> {
    rt: &'a R,
    alloc: Global,
    sockets: Option<Sockets>,
    links: Links<TcpStream>,
    /// The streams of links that were closed in this second and in the one before.
    parting: Parting<TcpStream>,
    dials: Dials,
    names: Names,
    course: Course,
    /// A second whose tick comes once all that the sockets had in it is handed up.
    ahead: Option<u64>,
    /// Whether the sockets were asked once in a new second: what was let in then is read after the second time.
    asked: bool,
    failed_listens: u64,
    failed_nexts: u64,
    gones: u64,
}

impl<'a, R: Net + Clock> MioWire<'a, R> {
    /// A wire that gives a stop once it has given so many ends of links, where a number is given. It takes no memory and
    /// opens nothing until it is called.
    pub fn new(rt: &'a R, alloc: Global, stop_after: Option<u32>) -> MioWire<'a, R>
        ensures counts { (result.failed_listens ≡ 0) × (result.failed_nexts ≡ 0) × (result.gones ≡ 0) × (result.links.made ≡ 0) }
        ensures opens { (result.sockets ≡ None) × (result.links.list.items ≡ []) × (result.dials.list.items ≡ []) }
        ensures course { result.course ≡ record { stop_after = stop_after; second = None; ended = 0; pace = rested } }
    {
        MioWire {
            rt,
            alloc,
            sockets: None,
            links: Links::new(alloc),
            parting: Parting::new(alloc),
            dials: Dials::new(alloc),
            names: Names::new(alloc),
            course: Course::new(stop_after),
            ahead: None,
            asked: false,
            failed_listens: 0,
            failed_nexts: 0,
            gones: 0,
        }
    }

    /// Counts a failed `next`, and hands the error on.
    fn refuse_next(&mut self, error: WireError) -> WireError
        ensures same { result ≡ error }
        ensures counted { self.new ≡ record self.old { failed_nexts = failed_with error self.old.failed_nexts } }
    {
        self.failed_nexts = failed_with(error, self.failed_nexts);
        error
    }

    /// The sockets, which are opened at the first call that needs them.
    #[tactic(auto, unfolding(crate::specs::Held::holding))]
    fn open_sockets(&mut self) -> Result<(), WireError>
        ensures there { OnOk result (is_some self.new.sockets ≡ true) }
        ensures kept { self.new ≡ record self.old { sockets = self.new.sockets } }
        ensures holding { holding self.new.sockets ≡ holding self.old.sockets }
    {
        if self.sockets.is_none() {
            self.sockets = Some(Sockets::open(self.rt, self.alloc)?);
        }
        Ok(())
    }

    /// How long ago 1970 was, or the moment of the last tick where the clock doesn't tell.
    fn clock(&self) -> Duration {
        SystemTime::now(self.rt)
            .ok()
            .and_then(|now| now.duration_since(SystemTime::UNIX_EPOCH).ok())
            .unwrap_or(Duration::from_secs(self.course.second.unwrap_or(0)))
    }

    /// The tick of another second than the last one's: listeners that failed to open a link try again, and streams of links that
    /// were closed before the last such tick are dropped.
    #[tactic(auto, unfolding(crate::specs::Held::IsServed, crate::specs::Held::MovesAt, crate::specs::Held::Retries, crate::specs::Held::holding))]
    fn move_on(&mut self, second: u64) -> Brief
        ensures event { result ≡ Tick second }
        ensures moves { (self.old.course.second ≢ None → IsServed self.old.sockets) → MovesAt self.old.course.second self.new.sockets result }
        ensures kept { self.new ≡ record self.old { sockets = self.new.sockets; parting = self.new.parting } }
        ensures parting { (self.new.parting.older.items ≡ self.old.parting.late.items) × (self.new.parting.late.items ≡ []) }
        ensures holding { holding self.new.sockets ≡ holding self.old.sockets }
    {
        self.parting.move_on();
        if let Some(sockets) = &mut self.sockets {
            sockets.retry();
        }
        Brief {
            head: Head::Tick(second),
        }
    }

    /// Listens, with sockets that are opened where they are not open.
    #[tactic(auto, unfolding(crate::specs::Held::holding))]
    fn listen_at(&mut self, n: u16, spec: &ListenSpec) -> Result<(), WireError>
        ensures ok { OnOk result (holding self.new.sockets ≡ record (holding self.old.sockets) { heard = listening_after spec.now.kind n (listening self.old.sockets) }) }
        ensures err { OnErr result (holding self.new.sockets ≡ holding self.old.sockets) }
        ensures kept { self.new ≡ record self.old { sockets = self.new.sockets } }
    {
        self.open_sockets()?;
        match &mut self.sockets {
            Some(sockets) => sockets.listen(self.rt, n, spec),
            None => Err(WireError::Failed),
        }
    }

    /// Whether something has come that is not handed up, or not looked at.
    #[tactic(auto, unfolding(crate::specs::Held::IsServed))]
    fn has_arrived(&self) -> bool
        ensures { result ≡ false → IsServed self.now.sockets }
    {
        match &self.sockets {
            Some(sockets) => sockets.has_bytes() || sockets.has_ready(),
            None => false,
        }
    }

    /// Whether links that end wait until the sockets are asked again.
    #[tactic(auto, unfolding(crate::specs::Held::holding, crate::specs::Held::is_to_ask))]
    fn is_to_ask(&self) -> bool
        ensures { result ≡ true → length (unread self.now.sockets).left ≡ 0 }
    {
        match &self.sockets {
            Some(sockets) => sockets.is_to_ask(),
            None => false,
        }
    }

    /// Whether a link has more than one read took: then not all that came is handed up.
    #[tactic(auto, unfolding(crate::specs::Held::reads_on))]
    fn reads_on(&self) -> bool
        ensures { result ≡ reads_on self.now.sockets }
    {
        match &self.sockets {
            Some(sockets) => sockets.reads_on(),
            None => false,
        }
    }

    /// The next thing to hand up of what has come: bytes that were read, or what a socket has.
    #[tactic(auto, unfolding(crate::specs::Arrivals::IsArrival, crate::specs::Held::holding, crate::specs::Unread::HandsUp))]
    fn arrived(&mut self) -> Result<Option<Event>, WireError>
        ensures step { StepsTo (seen self.old) (seen self.new) result }
        ensures arrival { IfOk result IsArrival }
        ensures bytes { IfOk result (HandsUp (unread self.old.sockets)) }
        ensures kept { self.new ≡ record self.old { sockets = self.new.sockets; links = self.new.links; dials = self.new.dials } }
    {
        let Some(sockets) = &mut self.sockets else {
            return Ok(None);
        };
        if let Some((link, bytes)) = sockets.take_chunk() {
            return Ok(Some(Event::Bytes(link, bytes)));
        }
        Ok(sockets.serve(&mut self.links, &mut self.dials)?)
    }

    /// What comes before anything that arrives: the first tick, a stop, a tick that is due at once, or the answer to a dead dial.
    #[tactic(auto, unfolding(crate::specs::Coming::ComesNext, crate::specs::Coming::StepGives, crate::specs::Held::MovesAt))]
    fn due(&mut self) -> Option<Brief>
        ensures step { IsStep (seen self.old) (seen self.new) result }
        ensures gives { IfSome result (λ e. StepGives self.old.course self.old.dials.list.items (unread self.old.sockets) (Some e)) }
        ensures moves { IfSome result (MovesAt self.old.course.second self.new.sockets) }
        ensures none { IfNone result (StepGives self.old.course self.old.dials.list.items nothing None × (self.new ≡ self.old)) }
        ensures holding { holding self.new.sockets ≡ holding self.old.sockets }
        ensures kept { self.new ≡ record self.old { sockets = self.new.sockets; parting = self.new.parting; dials = self.new.dials } }
    {
        let Some(second) = self.course.second else {
            return Some(self.move_on(self.clock().as_secs()));
        };
        if self.course.is_stopped() {
            return Some(Brief { head: Head::Stop });
        }
        if self.course.pace.is_full() {
            return Some(Brief {
                head: Head::Tick(second),
            });
        }
        let uplink = self.dials.give_up_dead(second)?;
        Some(Brief {
            head: Head::Unjoined(uplink),
        })
    }

    /// Gives the tick of a second in which the sockets were asked, and else rests.
    #[tactic(auto, unfolding(crate::specs::Coming::TicksAt))]
    fn rest(&mut self) -> Result<Option<Brief>, WireError>
        requires served { IsServed self.old.sockets }
        ensures ticks { IfOk result (TicksAt self.old.course) }
        ensures moves { IfOk result (λ o. IfSome o (MovesAt self.old.course.second self.new.sockets)) }
        ensures holding { holding self.new.sockets ≡ holding self.old.sockets }
        ensures kept { self.new ≡ record self.old { sockets = self.new.sockets; parting = self.new.parting; ahead = self.new.ahead; asked = self.new.asked } }
    {
        match self.ahead.take() {
            Some(second) if self.course.second != Some(second) => Ok(Some(self.move_on(second))),
            _ => self.idle(),
        }
    }

    /// Gives a tick that is due since all that came but ends is handed up, and else asks the sockets again before more links end.
    #[tactic(auto, unfolding(crate::specs::Coming::TicksAt, crate::specs::Held::MovesAt))]
    fn ask_again(&mut self) -> Result<Option<Brief>, WireError>
        ensures ticks { IfOk result (TicksAt self.old.course) }
        ensures moves { IfOk result (λ o. IfSome o (MovesAt self.old.course.second self.new.sockets)) }
        ensures holding { holding self.new.sockets ≡ holding self.old.sockets }
        ensures kept { self.new ≡ record self.old { sockets = self.new.sockets } }
    {
        if let Some(second) = self.course.second {
            if self.course.pace.is_due() && !self.reads_on() {
                return Ok(Some(Brief {
                    head: Head::Tick(second),
                }));
            }
        }
        self.poll(Duration::ZERO)?;
        Ok(None)
    }

    /// Asks the sockets in a new second, twice before its tick, gives a tick that is due since all that came is handed up, and else waits.
    /// Where the clock is set back between the two, the first doesn't count.
    #[tactic(auto, unfolding(crate::specs::Coming::TicksAt, crate::specs::Held::MovesAt))]
    fn idle(&mut self) -> Result<Option<Brief>, WireError>
        ensures once { OnOk result (self.old.asked ≡ true → self.new.asked ≡ false) }
        ensures ticks { IfOk result (TicksAt self.old.course) }
        ensures moves { IfOk result (λ o. IfSome o (MovesAt self.old.course.second self.new.sockets)) }
        ensures holding { holding self.new.sockets ≡ holding self.old.sockets }
        ensures kept { self.new ≡ record self.old { sockets = self.new.sockets; ahead = self.new.ahead; asked = self.new.asked } }
    {
        let now = self.clock();
        let second = now.as_secs();
        if self.course.second != Some(second) {
            self.poll(Duration::ZERO)?;
            self.ahead = self.asked.then_some(second);
            self.asked = !self.asked;
            return Ok(None);
        }
        self.asked = false;
        if self.course.pace.is_due() && !self.reads_on() {
            return Ok(Some(Brief {
                head: Head::Tick(second),
            }));
        }
        self.wait(now)?;
        Ok(None)
    }

    /// The next event, or none where it took a step towards it.
    fn step(&mut self) -> Result<Option<Event>, WireError>
        ensures step { StepsTo (seen self.old) (seen self.new) result }
        ensures gives { IfOk result (StepGives self.old.course self.old.dials.list.items (unread self.old.sockets)) }
        ensures moves { IfOk result (λ o. IfSome o (MovesAt self.old.course.second self.new.sockets)) }
        ensures kept { self.new ≡ record self.old { sockets = self.new.sockets; parting = self.new.parting; links = self.new.links; dials = self.new.dials; ahead = self.new.ahead; asked = self.new.asked } }
    {
        if let Some(brief) = self.due() {
            return Ok(Some(brief.event()));
        }
        if self.is_to_ask() {
            return whole(self.ask_again());
        }
        if self.has_arrived() {
            return self.arrived();
        }
        whole(self.rest())
    }

    /// Offers bytes to a link, which is let go where it is gone.
    #[tactic(auto, unfolding(crate::specs::Held::holding, crate::specs::Unread::IsHeld))]
    fn offer(&mut self, link: u32, bytes: &[u8]) -> Result<Sent, Memory>
        ensures there { IfOk result (TakesOf (numbers self.old.links.list.items) link) }
        ensures held { IsHeld (unread self.old.sockets) (numbers self.old.links.list.items) → IsHeld (unread self.new.sockets) (numbers self.new.links.list.items) }
        ensures part { IfOk result (IsOutcome bytes.now) }
        ensures holding { holding self.new.sockets ≡ record (holding self.old.sockets) { unread = unread_after result link (unread self.old.sockets) } }
        ensures links { OnOk result (numbers self.new.links.list.items ≡ after_sent result link (numbers self.old.links.list.items)) }
        ensures others { without link self.new.links.list.items ≡ without link self.old.links.list.items }
        ensures made { self.new.links.made ≡ self.old.links.made }
        ensures err { OnErr result (self.new.links.list.items ≡ self.old.links.list.items) }
        ensures kept { self.new ≡ record self.old { sockets = self.new.sockets; links = self.new.links } }
    {
        let Some(sockets) = &mut self.sockets else {
            self.links.let_go(link);
            return Ok(Sent::Gone);
        };
        Ok(sockets.send(&mut self.links, link, bytes)?)
    }

    /// The moment of the last tick, or of the clock before the first.
    fn moment(&self) -> u64
        ensures { IfSome self.now.course.second (λ second. result ≡ second) }
    {
        match self.course.second {
            Some(second) => second,
            None => self.clock().as_secs(),
        }
    }

    /// Begins a dial, which has failed where there is no address for it.
    fn begin(&mut self, uplink: u16, spec: &UplinkSpec) -> Result<Dial, Memory>
        ensures holding { holding self.new.sockets ≡ holding self.old.sockets }
        ensures named { IfOk result (λ d. d.uplink ≡ uplink) }
        ensures digits { (a : Ipv4Addr) → IsIpv4Text spec.now.host a → IfOk result (λ d. IsIn spec.now.host spec.now.port (Some d.at)) }
        ensures since { IfOk result (λ d. IfSome self.old.course.second (λ second. d.since ≡ second)) }
        ensures kept { self.new ≡ record self.old { sockets = self.new.sockets; dials = self.new.dials; names = self.new.names } }
        ensures dials { self.new.dials.list ≡ self.old.dials.list }
    {
        let since = self.moment();
        let token = self.dials.next_token();
        match self.names.next_address(self.rt, uplink, spec)? {
            Some(at) => Ok(Dial {
                uplink,
                at,
                since,
                token,
                stream: self.connect(at, token)?,
            }),
            None => Ok(Dial {
                uplink,
                at: NOWHERE,
                since,
                token,
                stream: None,
            }),
        }
    }

    /// Begins to connect. None where that fails at once.
    #[tactic(auto, unfolding(crate::specs::Held::holding))]
    fn connect(&mut self, at: Addr, token: usize) -> Result<Option<TcpStream>, Memory>
        ensures holding { holding self.new.sockets ≡ holding self.old.sockets }
        ensures kept { self.new ≡ record self.old { sockets = self.new.sockets } }
    {
        match self.open_sockets() {
            Ok(()) => {}
            Err(WireError::Memory) => return Err(Memory),
            Err(WireError::Failed) => return Ok(None),
        }
        match &self.sockets {
            Some(sockets) => Ok(sockets.connect(self.rt, at, token)),
            None => Ok(None),
        }
    }

    /// Takes the stream of a link, which is there no more, with what it brought.
    #[tactic(auto, unfolding(crate::specs::Held::holding, crate::specs::Unread::IsHeld))]
    fn take(&mut self, link: u32) -> Option<TcpStream>
        ensures held { IsHeld (unread self.old.sockets) (numbers self.old.links.list.items) → IsHeld (unread self.new.sockets) (numbers self.new.links.list.items) }
        ensures links { (self.new.links.list.items ≡ without link self.old.links.list.items) × (self.new.links.made ≡ self.old.links.made) }
        ensures holding { holding self.new.sockets ≡ record (holding self.old.sockets) { unread = forgotten link (unread self.old.sockets) } }
        ensures kept { self.new ≡ record self.old { sockets = self.new.sockets; links = self.new.links } }
    {
        match &mut self.sockets {
            Some(sockets) => sockets.take(&mut self.links, link),
            None => self.links.take(link),
        }
    }

    /// Ends the writing side of the stream of a link that is closed, and keeps the stream for a while.
    fn part(&mut self, stream: TcpStream)
        ensures kept { self.new ≡ record self.old { parting = self.new.parting } }
    {
        if stream.shutdown(Shutdown::Write).is_ok() {
            // Where memory is wanting, it is dropped.
            let _ = self.parting.keep(stream);
        }
    }

    /// Waits for the sockets, but not beyond the second that `now` is in.
    fn wait(&mut self, now: Duration) -> Result<(), WireError>
        requires { (is_due self.old.course.pace && not (reads_on self.old.sockets)) ≡ false }
        ensures kept { self.new ≡ record self.old { sockets = self.new.sockets } }
        ensures holding { holding self.new.sockets ≡ holding self.old.sockets }
    {
        self.poll(Duration::from_millis(left_of_second(now.subsec_millis())))
    }

    /// Asks the sockets, and waits for them so long at most.
    #[tactic(auto, unfolding(crate::specs::Held::holding))]
    fn poll(&mut self, most: Duration) -> Result<(), WireError>
        ensures kept { self.new ≡ record self.old { sockets = self.new.sockets } }
        ensures holding { holding self.new.sockets ≡ holding self.old.sockets }
    {
        match &mut self.sockets {
            Some(sockets) => sockets.wait(most),
            None => Ok(()),
        }
    }
}

impl<'a, R: Net + Clock + Wait> Wire for MioWire<'a, R> {
    ghost shown = { λ w. counts w.failed_listens w.failed_nexts w.gones w.links.made };

    /// Listens over TCP for links, and over UDP for what is submitted in datagrams and for a peer group.
    fn listen(&mut self, n: u16, spec: &ListenSpec) -> Result<(), WireError>
        ensures listen { AfterListen (counts self.old.failed_listens self.old.failed_nexts self.old.gones self.old.links.made) (counts self.new.failed_listens self.new.failed_nexts self.new.gones self.new.links.made) n spec.now result }
        ensures listening { OnOk result (listening self.new.sockets ≡ listening_after spec.now.kind n (listening self.old.sockets)) }
        ensures err { OnErr result (listening self.new.sockets ≡ listening self.old.sockets) }
        ensures unread { unread self.new.sockets ≡ unread self.old.sockets }
        ensures kept { self.new ≡ record self.old { sockets = self.new.sockets; failed_listens = self.new.failed_listens } }
    {
        match self.listen_at(n, spec) {
            Ok(()) => Ok(()),
            Err(error) => {
                self.failed_listens = failed_with(error, self.failed_listens);
                Err(error)
            }
        }
    }

    #[tactic(auto, unfolding(crate::specs::Arrivals::Steps, crate::specs::Coming::StepGives, crate::specs::Dialled::AnswersStep, crate::specs::Linked::TellsStep))]
    fn next(&mut self) -> Result<Event, WireError>
        ensures next { AfterNext (counts self.old.failed_listens self.old.failed_nexts self.old.gones self.old.links.made) (counts self.new.failed_listens self.new.failed_nexts self.new.gones self.new.links.made) result }
        ensures comes { IfOk result (ComesNext self.old.course self.old.dials.list.items (unread self.old.sockets)) }
        ensures tells { IsHeld (unread self.old.sockets) (numbers self.old.links.list.items) → IfOk result (TellsOfOne (numbers self.old.links.list.items)) }
        ensures held { IsHeld (unread self.old.sockets) (numbers self.old.links.list.items) → IfOk result (λ e. IsHeld (unread self.new.sockets) (numbers self.new.links.list.items)) }
        ensures rest { IfOk result (Leaves (unread self.old.sockets) (unread self.new.sockets) (unread self.old.sockets).left) }
        ensures names { IfOk result (NamesListener (listening self.old.sockets)) }
        ensures moves { IfOk result (MovesAt self.old.course.second self.new.sockets) }
        ensures listening { listening self.new.sockets ≡ listening self.old.sockets }
        ensures course { IfOk result (λ e. self.new.course ≡ after_event e self.old.course) }
        ensures links { IfOk result (λ e. numbers self.new.links.list.items ≡ numbers_after e (numbers self.old.links.list.items)) }
        ensures dials { IfOk result (λ e. Answers e self.old.dials.list.items self.new.dials.list.items) }
        ensures err { OnErr result ((self.new.course ≡ self.old.course) × (numbers self.new.links.list.items ≡ numbers self.old.links.list.items) × (self.new.dials.list.items ≡ self.old.dials.list.items)) }
        ensures unread { OnErr result (0 < length (unread self.old.sockets).left → unread self.new.sockets ≡ unread self.old.sockets) }
    {
        if let Err(error) = self.open_sockets() {
            return Err(self.refuse_next(error));
        }
        for _ in self.rt.forever() {
            match self.step() {
                Ok(Some(event)) => {
                    self.course.note(&event);
                    return Ok(event);
                }
                Ok(None) => {}
                Err(error) => return Err(self.refuse_next(error)),
            }
        }
        unreachable!()
    }

    fn send(&mut self, link: u32, bytes: &[u8]) -> Result<Sent, Memory>
        ensures send { AfterSend (counts self.old.failed_listens self.old.failed_nexts self.old.gones self.old.links.made) (counts self.new.failed_listens self.new.failed_nexts self.new.gones self.new.links.made) link bytes.now result }
        ensures there { IfOk result (TakesOf (numbers self.old.links.list.items) link) }
        ensures held { IsHeld (unread self.old.sockets) (numbers self.old.links.list.items) → IsHeld (unread self.new.sockets) (numbers self.new.links.list.items) }
        ensures unread { unread self.new.sockets ≡ unread_after result link (unread self.old.sockets) }
        ensures listening { listening self.new.sockets ≡ listening self.old.sockets }
        ensures course { self.new.course ≡ after_offer result self.old.course }
        ensures links { OnOk result (numbers self.new.links.list.items ≡ after_sent result link (numbers self.old.links.list.items)) }
        ensures others { without link self.new.links.list.items ≡ without link self.old.links.list.items }
        ensures err { OnErr result (self.new.links.list.items ≡ self.old.links.list.items) }
        ensures dials { self.new.dials ≡ self.old.dials }
    {
        let sent = self.offer(link, bytes)?;
        match sent {
            Sent::Took(count) => self.course.pace.note_taken(count),
            Sent::Gone => self.gones = self.gones.saturating_add(1),
        }
        Ok(sent)
    }

    /// Closes a link. What was sent to it reaches its peer also where more that it sent isn't read: only the writing side is ended
    /// at once, and the stream is dropped with the second tick of another second, or at once where 256 are kept so.
    fn close(&mut self, link: u32) -> Result<(), Memory>
        ensures close { AfterAct (counts self.old.failed_listens self.old.failed_nexts self.old.gones self.old.links.made) (counts self.new.failed_listens self.new.failed_nexts self.new.gones self.new.links.made) (with_closed link) result }
        ensures held { IsHeld (unread self.old.sockets) (numbers self.old.links.list.items) → IsHeld (unread self.new.sockets) (numbers self.new.links.list.items) }
        ensures links { (self.new.links.list.items ≡ without link self.old.links.list.items) × (self.new.links.made ≡ self.old.links.made) }
        ensures unread { unread self.new.sockets ≡ forgotten link (unread self.old.sockets) }
        ensures listening { listening self.new.sockets ≡ listening self.old.sockets }
        ensures kept { self.new ≡ record self.old { sockets = self.new.sockets; links = self.new.links; parting = self.new.parting } }
    {
        if let Some(stream) = self.take(link) {
            self.part(stream);
        }
        Ok(())
    }

    /// Begins to connect to an uplink's address, or to the next one of its name, which is looked up where none is left. A
    /// look-up waits, and the whole server with it. The answer comes from `next`: within 30 s, `Unjoined` where it isn't joined.
    fn dial(&mut self, uplink: u16, spec: &UplinkSpec) -> Result<(), Memory>
        ensures dial { AfterAct (counts self.old.failed_listens self.old.failed_nexts self.old.gones self.old.links.made) (counts self.new.failed_listens self.new.failed_nexts self.new.gones self.new.links.made) (with_dial uplink spec.now) result }
        ensures listening { listening self.new.sockets ≡ listening self.old.sockets }
        ensures begun { OnOk result (Begins uplink spec.now self.old.course.second self.old.dials.list.items self.new.dials.list.items) }
        ensures unread { unread self.new.sockets ≡ unread self.old.sockets }
        ensures err { OnErr result (self.new.dials.list.items ≡ self.old.dials.list.items) }
        ensures kept { self.new ≡ record self.old { sockets = self.new.sockets; dials = self.new.dials; names = self.new.names } }
    {
        let dial = self.begin(uplink, spec)?;
        self.dials.add(dial)?;
        Ok(())
    }

    /// Casts from the socket of the peer group's listener, or of the one with the greatest number; from 256 on, from that of the
    /// listener for datagrams with the greatest number. A lost datagram is no fault.
    fn cast(&mut self, peer: u16, to: Addr, bytes: &[u8]) -> Result<(), Memory>
        ensures cast { AfterAct (counts self.old.failed_listens self.old.failed_nexts self.old.gones self.old.links.made) (counts self.new.failed_listens self.new.failed_nexts self.new.gones self.new.links.made) (with_cast peer to bytes.now) result }
        ensures kept { self.new ≡ self.old }
    {
        if let Some(sockets) = &self.sockets {
            sockets.cast(peer, to, bytes);
        }
        Ok(())
    }
}
