//! What comes to one link.
ghost use Rattle.std.specs.Prelude.{◌≡◌, ◌++◌, ℕ, [], IfOk, IsTrue, List, None, OnErr, OnOk, Some, filter, length, map};
ghost use Rattle.std.specs.Arc.{arc_value};
ghost use Rattle.aprs_base.specs.Bytes.{is_station};
ghost use Rattle.aprs_base.specs.Cuts.{cuts_by};
ghost use Rattle.aprs_base.specs.Held.{held_after};
ghost use Rattle.served_links.specs.Links.{Rises, held_at, numbers, starts_line_at};
ghost use Rattle.served_links.specs.Changes.{at_link, when_gone, with_bytes, with_filter, with_room, with_session, with_text};
ghost use Rattle.served_links.specs.Halves.{IsEmptied};

use super::Served;
use crate::link::Down;
use crate::links::{place_here, place_of};
use aprs_base::{Cut, Line, Memory, copy_call};
use aprs_history::Session;
use filter_eval::{Friends, Seen};
use filter_lang::FilterSet;
use std::alloc::Global;
use std::sync::Arc;

impl Served {
    /// The link has room again.
    pub fn give_room(&mut self, number: u32)
        ensures { self.new ≡ record self.old { links = map (at_link number with_room) self.old.links } }
    {
        self.sessions.give_room(number);
    }

    /// A send found the link gone.
    pub fn lose(&mut self, number: u32)
        ensures { self.new ≡ record self.old { links = map (at_link number when_gone) self.old.links } }
    {
        self.sessions.lose(number);
    }

    /// The link of that number brought bytes: what they cut. `Memory` changes nothing.
    pub fn bring(
        &mut self,
        alloc: Global,
        number: u32,
        moment: u64,
        bytes: &[u8],
    ) -> Result<Vec<Cut>, Memory>
        ensures rises { (high : ℕ) → Rises 0 (numbers self.old.links) high → Rises 0 (numbers self.new.links) high }
        ensures links { (before : List ℕ) → held_at number self.old.links ≡ Some (held_after before)
            → OnOk result (self.new ≡ record self.old { links = map (at_link number (with_bytes moment (held_after (before ++ bytes.now)))) self.old.links }) }
        ensures cuts { (before : List ℕ) → held_at number self.old.links ≡ Some (held_after before) → IfOk result (λ cuts. cuts.items ≡ cuts_by before bytes.now) }
        ensures nowhere { held_at number self.old.links ≡ None → IfOk result (λ cuts. (cuts.items ≡ []) × (self.new ≡ self.old)) }
        ensures err { OnErr result (self.new ≡ self.old) }
    {
        self.sessions.bring(alloc, number, moment, bytes)
    }

    /// Whether the link of that number has taken each line wholly that it has begun to take. After `Memory` no link is left.
    pub fn is_at_line_start(&mut self, number: u32) -> Result<bool, Memory>
        ensures rises { (high : ℕ) → Rises 0 (numbers self.old.links) high → Rises 0 (numbers self.new.links) high }
        ensures links { OnOk result (self.new ≡ record self.old { waiting = 0 }) }
        ensures value { IfOk result (λ starts. starts ≡ starts_line_at number self.old.links) }
        ensures err { OnErr result (IsEmptied self.old self.new) }
    {
        self.settle_alone()?;
        Ok(self.starts_line(number))
    }

    /// Whether the link of that number has taken each line wholly that it has begun to take, where all that came is matched.
    fn starts_line(&self, number: u32) -> bool
        requires { self.now.waiting ≡ 0 }
        ensures { result ≡ starts_line_at number self.now.links }
    {
        match place_here(self.sessions.as_slice(), number) {
            Some(place) => self.feeds.at_line_start(place),
            None => true,
        }
    }

    /// The link of that number has logged in, may have become a downlink, and is told so. Its login was last seen there. After
    /// `Memory` no link is left.
    pub fn log_in(
        &mut self,
        number: u32,
        session: Session,
        down: Option<Down>,
        mine: Option<Seen>,
        reply: Arc<Line>,
    ) -> Result<(), Memory>
        requires { IsTrue (is_station session.call) }
        ensures ok { OnOk result (self.new ≡ record self.old { links = map (at_link number (with_session session down mine (arc_value reply))) self.old.links; waiting = 0 }) }
        ensures err { OnErr result (IsEmptied self.old self.new) }
    {
        self.settle_alone()?;
        match self.begin_session(number, session, down, mine, reply) {
            Ok(()) => Ok(()),
            Err(memory) => {
                self.give_up();
                Err(memory)
            }
        }
    }

    /// The link of that number has logged in, where all that came is matched. `Memory` changes nothing.
    fn begin_session(
        &mut self,
        number: u32,
        session: Session,
        down: Option<Down>,
        mine: Option<Seen>,
        reply: Arc<Line>,
    ) -> Result<(), Memory>
        requires station { IsTrue (is_station session.call) }
        requires settled { self.old.waiting ≡ 0 }
        ensures ok { OnOk result (self.new ≡ record self.old { links = map (at_link number (with_session session down mine (arc_value reply))) self.old.links }) }
        ensures err { OnErr result (self.new ≡ self.old) }
    {
        let call = copy_call(&session.call);
        match place_of(self.sessions.as_slice(), number) {
            Some(place) => {
                let feed = self.sessions.log_in(place, session, down)?;
                self.feeds.log_in(place, feed, call, mine, reply);
                Ok(())
            }
            None => Ok(()),
        }
    }

    /// The link of that number has another filter, and is told so. The calls of its terms were last seen there. After `Memory` no
    /// link is left.
    pub fn set_filter(
        &mut self,
        number: u32,
        filter: Arc<FilterSet>,
        friends: Friends,
        reply: Arc<Line>,
    ) -> Result<(), Memory>
        requires { length friends ≡ length (arc_value filter) }
        ensures ok { OnOk result (self.new ≡ record self.old { links = map (at_link number (with_filter (arc_value filter) friends (arc_value reply))) self.old.links; waiting = 0 }) }
        ensures err { OnErr result (IsEmptied self.old self.new) }
    {
        self.settle_alone()?;
        self.put_filter(number, filter, friends, reply);
        Ok(())
    }

    /// The link of that number has another filter, where all that came is matched.
    fn put_filter(
        &mut self,
        number: u32,
        filter: Arc<FilterSet>,
        friends: Friends,
        reply: Arc<Line>,
    )
        requires many { length friends ≡ length (arc_value filter) }
        requires settled { self.old.waiting ≡ 0 }
        ensures { self.new ≡ record self.old { links = map (at_link number (with_filter (arc_value filter) friends (arc_value reply))) self.old.links } }
    {
        match place_of(self.sessions.as_slice(), number) {
            Some(place) => {
                self.feeds.set_filter(place, filter, friends, reply);
            }
            None => {}
        }
    }

    /// A line for the link of that number. After `Memory` no link is left.
    pub fn reply(&mut self, number: u32, line: Arc<Line>) -> Result<(), Memory>
        ensures ok { OnOk result (self.new ≡ record self.old { links = map (at_link number (with_text (arc_value line))) self.old.links; waiting = 0 }) }
        ensures err { OnErr result (IsEmptied self.old self.new) }
    {
        self.settle_alone()?;
        self.tell(number, line);
        Ok(())
    }

    /// A line for the link of that number, where all that came is matched.
    fn tell(&mut self, number: u32, line: Arc<Line>)
        requires { self.old.waiting ≡ 0 }
        ensures { self.new ≡ record self.old { links = map (at_link number (with_text (arc_value line))) self.old.links } }
    {
        match place_of(self.sessions.as_slice(), number) {
            Some(place) => {
                self.feeds.tell(place, line);
            }
            None => {}
        }
    }
}
