//! The ticket lock of Mellor-Crummey and Scott (1991).
//!
//! A thread that wants the lock draws the next ticket of a counter, and waits until a second counter serves that
//! ticket. It moves the second counter on when it leaves. So places enter in the order in which they drew.

ghost use Rattle.std.specs.Prelude.{◌≡◌, [], IfOk, IsOk, OnErr, OnOk};
ghost use Rattle.ticket_core.specs.TicketLock.{phase_at};
ghost use Rattle.ticket_core.specs.TicketSteps.{after_all, answer, answers, new_lock};

use cwr_field::Memory;
use std::alloc::{Allocator, Global};
use std::marker::Model;

/// Where a place of a [`Lock`] stands.
#[derive(Clone, Copy, Debug, PartialEq, Eq)]
pub enum Phase {
    /// It has no ticket.
    Away,
    /// It has drawn this ticket, and has not yet read that the ticket is served.
    Waiting(u64),
    /// It has read that this ticket, its own, is served. At most one place is inside.
    Inside(u64),
}

/// What a place of a [`Lock`] does. Places are numbered from 0.
#[derive(Clone, Copy, Debug, PartialEq, Eq)]
pub enum Event {
    /// The place draws a ticket. It acts on a place that is away.
    Draw(usize),
    /// The place looks at the served ticket. It acts on a place that waits.
    Look(usize),
    /// The place serves the next ticket. It acts on a place that is inside.
    Leave(usize),
}

/// How a [`Lock`] answers an [`Event`].
#[derive(Clone, Copy, Debug, PartialEq, Eq)]
pub enum Outcome {
    /// The place drew this ticket, and waits from now on.
    Drew {
        /// The ticket: as many were drawn before it.
        ticket: u64,
    },
    /// Another ticket than the place's own is served, so it waits on.
    Waits,
    /// The place's own ticket is served, and it is inside from now on.
    Enters {
        /// The place's ticket: as many places entered before it.
        ticket: u64,
    },
    /// The place is away from now on, and the next ticket is served.
    Leaves,
    /// The event was not one for the place's phase, there is no such place, or no ticket is left
    /// to draw. Nothing changed.
    Nothing,
}

/// The ticket lock of Mellor-Crummey and Scott (1991), as a state machine.
///
/// Contracts see a lock as its state: the ticket that is drawn next, the ticket that is served, and the phase of each
/// place. That state is always lawful: the tickets that are out are distinct, and they are the numbers from the served
/// ticket up to, but not including, the next one. The ticket of a place that is inside is the served one.
#[derive(Clone, Drop)]
#[derive_where(Debug)]
pub struct Lock<A: Allocator = Global> {
    next: u64,
    serving: u64,
    phases: Vec<Phase, A>,
}

impl<A: Allocator> Model for Lock<A> {
    ghost use Rattle.ticket_core.specs.TicketLock.{IsLawful, LockState};

    ghost Value = { LockState };

    ghost view = { λ l. record { next = l.next; serving = l.serving; phases = l.phases.items } };

    ghost invariant = { λ l. IsLawful (record { next = l.next; serving = l.serving; phases = l.phases.items }) };
}

impl<A: Allocator> Lock<A> {
    /// A lock with this many places, all of them away. It serves ticket 0, and ticket 0 is next to draw.
    ///
    /// It fails where there is no memory for the places. No places need none.
    pub fn new(alloc: A, places: usize) -> Result<Lock<A>, Memory>
        ensures made { IfOk result (λ lock. lock ≡ new_lock places) }
        ensures succeeds { places ≡ 0 → IsOk result }
    {
        let mut phases = Vec::with_capacity(alloc, places)?;
        for _ in 0..places {
            phases.push_reserved(Phase::Away);
        }
        Ok(Lock {
            next: 0,
            serving: 0,
            phases,
        })
    }

    /// The ticket that is drawn next, which is the number of tickets drawn so far.
    pub fn next(&self) -> u64
        ensures { result ≡ self.now.next }
    {
        self.next
    }

    /// The ticket that is served, which is the number of places that have left so far.
    pub fn serving(&self) -> u64
        ensures { result ≡ self.now.serving }
    {
        self.serving
    }

    /// The phase of a place; `Away` where there is no such place.
    pub fn phase(&self, place: usize) -> Phase
        ensures { result ≡ phase_at self.now.phases place }
    {
        self.phases.get(place).copied().unwrap_or(Phase::Away)
    }

    /// Does one event, and returns its outcome.
    ///
    /// A draw acts on a place that is away, a look on one that waits, and a leave on one that is inside. Any other
    /// event returns `Nothing` and changes nothing. So does an event of a place that is not there, and a draw where the
    /// next ticket is the greatest `u64`.
    pub fn step(&mut self, event: Event) -> Outcome
        ensures state { self.new ≡ (answer self.old event).0 }
        ensures outcome { result ≡ (answer self.old event).1 }
    {
        match event {
            Event::Draw(place) => self.draw(place),
            Event::Look(place) => self.look(place),
            Event::Leave(place) => self.leave(place),
        }
    }

    /// Does the events in turn, each as [`Lock::step`] does it, and lists their outcomes.
    ///
    /// Memory for the outcomes is asked for first. Where that is refused, no event is done.
    pub fn run(&mut self, events: &[Event]) -> Result<Vec<Outcome, A>, Memory>
    where
        A: Copy,
        ensures state { OnOk result (self.new ≡ after_all self.old events.now) }
        ensures outcomes { IfOk result (λ outcomes. outcomes.items ≡ answers self.old events.now) }

        // An empty run needs no memory, and a refusal changes nothing.
        ensures succeeds { events.now ≡ [] → IsOk result }
        ensures refused { OnErr result (self.new ≡ self.old) }
    {
        let mut outcomes = Vec::with_capacity(*self.phases.allocator(), events.len())?;
        for event in events {
            outcomes.push_reserved(self.step(*event));
        }
        Ok(outcomes)
    }

    fn draw(&mut self, place: usize) -> Outcome
        ensures state { self.new ≡ (answer self.old (Event.Draw place)).0 }
        ensures outcome { result ≡ (answer self.old (Event.Draw place)).1 }
    {
        if place >= self.phases.len() || self.next == u64::MAX {
            return Outcome::Nothing;
        }
        match self.phases[place] {
            Phase::Away => {
                let ticket = self.next;
                self.phases[place] = Phase::Waiting(ticket);
                self.next = ticket + 1;
                Outcome::Drew { ticket }
            }
            _ => Outcome::Nothing,
        }
    }

    fn look(&mut self, place: usize) -> Outcome
        ensures state { self.new ≡ (answer self.old (Event.Look place)).0 }
        ensures outcome { result ≡ (answer self.old (Event.Look place)).1 }
    {
        match self.phase(place) {
            Phase::Waiting(ticket) if ticket == self.serving => {
                self.phases[place] = Phase::Inside(ticket);
                Outcome::Enters { ticket }
            }
            Phase::Waiting(_) => Outcome::Waits,
            _ => Outcome::Nothing,
        }
    }

    fn leave(&mut self, place: usize) -> Outcome
        ensures state { self.new ≡ (answer self.old (Event.Leave place)).0 }
        ensures outcome { result ≡ (answer self.old (Event.Leave place)).1 }
    {
        match self.phase(place) {
            Phase::Inside(_) => {
                self.phases[place] = Phase::Away;
                self.serving += 1;
                Outcome::Leaves
            }
            _ => Outcome::Nothing,
        }
    }
}
