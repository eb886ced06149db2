//! The array-based queueing lock of Anderson (1990).
//!
//! A thread that wants the lock draws the next ticket of a counter, as in the ticket lock, and then waits until the
//! flag of its own ticket is open. It leaves in two steps: it shuts its flag, and passes the lock on by opening the
//! next one. There are 64 flags, used in turn, and so at most 64 places.

ghost use Rattle.std.specs.Prelude.{◌≡◌, ◌%◌, ◌<◌, ◌≤◌, [], IfOk, IsOk, OnErr, OnOk};
ghost use Rattle.ticket_core.specs.ArrayLock.{array_phase_at, flag_at, serving_of};
ghost use Rattle.ticket_core.specs.ArraySteps.{array_after_all, array_answer, array_answers, new_array_lock};

use cwr_field::Memory;
use std::alloc::{Allocator, Global};
use std::marker::Model;

/// The number of flags, and the most places that a lock can have.
const FLAGS: usize = 64;

/// Where a place of an [`ArrayLock`] stands.
#[derive(Clone, Copy, Debug, PartialEq, Eq)]
pub enum ArrayPhase {
    /// It has no ticket.
    Away,
    /// It has drawn this ticket, and has not yet read that the ticket's flag is open.
    Waiting(u64),
    /// It has read that the flag of this ticket, its own, is open.
    Inside(u64),
    /// It has shut the flag of this ticket, and has not yet opened the next one. Until then it
    /// counts as inside: at most one place is inside or leaving.
    Leaving(u64),
}

/// What a place of an [`ArrayLock`] does. Places are numbered from 0.
#[derive(Clone, Copy, Debug, PartialEq, Eq)]
pub enum ArrayEvent {
    /// The place draws a ticket. It acts on a place that is away.
    Draw(usize),
    /// The place looks at the flag of its ticket. It acts on a place that waits.
    Look(usize),
    /// The place shuts the flag of its ticket. It acts on a place that is inside.
    Shut(usize),
    /// The place opens the flag of the next ticket. It acts on a place that is leaving.
    Pass(usize),
}

/// How an [`ArrayLock`] answers an [`ArrayEvent`].
#[derive(Clone, Copy, Debug, PartialEq, Eq)]
pub enum ArrayOutcome {
    /// The place drew this ticket, and waits from now on.
    Drew {
        /// The ticket: as many were drawn before it.
        ticket: u64,
    },
    /// The flag of the place's ticket is shut, so it waits on.
    Waits,
    /// The flag of the place's ticket is open, and it is inside from now on.
    Enters {
        /// The place's ticket: as many places entered before it.
        ticket: u64,
    },
    /// The flag of the place's ticket is shut, and the place is leaving from now on.
    Shuts,
    /// The flag of the next ticket is open, and the place is away from now on.
    Passes,
    /// The event was not one for the place's phase, there is no such place, or no ticket is left
    /// to draw. Nothing changed.
    Nothing,
}

/// The array-based queueing lock of Anderson (1990), as a state machine.
///
/// Contracts see a lock as its state: the ticket that is drawn next, the 64 flags, and the phase of each place. The
/// flag of ticket `t` is number `t` modulo 64.
///
/// The state is always lawful. Once each leaving place is read as inside, it is a lawful state of the ticket lock.
/// While no place is leaving, only the served ticket's flag is open; while one is, no flag is.
#[derive(Clone, Drop)]
#[derive_where(Debug)]
pub struct ArrayLock<A: Allocator = Global> {
    next: u64,
    flags: [bool; FLAGS],
    phases: Vec<ArrayPhase, A>,
}

impl<A: Allocator> Model for ArrayLock<A> {
    ghost use Rattle.ticket_core.specs.ArrayLock.{ArrayState, IsLawfulArrayState};

    ghost Value = { ArrayState };

    ghost view = { λ l. record { next = l.next; flags = l.flags; phases = l.phases.items } };

    ghost invariant = { λ l. IsLawfulArrayState (record { next = l.next; flags = l.flags; phases = l.phases.items }) };
}

impl<A: Allocator> ArrayLock<A> {
    /// A lock with this many places, at most 64. All of them are away, ticket 0 is next to draw, and only flag 0 is
    /// open.
    ///
    /// It fails where there is no memory for the places. No places need none.
    pub fn new(alloc: A, places: usize) -> Result<ArrayLock<A>, Memory>
        requires { places ≤ 64 }
        ensures made { IfOk result (λ lock. lock ≡ new_array_lock places) }
        ensures succeeds { places ≡ 0 → IsOk result }
    {
        let mut phases = Vec::with_capacity(alloc, places)?;
        for _ in 0..places {
            phases.push_reserved(ArrayPhase::Away);
        }
        let mut flags = [false; FLAGS];
        flags[0] = true;
        Ok(ArrayLock {
            next: 0,
            flags,
            phases,
        })
    }

    /// The ticket that is drawn next, which is the number of tickets drawn so far.
    pub fn next(&self) -> u64
        ensures { result ≡ self.now.next }
    {
        self.next
    }

    /// The ticket that is served: the next one less the number of tickets that are out. That is also the number of
    /// places that have passed so far.
    pub fn serving(&self) -> u64
        ensures { result ≡ serving_of self.now.next self.now.phases }
    {
        let out = self
            .phases
            .iter()
            .filter(|phase| **phase != ArrayPhase::Away)
            .count();
        self.next - out as u64
    }

    /// The phase of a place; `Away` where there is no such place.
    pub fn phase(&self, place: usize) -> ArrayPhase
        ensures { result ≡ array_phase_at self.now.phases place }
    {
        self.phases.get(place).copied().unwrap_or(ArrayPhase::Away)
    }

    /// Whether a flag, numbered from 0, is open.
    pub fn flag(&self, i: usize) -> bool
        requires { i < 64 }
        ensures { result ≡ flag_at self.now.flags i }
    {
        self.flags[i]
    }

    /// Does one event, and returns its outcome.
    ///
    /// A draw acts on a place that is away, a look on one that waits, a shut on one that is inside, and a pass on one
    /// that is leaving. Any other event returns `Nothing` and changes nothing. So does an event of a place that is not
    /// there, and a draw where the next ticket is the greatest `u64`.
    pub fn step(&mut self, event: ArrayEvent) -> ArrayOutcome
        ensures state { self.new ≡ (array_answer self.old event).0 }
        ensures outcome { result ≡ (array_answer self.old event).1 }
    {
        match event {
            ArrayEvent::Draw(place) => self.draw(place),
            ArrayEvent::Look(place) => self.look(place),
            ArrayEvent::Shut(place) => self.shut(place),
            ArrayEvent::Pass(place) => self.pass(place),
        }
    }

    /// Does the events in turn, each as [`ArrayLock::step`] does it, and lists their outcomes.
    ///
    /// Memory for the outcomes is asked for first. Where that is refused, no event is done.
    pub fn run(&mut self, events: &[ArrayEvent]) -> Result<Vec<ArrayOutcome, A>, Memory>
    where
        A: Copy,
        ensures state { OnOk result (self.new ≡ array_after_all self.old events.now) }
        ensures outcomes { IfOk result (λ outcomes. outcomes.items ≡ array_answers self.old events.now) }

        // An empty run needs no memory, and a refusal changes nothing.
        ensures succeeds { events.now ≡ [] → IsOk result }
        ensures refused { OnErr result (self.new ≡ self.old) }
    {
        let mut outcomes = Vec::with_capacity(*self.phases.allocator(), events.len())?;
        for event in events {
            outcomes.push_reserved(self.step(*event));
        }
        Ok(outcomes)
    }

    fn draw(&mut self, place: usize) -> ArrayOutcome
        ensures state { self.new ≡ (array_answer self.old (ArrayEvent.Draw place)).0 }
        ensures outcome { result ≡ (array_answer self.old (ArrayEvent.Draw place)).1 }
    {
        if place >= self.phases.len() || self.next == u64::MAX {
            return ArrayOutcome::Nothing;
        }
        match self.phases[place] {
            ArrayPhase::Away => {
                let ticket = self.next;
                self.phases[place] = ArrayPhase::Waiting(ticket);
                self.next = ticket + 1;
                ArrayOutcome::Drew { ticket }
            }
            _ => ArrayOutcome::Nothing,
        }
    }

    fn look(&mut self, place: usize) -> ArrayOutcome
        ensures state { self.new ≡ (array_answer self.old (ArrayEvent.Look place)).0 }
        ensures outcome { result ≡ (array_answer self.old (ArrayEvent.Look place)).1 }
    {
        match self.phase(place) {
            ArrayPhase::Waiting(ticket) => {
                if !self.flags[flag_of(ticket)] {
                    return ArrayOutcome::Waits;
                }
                self.phases[place] = ArrayPhase::Inside(ticket);
                ArrayOutcome::Enters { ticket }
            }
            _ => ArrayOutcome::Nothing,
        }
    }

    fn shut(&mut self, place: usize) -> ArrayOutcome
        ensures state { self.new ≡ (array_answer self.old (ArrayEvent.Shut place)).0 }
        ensures outcome { result ≡ (array_answer self.old (ArrayEvent.Shut place)).1 }
    {
        match self.phase(place) {
            ArrayPhase::Inside(ticket) => {
                self.flags[flag_of(ticket)] = false;
                self.phases[place] = ArrayPhase::Leaving(ticket);
                ArrayOutcome::Shuts
            }
            _ => ArrayOutcome::Nothing,
        }
    }

    fn pass(&mut self, place: usize) -> ArrayOutcome
        ensures state { self.new ≡ (array_answer self.old (ArrayEvent.Pass place)).0 }
        ensures outcome { result ≡ (array_answer self.old (ArrayEvent.Pass place)).1 }
    {
        match self.phase(place) {
            ArrayPhase::Leaving(ticket) => {
                self.flags[flag_of(ticket + 1)] = true;
                self.phases[place] = ArrayPhase::Away;
                ArrayOutcome::Passes
            }
            _ => ArrayOutcome::Nothing,
        }
    }
}

/// The flag of a ticket.
fn flag_of(ticket: u64) -> usize
    ensures { result ≡ ticket % 64 }
{
    (ticket % FLAGS as u64) as usize
}
