//! The ticket lock of the pure core: new ones, and runs.

use failing_alloc::{Ended, FailingAlloc, Sweep, answered, refuse_each, refused};
use std::test::Fail;
use test_comparisons::{same, same_lists};
use ticket_core::{Event, Lock, Outcome, Phase};

type FailingAllocLock<'m> = Lock<&'m FailingAlloc>;

/// A lock of two places, both away, must have this next ticket, which is also the served one.
fn stands(lock: &FailingAllocLock, ticket: u64) -> Result<(), Fail> {
    same("tickets", &[lock.next(), lock.serving()], &[ticket; 2])?;
    same("phases", &[lock.phase(0), lock.phase(1)], &[Phase::Away; 2])
}

struct NewLock;

impl Sweep for NewLock {
    fn ends(&self, memory: &FailingAlloc) -> Ended {
        match Lock::new(memory, 2) {
            Ok(lock) => answered(stands(&lock, 0)),
            Err(_) => Ok(true),
        }
    }
}

/// Both places draw, enter and leave, with events between that do nothing.
const EVENTS: [Event; 10] = [
    Event::Draw(0),
    Event::Draw(1),
    Event::Look(1),
    Event::Look(0),
    Event::Draw(0),
    Event::Leave(1),
    Event::Leave(0),
    Event::Look(1),
    Event::Leave(1),
    Event::Look(5),
];

/// The outcome that each of them must have.
const OUTCOMES: [Outcome; 10] = [
    Outcome::Drew { ticket: 0 },
    Outcome::Drew { ticket: 1 },
    Outcome::Waits,
    Outcome::Enters { ticket: 0 },
    Outcome::Nothing,
    Outcome::Nothing,
    Outcome::Leaves,
    Outcome::Enters { ticket: 1 },
    Outcome::Leaves,
    Outcome::Nothing,
];

/// What the run must have answered, and how it must have left the lock.
fn has_run(lock: &FailingAllocLock, outcomes: &[Outcome]) -> Result<(), Fail> {
    same_lists("outcomes", outcomes, &OUTCOMES)?;
    stands(lock, 2)
}

struct Run;

impl Sweep for Run {
    fn ends(&self, memory: &FailingAlloc) -> Ended {
        let Ok(mut lock) = Lock::new(memory, 2) else {
            return Ok(true);
        };
        match lock.run(&EVENTS) {
            Ok(outcomes) => answered(has_run(&lock, &outcomes)),
            Err(_) => refused(stands(&lock, 0)),
        }
    }
}

#[test]
fn ticket_locks(rt: HostRuntime) -> Result<(), Fail> {
    refuse_each(rt.alloc(), &NewLock)?;
    refuse_each(rt.alloc(), &Run)
}
