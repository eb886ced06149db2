//! The array lock of the pure core: new ones, and runs.

use failing_alloc::{Ended, FailingAlloc, Sweep, answered, refuse_each, refused};
use std::test::Fail;
use test_comparisons::{same, same_lists};
use ticket_core::{ArrayEvent, ArrayLock, ArrayOutcome, ArrayPhase};

type FailingAllocLock<'m> = ArrayLock<&'m FailingAlloc>;

/// A lock of two places must have these values: the next ticket and the served one, the first two flags, and both
/// places' phases.
fn stands(
    lock: &FailingAllocLock,
    tickets: (u64, u64),
    flags: [bool; 2],
    phases: [ArrayPhase; 2],
) -> Result<(), Fail> {
    same("tickets", &(lock.next(), lock.serving()), &tickets)?;
    same("flags", &[lock.flag(0), lock.flag(1)], &flags)?;
    for flag in 2..64 {
        same("another flag", &lock.flag(flag), &false)?;
    }
    same("phases", &[lock.phase(0), lock.phase(1)], &phases)
}

/// The lock must be as it was made.
fn is_new(lock: &FailingAllocLock) -> Result<(), Fail> {
    stands(lock, (0, 0), [true, false], [ArrayPhase::Away; 2])
}

struct NewLock;

impl Sweep for NewLock {
    fn ends(&self, memory: &FailingAlloc) -> Ended {
        match ArrayLock::new(memory, 2) {
            Ok(lock) => answered(is_new(&lock)),
            Err(_) => Ok(true),
        }
    }
}

/// Both places draw, the first one enters, and closes its flag.
struct Run;

impl Sweep for Run {
    fn ends(&self, memory: &FailingAlloc) -> Ended {
        let Ok(mut lock) = ArrayLock::new(memory, 2) else {
            return Ok(true);
        };
        let events = [
            ArrayEvent::Draw(0),
            ArrayEvent::Draw(1),
            ArrayEvent::Look(0),
            ArrayEvent::Shut(0),
        ];
        match lock.run(&events) {
            Ok(outcomes) => answered(has_run(&lock, &outcomes)),
            Err(_) => refused(is_new(&lock)),
        }
    }
}

/// What that run must have answered, and how it must have left the lock.
fn has_run(lock: &FailingAllocLock, outcomes: &[ArrayOutcome]) -> Result<(), Fail> {
    same_lists(
        "outcomes",
        outcomes,
        &[
            ArrayOutcome::Drew { ticket: 0 },
            ArrayOutcome::Drew { ticket: 1 },
            ArrayOutcome::Enters { ticket: 0 },
            ArrayOutcome::Shuts,
        ],
    )?;
    let phases = [ArrayPhase::Leaving(0), ArrayPhase::Waiting(1)];
    stands(lock, (2, 0), [false, false], phases)
}

#[test]
fn array_locks(rt: HostRuntime) -> Result<(), Fail> {
    refuse_each(rt.alloc(), &NewLock)?;
    refuse_each(rt.alloc(), &Run)
}
