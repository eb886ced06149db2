//! The pure lock, event by event.

use std::test::Fail;
use test_comparisons::same;
use ticket_core::{ArrayEvent, ArrayLock, ArrayOutcome, ArrayPhase, Event, Lock, Outcome, Phase};

/// Of the 64 flags this one alone must be open; 64 stands for none.
fn expect_open_alone(lock: &ArrayLock, open: usize) -> Result<(), Fail> {
    for place in 0..64 {
        same("a flag", &lock.flag(place), &(place == open))?;
    }
    Ok(())
}

/// These events must have these outcomes.
fn expect_outcomes(lock: &mut Lock, events: &[Event], wanted: &[Outcome]) -> Result<(), Fail> {
    let outcomes = lock.run(events)?;
    same("the outcomes", &outcomes.as_slice(), &wanted)
}

/// The same by flags.
fn expect_array_outcomes(
    lock: &mut ArrayLock,
    events: &[ArrayEvent],
    wanted: &[ArrayOutcome],
) -> Result<(), Fail> {
    let outcomes = lock.run(events)?;
    same("the outcomes", &outcomes.as_slice(), &wanted)
}

fn expect_turns(lock: &mut Lock) -> Result<(), Fail> {
    let events = [
        Event::Draw(0),
        Event::Draw(1),
        Event::Look(1),
        Event::Look(0),
        Event::Draw(0),
        Event::Leave(1),
        Event::Leave(0),
        Event::Look(1),
        Event::Leave(1),
        Event::Look(5),
    ];
    let wanted = [
        Outcome::Drew { ticket: 0 },
        Outcome::Drew { ticket: 1 },
        Outcome::Waits,
        Outcome::Enters { ticket: 0 },
        Outcome::Nothing,
        Outcome::Nothing,
        Outcome::Leaves,
        Outcome::Enters { ticket: 1 },
        Outcome::Leaves,
        Outcome::Nothing,
    ];
    expect_outcomes(lock, &events, &wanted)?;
    same("the tickets", &(lock.next(), lock.serving()), &(2, 2))
}

#[test]
fn two_places_take_turns(rt: HostRuntime) -> Result<(), Fail> {
    let mut lock = Lock::new(rt.alloc(), 2)?;
    expect_turns(&mut lock)
}

fn expect_phases(lock: &mut Lock) -> Result<(), Fail> {
    same("the first phase", &lock.phase(0), &Phase::Away)?;
    for (event, outcome, phase, serving) in [
        (
            Event::Draw(0),
            Outcome::Drew { ticket: 0 },
            Phase::Waiting(0),
            0,
        ),
        (
            Event::Look(0),
            Outcome::Enters { ticket: 0 },
            Phase::Inside(0),
            0,
        ),
        (Event::Leave(0), Outcome::Leaves, Phase::Away, 1),
    ] {
        same("the outcome", &lock.step(event), &outcome)?;
        same("the phase", &lock.phase(0), &phase)?;
        same("the ticket that is served", &lock.serving(), &serving)?;
    }
    Ok(())
}

#[test]
fn phases_follow_the_events(rt: HostRuntime) -> Result<(), Fail> {
    let mut lock = Lock::new(rt.alloc(), 1)?;
    expect_phases(&mut lock)
}

fn expect_nothing(lock: &mut Lock) -> Result<(), Fail> {
    let events = [Event::Draw(0), Event::Look(0), Event::Leave(0)];
    expect_outcomes(lock, &events, &[Outcome::Nothing; 3])?;
    same("the phase", &lock.phase(0), &Phase::Away)?;
    same("the tickets", &(lock.next(), lock.serving()), &(0, 0))
}

#[test]
fn a_lock_of_no_places_answers_nothing(rt: HostRuntime) -> Result<(), Fail> {
    let mut lock = Lock::new(rt.alloc(), 0)?;
    expect_nothing(&mut lock)
}

/// Places that a lock of one place does not have.
const NOT_THERE: [usize; 3] = [1, 64, usize::MAX];

fn expect_away(lock: &mut Lock) -> Result<(), Fail> {
    let drew = Outcome::Drew { ticket: 0 };
    same("the outcome", &lock.step(Event::Draw(0)), &drew)?;
    for place in NOT_THERE {
        same("the phase", &lock.phase(place), &Phase::Away)?;
    }
    Ok(())
}

fn expect_array_away(lock: &mut ArrayLock) -> Result<(), Fail> {
    let drew = ArrayOutcome::Drew { ticket: 0 };
    same("by flags", &lock.step(ArrayEvent::Draw(0)), &drew)?;
    for place in NOT_THERE {
        same("by flags", &lock.phase(place), &ArrayPhase::Away)?;
    }
    Ok(())
}

#[test]
fn a_place_that_is_not_there_is_away(rt: HostRuntime) -> Result<(), Fail> {
    expect_away(&mut Lock::new(rt.alloc(), 1)?)?;
    expect_array_away(&mut ArrayLock::new(rt.alloc(), 1)?)
}

/// The place that waits enters, of a clone.
fn expect_entered(other: &mut Lock) -> Result<(), Fail> {
    let enters = Outcome::Enters { ticket: 0 };
    same("the clone's", &other.step(Event::Look(0)), &enters)?;
    same("its phase", &other.phase(0), &Phase::Inside(0))
}

fn expect_own_way(lock: &mut Lock) -> Result<(), Fail> {
    let drew = Outcome::Drew { ticket: 0 };
    same("the outcome", &lock.step(Event::Draw(0)), &drew)?;
    expect_entered(&mut lock.clone()?)?;
    same("the phase", &lock.phase(0), &Phase::Waiting(0))
}

#[test]
fn a_clone_goes_its_own_way(rt: HostRuntime) -> Result<(), Fail> {
    let mut lock = Lock::new(rt.alloc(), 1)?;
    expect_own_way(&mut lock)
}

fn expect_array_turns(lock: &mut ArrayLock) -> Result<(), Fail> {
    let events = [
        ArrayEvent::Draw(0),
        ArrayEvent::Draw(1),
        ArrayEvent::Look(1),
        ArrayEvent::Look(0),
        ArrayEvent::Shut(0),
        ArrayEvent::Look(1),
        ArrayEvent::Pass(0),
        ArrayEvent::Look(1),
        ArrayEvent::Shut(1),
        ArrayEvent::Pass(1),
    ];
    let wanted = [
        ArrayOutcome::Drew { ticket: 0 },
        ArrayOutcome::Drew { ticket: 1 },
        ArrayOutcome::Waits,
        ArrayOutcome::Enters { ticket: 0 },
        ArrayOutcome::Shuts,
        ArrayOutcome::Waits,
        ArrayOutcome::Passes,
        ArrayOutcome::Enters { ticket: 1 },
        ArrayOutcome::Shuts,
        ArrayOutcome::Passes,
    ];
    expect_array_outcomes(lock, &events, &wanted)?;
    same("the tickets", &(lock.next(), lock.serving()), &(2, 2))?;
    expect_open_alone(lock, 2)
}

#[test]
fn two_places_take_turns_by_flags(rt: HostRuntime) -> Result<(), Fail> {
    let mut lock = ArrayLock::new(rt.alloc(), 2)?;
    expect_array_turns(&mut lock)
}

/// The phases of a place, up to the one in which it leaves.
fn expect_array_phases(lock: &mut ArrayLock) -> Result<(), Fail> {
    expect_open_alone(lock, 0)?;
    for (event, outcome, phase) in [
        (
            ArrayEvent::Draw(0),
            ArrayOutcome::Drew { ticket: 0 },
            ArrayPhase::Waiting(0),
        ),
        (
            ArrayEvent::Look(0),
            ArrayOutcome::Enters { ticket: 0 },
            ArrayPhase::Inside(0),
        ),
        (
            ArrayEvent::Pass(0),
            ArrayOutcome::Nothing,
            ArrayPhase::Inside(0),
        ),
        (
            ArrayEvent::Shut(0),
            ArrayOutcome::Shuts,
            ArrayPhase::Leaving(0),
        ),
    ] {
        same("the outcome", &lock.step(event), &outcome)?;
        same("the phase", &lock.phase(0), &phase)?;
        same("the ticket that is served", &lock.serving(), &0)?;
    }
    Ok(())
}

/// The place passes, which opens the second flag alone.
fn expect_passed(what: &str, lock: &mut ArrayLock) -> Result<(), Fail> {
    let passes = ArrayOutcome::Passes;
    same(what, &lock.step(ArrayEvent::Pass(0)), &passes)?;
    expect_open_alone(lock, 1)
}

/// It passes, after that of a clone, which opens no flag of the lock itself.
fn expect_last_phase(lock: &mut ArrayLock) -> Result<(), Fail> {
    expect_passed("the clone's", &mut lock.clone()?)?;
    expect_open_alone(lock, 64)?;
    expect_passed("the outcome", lock)?;
    same("the last phase", &lock.phase(0), &ArrayPhase::Away)?;
    same("the ticket that is served", &lock.serving(), &1)
}

#[test]
fn array_phases_follow_the_events(rt: HostRuntime) -> Result<(), Fail> {
    let mut lock = ArrayLock::new(rt.alloc(), 1)?;
    expect_array_phases(&mut lock)?;
    expect_last_phase(&mut lock)
}

/// A turn of the first place, from its draw to its pass.
const TURN: [ArrayEvent; 4] = [
    ArrayEvent::Draw(0),
    ArrayEvent::Look(0),
    ArrayEvent::Shut(0),
    ArrayEvent::Pass(0),
];

fn expect_array_nothing(lock: &mut ArrayLock) -> Result<(), Fail> {
    expect_array_outcomes(lock, &TURN, &[ArrayOutcome::Nothing; 4])?;
    same("the phase", &lock.phase(0), &ArrayPhase::Away)?;
    same("the tickets", &(lock.next(), lock.serving()), &(0, 0))?;
    expect_open_alone(lock, 0)
}

#[test]
fn an_array_lock_of_no_places_answers_nothing(rt: HostRuntime) -> Result<(), Fail> {
    let mut lock = ArrayLock::new(rt.alloc(), 0)?;
    expect_array_nothing(&mut lock)
}

/// A turn with this ticket.
fn expect_turn(lock: &mut ArrayLock, ticket: u64) -> Result<(), Fail> {
    let wanted = [
        ArrayOutcome::Drew { ticket },
        ArrayOutcome::Enters { ticket },
        ArrayOutcome::Shuts,
        ArrayOutcome::Passes,
    ];
    let outcomes = lock.run(&TURN)?;
    same("a turn", &outcomes.as_slice(), &wanted.as_slice())
}

fn expect_64_turns(lock: &mut ArrayLock) -> Result<(), Fail> {
    for ticket in 0..64 {
        expect_turn(lock, ticket)?;
    }
    expect_open_alone(lock, 0)?;
    same("the ticket that is served", &lock.serving(), &64)?;
    let drew = ArrayOutcome::Drew { ticket: 64 };
    let enters = ArrayOutcome::Enters { ticket: 64 };
    same("the next turn", &lock.step(ArrayEvent::Draw(0)), &drew)?;
    same("its look", &lock.step(ArrayEvent::Look(0)), &enters)
}

#[test]
fn after_64_turns_the_first_flag_is_open_again(rt: HostRuntime) -> Result<(), Fail> {
    let mut lock = ArrayLock::new(rt.alloc(), 1)?;
    expect_64_turns(&mut lock)
}
