//! How seats are numbered and counted.

use crate::desks::{expect_entries, open};
use registry_desk::Seat;
use std::process::Abort;
use std::test::Fail;

/// A seat that has taken no turn yet.
fn expect_unused(rt: &impl Abort, seat: &Seat, session: u32) {
    assert_eq!(rt; (seat.session(), seat.turns_left()), (session, 4294967295));
}

/// The number of seats that the opening seat can still give, has given and has met.
fn expect_counts(rt: &impl Abort, opening: &Seat, counts: (u32, u32, u32)) {
    assert_eq!(rt;
        (opening.seats_left(), opening.given(), opening.met()),
        counts
    );
}

/// The opening seat and the two seats that it has given, of which none has taken a turn.
fn expect_given(rt: &impl Abort, opening: &Seat, one: &Seat, two: &Seat) {
    expect_unused(rt, one, 1);
    expect_unused(rt, two, 2);
    assert_eq!(rt; two.seats_left(), 0);
    expect_counts(rt, opening, (0, 2, 0));
}

/// The opening seat, which can give two seats.
fn expect_opening(rt: &impl Abort, opening: &Seat) {
    expect_unused(rt, opening, 0);
    expect_counts(rt, opening, (2, 0, 0));
}

/// The numbers of the opening seat and of the seats that it gives.
#[test]
fn numbers_of_seats(rt: HostRuntime) -> Result<(), Fail> {
    let (desk, mut opening) = open(rt.alloc(), 1, 3)?;
    expect_opening(&rt, &opening);
    let one = desk.split(&mut opening);
    let two = desk.split(&mut opening);
    expect_given(&rt, &opening, &one, &two);
    desk.meet(&mut opening, two);
    expect_counts(&rt, &opening, (0, 2, 1));
    desk.meet(&mut opening, one);
    expect_counts(&rt, &opening, (0, 2, 2));
    expect_entries(&rt, &desk.close(opening), 0);
    Ok(())
}

/// A desk for one seat alone.
#[test]
fn one_seat(rt: HostRuntime) -> Result<(), Fail> {
    let (desk, opening) = open(rt.alloc(), 7, 1)?;
    assert_eq!(rt; opening.seats_left(), 0);
    assert_eq!(rt; desk.close(opening).limit(), 7);
    Ok(())
}
