//! Seats that take turns on one thread.

ghost use Rattle.std.specs.Prelude.{◌≡◌, ◌≢◌, ◌<◌};
ghost use Rattle.registry_desk.specs.Views.{max_turns};

use crate::desks::{
    Answer, TwoCalls, call, expect_entries, hand_in_two, key, let_in, not_yet, open, two_calls,
};
use registry_desk::{Call, Desk, HandInError, Reply, Seat};
use std::alloc::Global;
use std::process::Abort;
use std::sync::Wait;
use std::test::Fail;

/// The seats 1 and 2 of a desk take a turn each: the second waits until the first has left. `rt` ends the test if a
/// turn comes too soon, or does not come.
fn turns_of_two(rt: &impl Abort, desk: &Desk, one: Seat, two: Seat) -> (Seat, Seat)
    requires one { (one.desk ≡ desk.now) × (one.view.turns < max_turns) }
    requires two { (two.desk ≡ desk.now) × (two.view.turns < max_turns) }
    ensures one { result.0.desk ≡ desk.now }
    ensures two { result.1.desk ≡ desk.now }
{
    assert_eq!(rt; (one.session(), two.session()), (1, 2));
    let inside = let_in(rt, desk, desk.draw(one));
    let waiting = not_yet(rt, desk, desk.draw(two));
    let waiting = not_yet(rt, desk, waiting);
    let one = inside.leave(desk);
    let two = let_in(rt, desk, waiting).leave(desk);
    (one, two)
}

/// Two seats in turn.
fn two_in_turn(rt: &impl Abort, alloc: Global) -> Result<(), Fail> {
    let (desk, mut opening) = open(alloc, 10, 3)?;
    let one = desk.split(&mut opening);
    let two = desk.split(&mut opening);
    let (one, two) = turns_of_two(rt, &desk, one, two);
    desk.meet(&mut opening, one);
    desk.meet(&mut opening, two);
    expect_entries(rt, &desk.close(opening), 0);
    Ok(())
}

#[test]
fn second_waits_for_the_first(rt: HostRuntime) -> Result<(), Fail> {
    for _ in 0..100 {
        two_in_turn(&rt, rt.alloc())?;
    }
    Ok(())
}

/// The answer to the first call for the first work.
fn expect_first(rt: &impl Abort, answer: Answer) {
    let Ok(reply) = answer else {
        panic!(rt; "there is room for one")
    };
    let first = Reply::Accepted {
        work: 1,
        version: 1,
    };
    assert_eq!(rt; reply, first);
}

/// The call for a number comes back from a full book.
fn expect_full(rt: &impl Abort, answer: Answer, number: [u8; 14]) {
    let Err(refused) = answer else {
        panic!(rt; "there is room for one alone")
    };
    assert_eq!(rt; refused.why, HandInError::Full);
    assert_eq!(rt; refused.call.number(), number);
}

/// The first of two calls is the one entry of the book, and the second comes back.
fn expect_first_alone(rt: &impl Abort, answers: (Answer, Answer)) {
    let (first, second) = answers;
    expect_first(rt, first);
    expect_full(rt, second, key(b'A', 2));
}

/// Hands in two calls, of which the second comes back. The seat still gets in. `rt` waits, and ends the test if it does
/// not get in, and `seat` is one of `desk`.
fn hand_in_at_full<R: Wait + Abort>(rt: &R, desk: &Desk, seat: Seat, calls: TwoCalls) -> Seat
    requires desk { seat.desk ≡ desk.now }
    requires session { seat.view.session ≢ 0 }
    requires turns { seat.view.turns ≡ 0 }
    ensures { result.desk ≡ desk.now }
{
    let (seat, answers) = hand_in_two(rt, desk, seat, calls);
    expect_first_alone(rt, answers);
    let seat = let_in(rt, desk, desk.draw(seat)).leave(desk);
    assert_eq!(rt; seat.turns_left(), 4294967292);
    seat
}

/// A book of one entry: the second call comes back, and the seat still gets in.
fn one_entry_alone<R: Wait + Abort>(rt: &R, alloc: Global) -> Result<(), Fail> {
    let calls = two_calls(alloc, (b'A', 1), (b'A', 2))?;
    let (desk, mut opening) = open(alloc, 1, 2)?;
    let seat = desk.split(&mut opening);
    let seat = hand_in_at_full(rt, &desk, seat, calls);
    desk.meet(&mut opening, seat);
    expect_entries(rt, &desk.close(opening), 1);
    Ok(())
}

#[test]
fn full_book(rt: HostRuntime) -> Result<(), Fail> {
    for _ in 0..100 {
        one_entry_alone(&rt, rt.alloc())?;
    }
    Ok(())
}

/// A turn of a seat with a call for the first work, whose answer is the turn's one answer. `rt` ends the test if it is
/// not, and `seat` is one of `desk`.
fn turn_with(rt: &impl Abort, desk: &Desk, seat: Seat, call: Call) -> Seat
    requires desk { seat.desk ≡ desk.now }
    requires session { seat.view.session ≢ 0 }
    requires turns { seat.view.turns < max_turns }
    ensures { result.desk ≡ desk.now }
{
    let mut inside = let_in(rt, desk, desk.draw(seat));
    assert!(rt; inside.unused());
    expect_first(rt, inside.apply(call));
    assert!(rt; !inside.unused());
    inside.leave(desk)
}

/// A turn with one answer.
#[test]
fn one_answer_a_turn(rt: HostRuntime) -> Result<(), Fail> {
    let call = call(rt.alloc(), b'A', 1)?;
    let (desk, mut opening) = open(rt.alloc(), 10, 2)?;
    let seat = desk.split(&mut opening);
    let seat = turn_with(&rt, &desk, seat, call);
    desk.meet(&mut opening, seat);
    expect_entries(&rt, &desk.close(opening), 1);
    Ok(())
}
