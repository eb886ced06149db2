//! Seats on threads of their own.

ghost use Rattle.std.specs.Prelude.{◌≡◌, ◌≢◌, ◌+◌, ◌<◌, ◌≤◌};
ghost use Rattle.std.specs.Thread.{IsSync};
ghost use Rattle.registry_desk.specs.Views.{max_turns};

use crate::desks::{expect_new, new_work, open};
use registry_desk::{Book, Desk, Seat};
use std::alloc::Global;
use std::process::Abort;
use std::sync::Wait;
use std::test::Fail;
use std::thread::{Threads, join};

/// Hands in calls for new works under a letter, up to one that cannot be allocated. A refused call is dropped. `rt`
/// waits, `alloc` allocates, and `seat` is one of `desk`. `letter` is that of the works, which are numbered from
/// `first` on, and `count` is the number of calls.
fn hand_in_all(
    rt: &impl Wait,
    alloc: Global,
    desk: &Desk,
    seat: Seat,
    letter: u8,
    first: u16,
    count: u16,
) -> Seat
    requires desk { seat.desk ≡ desk.now }
    requires session { seat.view.session ≢ 0 }
    requires turns { seat.view.turns + count < max_turns }
    requires numbers { first + count < 10000 }
    ensures desk { result.desk ≡ desk.now }
    ensures session { result.view.session ≡ seat.view.session }
{
    let mut seat = seat;
    for k in 0..count {
        let Some(call) = new_work(alloc, letter, first + k) else {
            return seat;
        };
        let (next, _answer) = desk.hand_in(rt, seat, call);
        seat = next;
    }
    seat
}

/// Session 1 hands in A0000 to A0099, session 2 B0000 to B0099, each on a thread of its own.
fn two_workers<R: Threads + Wait + Sync>(rt: &R, alloc: Global) -> Result<Book, Fail> {
    let (desk, mut opening) = open(alloc, 1000, 3)?;
    let one = desk.split(&mut opening);
    let two = desk.split(&mut opening);
    let lent = &desk;
    let (one, two) = join(
        rt,
        move || -> Seat
            requires { (one.desk ≡ lent.now) × (one.view.session ≢ 0) × (one.view.turns ≡ 0) }
            ensures { (result.desk ≡ lent.entry.now) × (result.view.session ≡ one.view.session) }
        { hand_in_all(rt, alloc, lent, one, b'A', 0, 100) },
        move || -> Seat
            requires { (two.desk ≡ lent.now) × (two.view.session ≢ 0) × (two.view.turns ≡ 0) }
            ensures { (result.desk ≡ lent.entry.now) × (result.view.session ≡ two.view.session) }
        { hand_in_all(rt, alloc, lent, two, b'B', 0, 100) },
    );
    desk.meet(&mut opening, one);
    desk.meet(&mut opening, two);
    Ok(desk.close(opening))
}

/// All are accepted as works 1 to 200, and each session's calls stand in its own order.
fn expect_two_hundred(rt: &impl Abort, book: &Book) {
    let history = book.history();
    assert_eq!(rt; history.len(), 200);
    let mut a: u16 = 0;
    let mut b: u16 = 0;
    let mut work: usize = 0;
    for entry in history {
        work = work.saturating_add(1);
        if entry.session() == 1 {
            expect_new(rt, work, entry, b'A', a);
            a = a.saturating_add(1);
        } else {
            assert_eq!(rt; entry.session(), 2);
            expect_new(rt, work, entry, b'B', b);
            b = b.saturating_add(1);
        }
    }
    assert_eq!(rt; (a, b), (100, 100));
}

#[test]
fn two_threads(rt: HostRuntime) -> Result<(), Fail> {
    for _ in 0..50 {
        let book = two_workers(&rt, rt.alloc())?;
        expect_two_hundred(&rt, &book);
    }
    Ok(())
}

/// Every seat that is left, each on a thread of its own with four calls, all at once.
fn all_seats<R: Threads + Wait + Sync>(rt: &R, alloc: Global, desk: &Desk, opening: Seat) -> Seat
    requires desk { opening.desk ≡ desk.now }
    requires opening { opening.view.session ≡ 0 }
    ensures desk { result.desk ≡ desk.now }
    ensures opening { result.view.session ≡ 0 }
{
    if opening.seats_left() == 0 {
        return opening;
    }
    let mut opening = opening;
    let seat = desk.split(&mut opening);
    let first = seat.session() as u16 * 10;
    let (seat, opening) = join(
        rt,
        move || -> Seat
            requires { (seat.desk ≡ desk.now) × (seat.view.session ≢ 0) × (seat.view.turns ≡ 0) × (first ≤ 640) }
            ensures { result.desk ≡ desk.entry.now }
        { hand_in_all(rt, alloc, desk, seat, b'S', first, 4) },
        move || -> Seat
            requires { IsSync R.row × (opening.desk ≡ desk.now) × (opening.view.session ≡ 0) }
            ensures { (result.desk ≡ desk.entry.now) × (result.view.session ≡ 0) }
        { all_seats(rt, alloc, desk, opening) },
    );
    let mut opening = opening;
    desk.meet(&mut opening, seat);
    opening
}

/// Four entries of each of the sessions 1 to 63, in each session's order.
fn expect_each_session(rt: &impl Abort, book: &Book) {
    let history = book.history();
    assert_eq!(rt; history.len(), 252);
    for session in 1..64u16 {
        let mut number: u16 = session * 10;
        let mut work: usize = 0;
        for entry in history {
            work = work.saturating_add(1);
            if entry.session() == session as u32 {
                expect_new(rt, work, entry, b'S', number);
                number = number.saturating_add(1);
            }
        }
        assert_eq!(rt; number, session * 10 + 4);
    }
}

#[test]
fn sixty_four_seats(rt: HostRuntime) -> Result<(), Fail> {
    for _ in 0..50 {
        let (desk, opening) = open(rt.alloc(), 1000, 64)?;
        let opening = all_seats(&rt, rt.alloc(), &desk, opening);
        assert_eq!(rt; (opening.given(), opening.met()), (63, 63));
        let book = desk.close(opening);
        expect_each_session(&rt, &book);
    }
    Ok(())
}
