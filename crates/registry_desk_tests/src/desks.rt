//! Calls of new works, a desk, and the turns of its seats.

ghost use Rattle.std.specs.Prelude.{◌≡◌, ◌≢◌, ◌+◌, ◌<◌, ◌≤◌, [], true, IfOk};
ghost use Rattle.registry_desk.specs.Views.{max_turns, opening_view};

use registry_desk::{Book, Call, Desk, Entry, Inside, Looked, Refused, Reply, Seat, Waiting};
use std::alloc::Global;
use std::process::Abort;
use std::sync::Wait;
use std::test::Fail;
use work_registry::{Faults, WorkKind};

/// A registration of a new work under a letter and a number of four digits, without ISWC, control and faults.
pub(crate) fn new_work(alloc: Global, letter: u8, number: u16) -> Option<Call> {
    let title = *b"SONG ONE                                                    ";
    let faults = Faults::new(Vec::new(alloc));
    let key = key(letter, number);
    Call::of(
        *b"PB000000123",
        WorkKind::Nwr,
        title,
        key,
        None,
        [0; 3],
        faults,
    )
}

/// The same, on one thread.
pub(crate) fn call(alloc: Global, letter: u8, number: u16) -> Result<Call, Fail> {
    Ok(new_work(alloc, letter, number).ok_or("no call")?)
}

/// The submitter's number of the work of such a call.
pub(crate) fn key(letter: u8, number: u16) -> [u8; 14] {
    let mut key = *b"A0000         ";
    if letter > b'A' && letter <= b'Z' {
        key[0] = letter;
    }
    key[1] = digit(number / 1000);
    key[2] = digit(number / 100);
    key[3] = digit(number / 10);
    key[4] = digit(number);
    key
}

fn digit(number: u16) -> u8 {
    b'0' + (number % 10) as u8
}

/// A desk for these seats with an empty book.
pub(crate) fn open(alloc: Global, limit: u32, seats: u32) -> Result<(Desk, Seat), Fail>
    requires limit { (1 ≤ limit) × (limit ≤ 99999999) }
    requires seats { (1 ≤ seats) × (seats ≤ 64) }
    ensures { IfOk result (λ r. r.1 ≡ record { desk = r.0; view = opening_view (record { history = []; limit = limit }) seats }) }
{
    let opened = Desk::open(alloc, Book::new(alloc, limit), seats).ok();
    Ok(opened.ok_or("no memory")?)
}

/// The answer to a call.
pub(crate) type Answer = Result<Reply, Refused>;

/// Two calls that are handed in one after the other.
#[derive(Drop)]
pub(crate) struct TwoCalls {
    first: Call,
    second: Call,
}

/// The calls for two works, of each of which a letter and a number are given.
pub(crate) fn two_calls(
    alloc: Global,
    first: (u8, u16),
    second: (u8, u16),
) -> Result<TwoCalls, Fail> {
    let first = call(alloc, first.0, first.1)?;
    let second = call(alloc, second.0, second.1)?;
    Ok(TwoCalls { first, second })
}

/// Hands two calls in, and returns both answers. `rt` waits, and `seat` is one of `desk`.
pub(crate) fn hand_in_two(
    rt: &impl Wait,
    desk: &Desk,
    seat: Seat,
    calls: TwoCalls,
) -> (Seat, (Answer, Answer))
    requires desk { seat.desk ≡ desk.now }
    requires session { seat.view.session ≢ 0 }
    requires turns { seat.view.turns + 1 < max_turns }
    ensures desk { result.0.desk ≡ desk.now }
    ensures turns { result.0.view.turns ≡ seat.view.turns + 2 }
{
    let TwoCalls { first, second } = calls;
    let (seat, one) = desk.hand_in(rt, seat, first);
    let (seat, other) = desk.hand_in(rt, seat, second);
    (seat, (one, other))
}

/// The turn of a seat that waits, which must have come.
pub(crate) fn let_in(rt: &impl Abort, desk: &Desk, waiting: Waiting) -> Inside
    requires desk { waiting.desk ≡ desk.now }
    ensures desk { result.desk ≡ desk.now }
    ensures session { result.view.session ≡ waiting.view.session }
    ensures unused { result.unused ≡ true }
{
    match desk.look(waiting) {
        Looked::Yours(inside) => inside,
        Looked::NotYet(_waiting) => panic!(rt; "it is the seat's turn"),
    }
}

/// The turn of a seat that waits, which must not have come.
pub(crate) fn not_yet(rt: &impl Abort, desk: &Desk, waiting: Waiting) -> Waiting
    requires desk { waiting.desk ≡ desk.now }
    ensures desk { result.desk ≡ desk.now }
    ensures session { result.view.session ≡ waiting.view.session }
{
    match desk.look(waiting) {
        Looked::Yours(_inside) => panic!(rt; "another seat is inside"),
        Looked::NotYet(still) => still,
    }
}

/// An entry must be a new claim to work `k`, accepted for the first time. `rt` ends the test if it is not. `k` is the
/// registry's number of the work, from 1, and `entry` is looked at. `letter` and `number` are those of the call.
pub(crate) fn expect_new(rt: &impl Abort, k: usize, entry: &Entry, letter: u8, number: u16) {
    let Reply::Accepted { work, version } = entry.reply() else {
        panic!(rt; "not accepted")
    };
    assert_eq!(rt; (work as usize, version), (k, 1));
    assert_eq!(rt; entry.call().number(), key(letter, number));
}

/// A book with this number of entries.
pub(crate) fn expect_entries(rt: &impl Abort, book: &Book, entries: usize) {
    assert_eq!(rt; book.len(), entries);
}
