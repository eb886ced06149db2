//! A desk that is opened on a book with entries.

use crate::desks::{Answer, TwoCalls, call, expect_new, hand_in_two, two_calls};
use registry_desk::{Book, Call, Desk, Reply};
use std::alloc::Global;
use std::process::Abort;
use std::sync::Wait;
use std::test::Fail;

/// Hands a call in at the opening.
fn open_with(book: &mut Book, call: Call) -> Result<(), Fail> {
    book.apply(0, call).ok().ok_or("no memory")?;
    Ok(())
}

/// Hands both calls of the opening in.
fn open_with_two(alloc: Global, book: &mut Book) -> Result<(), Fail> {
    open_with(book, call(alloc, b'O', 1)?)?;
    open_with(book, call(alloc, b'O', 2)?)
}

/// A book of two entries of the opening.
fn opened_book(alloc: Global) -> Result<Book, Fail> {
    let mut book = Book::new(alloc, 10);
    open_with_two(alloc, &mut book)?;
    Ok(book)
}

/// A call for the second work of the opening, and then one for a new work.
fn expect_known_and_new(rt: &impl Abort, answers: (Answer, Answer)) {
    let (known, fresh) = answers;
    assert!(rt; known.ok() == Some(Reply::Duplicate { work: 2 }));
    assert!(rt; fresh.is_ok());
}

/// The book after a call for a work of its opening and one for a new work, handed in by the one seat of a desk. `rt`
/// waits, and ends the test if a call is refused. `alloc` allocates, and the desk is opened with `book`.
fn gone_on<R: Wait + Abort>(rt: &R, alloc: Global, book: Book, calls: TwoCalls) -> Book {
    assert!(rt; book.is_opening());
    let (desk, mut opening) = match Desk::open(alloc, book, 2) {
        Ok(opened) => opened,
        Err(_refused) => panic!(rt; "no memory"),
    };
    let seat = desk.split(&mut opening);
    let (seat, answers) = hand_in_two(rt, &desk, seat, calls);
    expect_known_and_new(rt, answers);
    desk.meet(&mut opening, seat);
    desk.close(opening)
}

/// The works of the opening, the known one, and the new one, which is numbered on.
fn expect_four(rt: &impl Abort, book: &Book) {
    let [first, second, known, fresh] = book.history() else {
        panic!(rt; "not four entries")
    };
    let sessions = [
        first.session(),
        second.session(),
        known.session(),
        fresh.session(),
    ];
    assert_eq!(rt; sessions, [0, 0, 1, 1]);
    expect_new(rt, 1, first, b'O', 1);
    expect_new(rt, 2, second, b'O', 2);
    expect_new(rt, 3, fresh, b'A', 1);
}

/// Opens a desk on a book with entries, after which that must hold.
fn expect_gone_on<R: Wait + Abort>(rt: &R, alloc: Global) -> Result<(), Fail> {
    let calls = two_calls(alloc, (b'O', 2), (b'A', 1))?;
    let book = gone_on(rt, alloc, opened_book(alloc)?, calls);
    expect_four(rt, &book);
    Ok(())
}

/// A desk that is opened on a book with entries: a work of the opening is known, and works are numbered on.
#[test]
fn book_with_entries(rt: HostRuntime) -> Result<(), Fail> {
    for _ in 0..100 {
        expect_gone_on(&rt, rt.alloc())?;
    }
    Ok(())
}
