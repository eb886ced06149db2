//! Calls to a book.

use crate::at_book::{AtBook, BookFirst, Made};
use failing_alloc::{Ended, FailingAlloc, answered, refuse_each, refused};
use std::test::Fail;
use test_books::{CALLS, call, gives_back, holds, reply_to};
use test_comparisons::same;
use work_registry::{Book, Call, Refused};

/// Hands in the call with this number, which may be refused. The book is then as it was, and takes the call once there
/// is memory. Returns whether it was refused.
fn apply_at_last<'m>(
    memory: &'m FailingAlloc,
    book: &mut Book<&'m FailingAlloc>,
    number: u16,
) -> Ended {
    match book.apply(1, call(memory, number)?) {
        Ok(reply) => answered(same("reply", &reply, &reply_to(number))),
        Err(back) => {
            is_as_it_was(book, &back, number)?;
            refused(apply_again(book, back.call, number))
        }
    }
}

/// The call with this number must be given back, and the book be as it was.
fn is_as_it_was<'m>(
    book: &Book<&'m FailingAlloc>,
    back: &Refused<&'m FailingAlloc>,
    number: u16,
) -> Result<(), Fail> {
    same("given back", &gives_back(back, number), &true)?;
    expect_book(book, number.saturating_sub(1))
}

/// Hands that call in once more, which must then be taken.
fn apply_again<'m>(
    book: &mut Book<&'m FailingAlloc>,
    call: Call<&'m FailingAlloc>,
    number: u16,
) -> Result<(), Fail> {
    let reply = book.apply(1, call).ok().ok_or("refused again")?;
    same("reply once there is memory", &reply, &reply_to(number))
}

/// The book must hold the first `count` calls, all of session 1.
fn expect_book(book: &Book<&FailingAlloc>, count: u16) -> Result<(), Fail> {
    holds(book, 0, count)
}

/// Hands all calls in to this book, which must hold those so far after each. Returns whether one was refused.
fn apply_all<'m>(memory: &'m FailingAlloc, book: &mut Book<&'m FailingAlloc>) -> Ended {
    let mut is_refused = false;
    for number in 1..CALLS.saturating_add(1) {
        is_refused = apply_at_last(memory, book, number)? || is_refused;
        expect_book(book, number)?;
    }
    Ok(is_refused)
}

/// All calls to one book.
#[derive(Drop)]
struct Apply;

impl AtBook for Apply {
    fn made<'m>(&self, memory: &'m FailingAlloc) -> Made<'m> {
        Ok(Some(Book::new(memory, 100)))
    }

    fn ends_at<'m>(&self, memory: &'m FailingAlloc, book: &mut Book<&'m FailingAlloc>) -> Ended {
        apply_all(memory, book)
    }
}

#[test]
fn calls_to_a_book(rt: HostRuntime) -> Result<(), Fail> {
    refuse_each(rt.alloc(), &BookFirst(Apply))
}
