//! Calls of a book that is made first.

use failing_alloc::{Ended, FailingAlloc, Sweep};
use std::test::Fail;
use work_registry::Book;

/// The book that a call needs; `None` if an allocation failed.
pub(crate) type Made<'m> = Result<Option<Book<&'m FailingAlloc>>, Fail>;

/// A call of a book, or the making of one.
pub(crate) trait AtBook {
    /// Makes the book.
    fn made<'m>(&self, memory: &'m FailingAlloc) -> Made<'m>;

    /// Makes the call, in the same memory, and says how it ended.
    fn ends_at<'m>(&self, memory: &'m FailingAlloc, book: &mut Book<&'m FailingAlloc>) -> Ended;
}

/// Makes the book of a call, and then the call.
#[derive(Drop)]
pub(crate) struct BookFirst<T: AtBook>(pub(crate) T);

impl<T: AtBook> Sweep for BookFirst<T> {
    fn ends(&self, memory: &FailingAlloc) -> Ended {
        match self.0.made(memory)? {
            Some(mut book) => self.0.ends_at(memory, &mut book),
            None => Ok(true),
        }
    }
}
