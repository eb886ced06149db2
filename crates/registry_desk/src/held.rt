//! The book, in its slot and with the seat that is inside.

ghost use Rattle.std.specs.Prelude.{◌≡◌, ◌≤◌, ◌↔◌, ◌∷◌, [], ◌++◌, true, length, IfOk, IfErr, OnErr};
ghost use Rattle.work_registry.specs.EntryValue.{entry_of};
ghost use Rattle.work_registry.specs.History.{IsHistory};
ghost use Rattle.work_registry.specs.Numbers.{IsNumbered};
ghost use Rattle.work_registry.specs.Refusals.{is_full};
ghost use Rattle.work_registry.specs.Reply.{reply_to};
ghost use Rattle.work_registry.specs.Rows.{rows_of};

use std::alloc::Allocator;
use std::boxed::Box;
use std::marker::Model;
use work_registry::{Book, Call, Refused, Reply};

/// The book, which lies at one place of memory for as long as the desk is open. A turn hands on a pointer to it, and
/// moves no book. A contract sees the book.
#[derive(Drop)]
pub(crate) struct HeldBook<A: Allocator + Copy + Drop> {
    pub(crate) book: Box<Book<A>, A>,
}

impl<A: Allocator + Copy + Drop> Model for HeldBook<A> {
    ghost use Rattle.work_registry.specs.BookValue.{BookValue};

    ghost Value = { BookValue };

    ghost view = { λ h. h.book.value };
}

impl<A: Allocator + Copy + Drop> HeldBook<A> {
    /// Holds a book. It comes back as it was if its place cannot be allocated.
    pub(crate) fn hold(alloc: A, book: Book<A>) -> Result<HeldBook<A>, Book<A>>
        ensures held { IfOk result (λ h. h ≡ book) }
        ensures back { IfErr result (λ b. b ≡ book) }
    {
        match Box::new(alloc, book) {
            Ok(book) => Ok(HeldBook { book }),
            Err(refused) => Err(refused.value),
        }
    }

    /// The book, out of its place.
    pub(crate) fn into_book(self) -> Book<A>
        ensures { result ≡ self }
    {
        let HeldBook { book } = self;
        Box::into_inner(book)
    }

    /// Hands a call in, as [`Book::apply`] does.
    pub(crate) fn apply(&mut self, session: u32, call: Call<A>) -> Result<Reply, Refused<A>>
        requires { session ≤ 63 }
        ensures reply { IfOk result (λ r. r ≡ reply_to (rows_of self.old.history) call) }
        ensures entry { IfOk result (λ r. self.new.history ≡ self.old.history ++ entry_of session call r ∷ []) }
        ensures limit { self.new.limit ≡ self.old.limit }
        ensures unchanged { OnErr result (self.new ≡ self.old) }
        ensures given_back { IfErr result (λ e. e.call ≡ call) }
        ensures full { (length self.old.history ≡ self.old.limit) ↔ (is_full result ≡ true) }
        ensures within { IfOk result IsNumbered }
    {
        self.book.apply(session, call)
    }

    /// Does nothing: a proof has from it what holds in every book.
    pub(crate) fn recall(&self)
        ensures lawful { IsHistory self.now.history }
        ensures fits { length self.now.history ≤ self.now.limit }
    {
        self.book.recall();
    }
}
