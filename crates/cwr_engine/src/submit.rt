//! Where a worker hands calls in.
ghost use Rattle.std.specs.Prelude.{◌≡◌, ◌<◌, ◌≤◌, ◌↔◌, ◌+◌, ◌∷◌, [], ℕ, Bool, Option, None, Some, true, nat_le, if◌then◌else◌, length, IfOk, IfErr, OnOk, OnErr};
ghost use Rattle.cwr_call.specs.CallValue.{CallValue};
ghost use Rattle.work_registry.specs.EntryValue.{entry_of};
ghost use Rattle.work_registry.specs.Numbers.{IsNumbered};
ghost use Rattle.work_registry.specs.Refusals.{is_for_limit};
ghost use Rattle.work_registry.specs.Replay.{made};
ghost use Rattle.work_registry.specs.declared.refused.HandInError.TheVariants.{Full};
ghost use Rattle.cwr_engine.specs.Causes.{marked_by};
ghost use Rattle.cwr_engine.specs.Handing.{Entries, HasGained};

use std::alloc::Allocator;
use work_registry::{Book, Call, HandInError, Reply};

/// What can be handed in at a [`Submit`]: a call, in whatever memory.
pub trait Asks {
    // What it requests of the registry.
    ghost asked: { Self → CallValue };
}

impl<A: Allocator> Asks for Call<A> {
    ghost asked = { λ call. call };
}

/// Where one session hands in its calls.
///
/// Each call consumes it, and returns it with the reply.
pub trait Submit<C: Asks>: Drop {
    // The session that hands in.
    ghost session: { Self → ℕ };

    // At least how many more calls it takes.
    ghost turns_left: { Self → ℕ };

    // The entries of its session, and the history where nobody else writes it.
    ghost entries: { Self → Entries };

    // The history, as it was seen last, holds its limit of entries.
    ghost full: { Self → Bool };

    // Whether a call was refused for a full book; `None` where that is not recorded.
    ghost mark: { Self → Option Bool };

    // The greatest number of entries of the book.
    ghost limit: { Self → ℕ };

    // Which one it is, where there are several.
    ghost Home: { Type 0 } = { Unit {0} };

    ghost home: { Self → Home };

    /// Hands in a call. A call that is refused leaves no entry.
    fn hand_in(self, call: C) -> (Self, Result<Reply, HandInError>)
    where
        Self: Sized,
        requires { 0 < turns_left self }
        ensures session { session result.0 ≡ session self }
        ensures limit { limit result.0 ≡ limit self }
        ensures home { home result.0 ≡ home self }
        ensures turns { turns_left self ≤ turns_left result.0 + 1 }
        ensures gained { IfOk result.1 (λ r. HasGained (session self) (entry_of (session self) (C.asked call) r ∷ []) (entries self) (entries result.0)) }
        ensures numbered { IfOk result.1 IsNumbered }
        ensures kept { OnErr result.1 (entries result.0 ≡ entries self) }
        ensures full { IfErr result.1 (λ why. (why ≡ Full) ↔ (full result.0 ≡ true)) }
        ensures unmarked { OnOk result.1 (mark result.0 ≡ mark self) }
        ensures marked { IfErr result.1 (λ why. mark result.0 ≡ marked_by (is_for_limit why) (mark self)) };
}

/// A book that is lent and that nobody else uses in the meantime, and a session from 0 to 63 that hands in its calls
/// there. It is a reference, so that a call moves no book.
#[derive(Drop)]
pub(crate) struct Lent<'a, A: Allocator + Copy + Drop> {
    pub(crate) book: &'a mut Book<A>,
    pub(crate) session: u32,
}

impl<'a, A: Allocator + Copy + Drop> Submit<Call<A>> for Lent<'a, A> {
    ghost session = { λ s. s.session };

    // It takes a call only of a session that a book knows.
    ghost turns_left = { λ s. if nat_le s.session 63 then 4294967295 else 0 };

    ghost entries = { λ s. record { list = made s.book.now.history s.session; whole = Some s.book.now.history } };

    ghost full = { λ s. nat_le s.book.now.limit (length s.book.now.history) };

    ghost mark = { λ _. None };

    ghost limit = { λ s. s.book.now.limit };

    // The book that is lent: what is handed in is written there.
    ghost Home = { ℕ };

    ghost home = { λ s. s.book.ghost_name };

    #[inline]
    fn hand_in(self, call: Call<A>) -> (Lent<'a, A>, Result<Reply, HandInError>) {
        let Lent { book, session } = self;
        book.recall();
        match book.apply(session, call) {
            Ok(reply) => (Lent { book, session }, Ok(reply)),
            Err(refused) => (Lent { book, session }, Err(refused.why)),
        }
    }
}
