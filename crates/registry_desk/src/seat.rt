//! A seat: at rest, waiting, inside and leaving.

ghost use Rattle.std.specs.Prelude.{◌≡◌, ◌+◌, ◌<◌, length};
ghost use Rattle.registry_desk.specs.Views.{max_turns};

use crate::held::HeldBook;
use crate::view::View;
use std::alloc::{Allocator, Global};
use std::marker::Model;

/// What a seat steps with on the desk's words.
pub(crate) type TableSeat<A> = atomic_table::Seat<Option<HeldBook<A>>, View>;

/// The numbers of a seat.
#[derive(Clone, Copy)]
pub(crate) struct Counts {
    pub(crate) session: u32,
    pub(crate) turns_left: u32,
    pub(crate) seats_left: u32,
    pub(crate) given: u32,
    pub(crate) met: u32,
}

/// What a thread comes to the desk with: a session, and the turns that it has left.
///
/// The opening seat, session 0, comes with the desk. It gives the others, meets them again, and closes the desk; where
/// a seat is dropped and not met, the desk cannot be closed. A contract sees of a seat the desk that it is of, and what
/// it knows.
#[derive(Drop)]
pub struct Seat<A: Allocator + Copy + Drop = Global> {
    pub(crate) seat: TableSeat<A>,
    pub(crate) counts: Counts,
}

impl<A: Allocator + Copy + Drop> Model for Seat<A> {
    ghost use Rattle.registry_desk.specs.Standing.{Standing, Rests};

    ghost Value = { Standing };

    ghost view = { λ s. record { desk = s.seat.table_id; view = s.seat.me.0 } };

    ghost invariant = { λ s. Rests s.seat.me s.counts };
}

/// A seat that has drawn a ticket and waits. It must be used: look, until it is inside.
pub struct Waiting<A: Allocator + Copy + Drop = Global> {
    pub(crate) seat: TableSeat<A>,
    pub(crate) counts: Counts,
    pub(crate) ticket: u64,
}

impl<A: Allocator + Copy + Drop> Model for Waiting<A> {
    ghost use Rattle.registry_desk.specs.Standing.{Standing, Waits};

    ghost Value = { Standing };

    ghost view = { λ s. record { desk = s.seat.table_id; view = s.seat.me.0 } };

    ghost invariant = { λ s. Waits s.seat.me s.counts s.ticket };
}

/// A seat that is inside, with the book. It must be used: leave, so that the next one gets in.
pub struct Inside<A: Allocator + Copy + Drop = Global> {
    pub(crate) seat: TableSeat<A>,
    pub(crate) counts: Counts,
    pub(crate) ticket: u64,
    pub(crate) book: HeldBook<A>,
    pub(crate) unused: bool,
    pub(crate) full: bool,
}

impl<A: Allocator + Copy + Drop> Model for Inside<A> {
    ghost use Rattle.registry_desk.specs.Standing.{Stay, Stays};

    ghost Value = { Stay };

    ghost view = { λ s. record { desk = s.seat.table_id; view = s.seat.me.0; book = s.book; unused = s.unused; full = s.full } };

    ghost invariant = { λ s. Stays s.seat.me s.counts s.ticket s.book s.unused s.full };
}

/// A seat that has put the book back and closed its flag. It must be used: pass, so that the next one gets in.
pub(crate) struct Leaving<A: Allocator + Copy + Drop> {
    pub(crate) seat: TableSeat<A>,
    pub(crate) counts: Counts,
    pub(crate) ticket: u64,
}

impl<A: Allocator + Copy + Drop> Model for Leaving<A> {
    ghost use Rattle.registry_desk.specs.Standing.{Standing, Leaves};

    ghost Value = { Standing };

    ghost view = { λ s. record { desk = s.seat.table_id; view = s.seat.me.0 } };

    ghost invariant = { λ s. Leaves s.seat.me s.counts s.ticket };
}

/// What a look finds.
pub enum Looked<A: Allocator + Copy + Drop = Global> {
    /// The flag of the ticket is open: the seat is inside.
    Yours(Inside<A>),
    /// The flag of the ticket is closed: the seat waits on.
    NotYet(Waiting<A>),
}

impl<A: Allocator + Copy + Drop> Seat<A> {
    /// The session that its calls are handed in by: 0 is the opening.
    pub fn session(&self) -> u32
        ensures value { result ≡ self.now.view.session }
        ensures small { result < 64 }
    {
        self.counts.session
    }

    /// The number of turns that it can still take: 4,294,967,295 at first.
    pub fn turns_left(&self) -> u32
        ensures { result + self.now.view.turns ≡ max_turns }
    {
        self.counts.turns_left
    }

    /// The number of seats that it can still give: for the opening seat, at first one less than the desk's seats; for
    /// another, none.
    pub fn seats_left(&self) -> u32
        ensures { result ≡ self.now.view.left }
    {
        self.counts.seats_left
    }

    /// The number of seats that it has given.
    pub fn given(&self) -> u32
        ensures { result ≡ self.now.view.given }
    {
        self.counts.given
    }

    /// The number of seats that it has met.
    pub fn met(&self) -> u32
        ensures { result ≡ length self.now.view.met }
    {
        self.counts.met
    }
}

impl<A: Allocator + Copy + Drop> Inside<A> {
    /// Whether no call of this turn was answered yet.
    pub fn unused(&self) -> bool
        ensures { result ≡ self.now.unused }
    {
        self.unused
    }
}
