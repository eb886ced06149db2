//! The rule of a desk, and what a seat learns from each atomic step that it makes. Each step is of one of the kinds of
//! `specs/Kinds.antt`.

use crate::held::HeldBook;
use crate::view::View;
use atomic_table::{Join, Play, Split, TableRule};
use std::alloc::Allocator;
use std::snapshot::Snapshot;
use work_registry::Book;

/// What a desk is opened with. Contracts alone read it.
#[derive(Drop)]
pub(crate) struct Opening<A: Allocator + Copy + Drop> {
    pub(crate) book: Snapshot<Book<A>>,
    pub(crate) seats: u32,
}

/// What holds of a desk between any two atomic steps, whoever makes them: the record `Kept` of `specs/Rule.antt`.
pub struct DeskRule;

impl<A: Allocator + Copy + Drop> TableRule<Option<HeldBook<A>>, View, Opening<A>> for DeskRule {
    ghost use Rattle.registry_desk.specs.Rule.{Kept};
    ghost use Rattle.registry_desk.specs.Views.{opening_view};

    ghost holds = { λ _. Kept };

    ghost first = { λ k. opening_view k.book.value k.seats };
}

/// A seat draws a ticket.
pub(crate) struct Draw;

impl<A: Allocator + Copy + Drop> Play<Option<HeldBook<A>>, View> for Draw {
    ghost use Rattle.registry_desk.specs.Kinds.{Tells, draws};

    ghost then = { Tells draws };
}

/// A seat looks at the flag of its ticket.
pub(crate) struct Look;

impl<A: Allocator + Copy + Drop> Play<Option<HeldBook<A>>, View> for Look {
    ghost use Rattle.registry_desk.specs.Kinds.{Tells, looks};

    ghost then = { Tells looks };
}

/// A seat closes the flag of its ticket. `FULL` says whether it found the book full.
pub(crate) struct Shut<const FULL: bool>;

impl<const FULL: bool, A: Allocator + Copy + Drop> Play<Option<HeldBook<A>>, View> for Shut<FULL> {
    ghost use Rattle.registry_desk.specs.Kinds.{Tells, shuts};

    ghost then = { Tells (shuts FULL) };
}

/// A seat opens the flag of the next ticket.
pub(crate) struct Pass;

impl<A: Allocator + Copy + Drop> Play<Option<HeldBook<A>>, View> for Pass {
    ghost use Rattle.registry_desk.specs.Kinds.{Tells, passes};

    ghost then = { Tells passes };
}

/// The opening seat learns that it has met no more seats than it gave.
pub(crate) struct Count;

impl<A: Allocator + Copy + Drop> Play<Option<HeldBook<A>>, View> for Count {
    ghost use Rattle.registry_desk.specs.Kinds.{Tells, counts};

    ghost then = { Tells counts };
}

/// The opening seat gives a seat.
pub(crate) struct Give;

impl Split<View> for Give {
    ghost use Rattle.registry_desk.specs.Kinds.{given_by, gives, left_by};

    ghost left = { left_by gives };

    ghost right = { given_by gives };
}

/// The opening seat meets another one.
pub(crate) struct Meet;

impl Join<View> for Meet {
    ghost use Rattle.registry_desk.specs.Kinds.{joined_by, meets};
    ghost use Rattle.registry_desk.specs.Views.{spent_view};

    ghost both = { joined_by meets };

    ghost spent = { spent_view };
}
