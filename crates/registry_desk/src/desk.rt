//! The desk, its seats and its steps.

ghost use Rattle.std.specs.Prelude.{◌≡◌, ◌≢◌, ℕ, ◌+◌, ◌<◌, ◌≤◌, true, length, vec_len, IfOk, IfErr};
ghost use Rattle.work_registry.specs.Replay.{is_opening};
ghost use Rattle.registry_desk.specs.Views.{max_turns, opening_view, drawn, giving, given_view, meeting};
ghost use Rattle.registry_desk.specs.Closing.{Closes};
ghost use Rattle.registry_desk.specs.Kinds.{draws, looks, Moves};
ghost use Rattle.registry_desk.specs.Turns.{LooksFor, view_after};

use crate::door::Door;
use crate::held::HeldBook;
use crate::rule::{Count, DeskRule, Draw, Give, Look, Meet, Opening};
use crate::seat::{Counts, Inside, Looked, Seat, Waiting};
use crate::view::View;
use crate::words::{BOOK, FLAGS, NEXT, OPEN, flag_word, place_of};
use atomic_table::{Refused, Table};
use crossbeam_utils::sync::EventCount;
use std::alloc::{AllocError, Allocator, Global};
use std::marker::Model;
use std::snapshot::Snapshot;
use work_registry::Book;

/// One book of works, which the seats write one after the other. It is lent to all threads.
///
/// A contract sees which desk it is.
#[derive(Drop)]
pub struct Desk<A: Allocator + Copy + Drop = Global> {
    pub(crate) table: Table<Option<HeldBook<A>>, View, Opening<A>, DeskRule, A>,
    /// A place to sleep for each flag: the holder of a ticket sleeps there until the ticket before it passes the lock
    /// on.
    pub(crate) sleepers: Vec<EventCount, A>,
    /// Admits one seat at a time, before it draws a ticket.
    pub(crate) door: Door,
}

impl<A: Allocator + Copy + Drop> Model for Desk<A> {
    ghost use Rattle.std.specs.Prelude.{◌≡◌, vec_len};
    ghost use Rattle.registry_desk.specs.Standing.{DeskId};

    ghost Value = { DeskId };

    ghost view = { λ d. d.table.shared.table_id };

    ghost invariant = { λ d. (d.table.shared.table_id.words ≡ 65) × (d.table.shared.table_id.slots ≡ 1) × (vec_len d.sleepers ≡ 64) };
}

/// A desk could not be allocated. The book comes back as it was.
#[derive(Drop)]
pub struct OpenRefused<A: Allocator + Copy + Drop = Global> {
    /// The book, handed back.
    pub book: Book<A>,
}

impl<A: Allocator + Copy + Drop> Desk<A> {
    /// Opens a desk with a book, and returns it with the opening seat. `seats` is the number of its seats, 1 to 64, the
    /// opening seat included.
    ///
    /// The book may hold entries, all of the opening session. It comes back if the desk cannot be allocated.
    ///
    /// # Examples
    ///
    /// A desk for two workers, who each get a seat.
    ///
    /// ```rust
    /// let Ok((desk, mut opening)) = Desk::open(alloc, Book::new(alloc, 100), 3) else {
    ///     return Err(Fail::from("memory"));
    /// };
    /// let first = desk.split(&mut opening);
    /// let second = desk.split(&mut opening);
    /// // Each worker hands in at its seat, and gives it back.
    /// desk.meet(&mut opening, first);
    /// desk.meet(&mut opening, second);
    /// let book = desk.close(opening);
    /// ```
    pub fn open(alloc: A, book: Book<A>, seats: u32) -> Result<(Desk<A>, Seat<A>), OpenRefused<A>>
        requires seats { (1 ≤ seats) × (seats ≤ 64) }
        requires opening { is_opening book.history ≡ true }
        ensures opened { IfOk result (λ r. r.1 ≡ record { desk = r.0; view = opening_view book seats }) }
        ensures refused { IfErr result (λ e. e.book ≡ book) }
    {
        book.recall();
        let opening = Opening {
            book: Snapshot::of(&book),
            seats,
        };
        let Ok(sleepers) = all_sleepers(alloc) else {
            return Err(OpenRefused { book });
        };
        let Ok(mut slots) = Vec::with_capacity(alloc, 1) else {
            return Err(OpenRefused { book });
        };
        let book = match HeldBook::hold(alloc, book) {
            Ok(held) => held,
            Err(book) => return Err(OpenRefused { book }),
        };
        slots.push_reserved(Some(book));
        let mut words = [0; FLAGS + 1];
        words[flag_word(0)] = OPEN;
        match Table::new(alloc, &words, slots, &opening) {
            Ok((table, seat)) => Ok((
                Desk {
                    table,
                    sleepers,
                    door: Door::new(),
                },
                Seat {
                    seat,
                    counts: counts_of(0, seats - 1),
                },
            )),
            Err(Refused { mut slots }) => {
                let book = slots.pop().unwrap().unwrap().into_book();
                Err(OpenRefused { book })
            }
        }
    }

    /// The opening seat gives a seat: its session is one more than the number of seats given before.
    ///
    /// The new seat has all its turns, no entry and no mark, and has seen what the opening seat has.
    pub fn split(&self, seat: &mut Seat<A>) -> Seat<A>
        requires desk { seat.old.desk ≡ self.now }
        requires opening { seat.old.view.session ≡ 0 }
        requires left { 0 < seat.old.view.left }
        ensures given { result ≡ record { desk = self.now; view = given_view seat.old.view } }
        ensures giver { seat.new ≡ record { desk = self.now; view = giving seat.old.view } }
    {
        let given = self.table.shared.split_seat::<Give>(&mut seat.seat);
        seat.counts.given += 1;
        seat.counts.seats_left -= 1;
        Seat {
            seat: given,
            counts: counts_of(seat.counts.given, 0),
        }
    }

    /// The seat draws the next ticket, which takes one of its turns, and waits from then on.
    pub fn draw(&self, seat: Seat<A>) -> Waiting<A>
        requires desk { seat.desk ≡ self.now }
        requires turns { seat.view.turns < max_turns }
        ensures drawn { (ticket : ℕ) × (result ≡ record { desk = self.now; view = drawn seat.view ticket }) }
        ensures step { Moves draws seat.view result.view }
    {
        let Seat { mut seat, counts } = seat;
        let ticket = self.table.shared.fetch_add::<Draw>(&mut seat, NEXT, 1);
        let counts = Counts {
            turns_left: counts.turns_left - 1,
            ..counts
        };
        Waiting {
            seat,
            counts,
            ticket,
        }
    }

    /// Looks at the flag of the seat's ticket. The seat is inside exactly where it reads that the flag is open.
    ///
    /// It then has the book: a history of one registry, which begins with what the seat saw last, and holds of its
    /// session just the seat's own list.
    pub fn look(&self, waiting: Waiting<A>) -> Looked<A>
        requires { waiting.desk ≡ self.now }
        ensures found { LooksFor waiting result }
        ensures step { Moves looks waiting.view (view_after result) }
    {
        let Waiting {
            mut seat,
            counts,
            ticket,
        } = waiting;
        let flag = flag_word(place_of(ticket));
        let found = self.table.shared.load::<Look>(&mut seat, flag);
        if found != OPEN {
            return Looked::NotYet(Waiting {
                seat,
                counts,
                ticket,
            });
        }
        let book = self.table.shared.exchange(&mut seat, BOOK, None).unwrap();
        Looked::Yours(Inside {
            seat,
            counts,
            ticket,
            book,
            unused: true,
            full: false,
        })
    }

    /// The opening seat meets another one, and learns its session, its entries and its mark.
    pub fn meet(&self, seat: &mut Seat<A>, other: Seat<A>)
        requires desk { (seat.old.desk ≡ self.now) × (other.desk ≡ self.now) }
        requires opening { seat.old.view.session ≡ 0 }
        ensures { seat.new ≡ record { desk = self.now; view = meeting seat.old.view other.view } }
    {
        let Seat {
            seat: other,
            counts: _,
        } = other;
        self.table.shared.load::<Count>(&mut seat.seat, NEXT);
        self.table.shared.join_seat::<Meet>(&mut seat.seat, other);
        seat.counts.met += 1;
    }

    /// Closes the desk by the opening seat, which has met every seat that it gave, and gives the book.
    ///
    /// Its history is the one that the desk was opened with and then entries of the sessions given. Each session's
    /// entries are those of its seat, in order, and the history begins with what each seat that was met saw last.
    pub fn close(self, seat: Seat<A>) -> Book<A>
        requires desk { seat.desk ≡ self }
        requires opening { seat.view.session ≡ 0 }
        requires met { length seat.view.met ≡ seat.view.given }
        ensures { Closes seat.view result }
    {
        let Seat { seat, counts: _ } = seat;
        let Desk { table, .. } = self;
        let mut closed = table.close_with(seat);
        let held = closed.take(BOOK).unwrap();
        closed.free();
        held.into_book()
    }
}

/// The numbers of a new seat.
fn counts_of(session: u32, seats_left: u32) -> Counts
    ensures { result ≡ record { session = session; turns_left = max_turns; seats_left = seats_left; given = 0; met = 0 } }
{
    Counts {
        session,
        turns_left: u32::MAX,
        seats_left,
        given: 0,
        met: 0,
    }
}

/// A place to sleep for each flag.
fn all_sleepers<A: Allocator + Copy + Drop>(alloc: A) -> Result<Vec<EventCount, A>, AllocError>
    ensures { IfOk result (λ v. vec_len v ≡ 64) }
{
    let mut sleepers = Vec::with_capacity(alloc, FLAGS)?;
    for _ in 0..FLAGS {
        sleepers.push_reserved(EventCount::new());
    }
    Ok(sleepers)
}
