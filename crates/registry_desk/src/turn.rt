//! A turn: calls of a seat that is inside, its leaving, and a complete turn with one call.

ghost use Rattle.std.specs.Prelude.{◌≡◌, ◌≢◌, ℕ, ◌<◌, ◌≤◌, ◌↔◌, true, if◌then◌else◌, length, IfOk, IfErr};
ghost use Rattle.work_registry.specs.History.{IsHistory};
ghost use Rattle.work_registry.specs.Rows.{rows_of};
ghost use Rattle.work_registry.specs.Reply.{reply_to};
ghost use Rattle.work_registry.specs.Numbers.{IsNumbered};
ghost use Rattle.work_registry.specs.Refusals.{is_full, is_for_limit};
ghost use Rattle.registry_desk.specs.Views.{max_turns, after_turn, shut, passed};
ghost use Rattle.registry_desk.specs.Kinds.{shuts, passes, Moves};
ghost use Rattle.registry_desk.specs.Turns.{answered, refused, ComesIn, HandsIn, LeavesBySteps, LooksFor};

use crate::desk::Desk;
use crate::held::HeldBook;
use crate::rule::{Pass, Shut};
use crate::seat::{Inside, Leaving, Looked, Seat, Waiting};
use crate::words::{BOOK, CLOSED, OPEN, flag_word, place_after, place_of};
use crossbeam_utils::Backoff;
use std::alloc::Allocator;
use std::sync::Wait;
use work_registry::{Call, HandInError, Refused, Reply};

/// The number of times that a seat in the queue looks before it sleeps: some tens of microseconds in all, longer than
/// most turns take.
const FEW_LOOKS: u32 = 20;

impl<A: Allocator + Copy + Drop> Inside<A> {
    /// Hands a call in, as [`Book::apply`] does by the seat's session.
    ///
    /// A turn has at most one reply. A call that is refused comes back, and may be handed in again.
    pub fn apply(&mut self, call: Call<A>) -> Result<Reply, Refused<A>>
        requires session { self.old.view.session ≢ 0 }
        requires unused { self.old.unused ≡ true }
        ensures reply { IfOk result (λ r. r ≡ reply_to (rows_of self.old.book.history) call) }
        ensures numbered { IfOk result IsNumbered }
        ensures entry { IfOk result (λ r. self.new ≡ answered self.old call r) }
        ensures given_back { IfErr result (λ e. e.call ≡ call) }
        ensures unchanged { IfErr result (λ e. self.new ≡ refused self.old e.why) }
        ensures full { (length self.old.book.history ≡ self.old.book.limit) ↔ (is_full result ≡ true) }
        ensures registry { IsHistory self.new.book.history }
        ensures bounded { length self.new.book.history ≤ self.new.book.limit }
    {
        match self.book.apply(self.counts.session, call) {
            Ok(reply) => {
                self.book.recall();
                self.unused = false;
                Ok(reply)
            }
            Err(refused) => {
                self.full = marks(self.full, refused.why);
                Err(refused)
            }
        }
    }

    /// Puts the book back and lets the next seat in.
    ///
    /// The seat has then seen the book's history, and has this turn's entry, if any, behind its others. It is marked if
    /// a call of this turn found the book full.
    pub fn leave(self, desk: &Desk<A>) -> Seat<A>
        requires { self.desk ≡ desk.now }
        ensures left { result ≡ record { desk = desk.now; view = after_turn self.view self.full self.book.history } }
        ensures steps { LeavesBySteps self.view self.full result.view }
    {
        self.shut(desk).pass(desk)
    }

    /// Puts the book back and closes the flag.
    fn shut(self, desk: &Desk<A>) -> Leaving<A>
        requires { self.desk ≡ desk.now }
        ensures shut { (ticket : ℕ) × (result ≡ record { desk = desk.now; view = shut self.view ticket self.full self.book.history }) }
        ensures step { Moves (shuts self.full) self.view result.view }
    {
        let Inside {
            mut seat,
            counts,
            ticket,
            book,
            unused: _,
            full,
        } = self;
        let _none: Option<HeldBook<A>> = desk.table.shared.exchange(&mut seat, BOOK, Some(book));
        let flag = flag_word(place_of(ticket));
        if full {
            desk.table
                .shared
                .store::<Shut<true>>(&mut seat, flag, CLOSED);
        } else {
            desk.table
                .shared
                .store::<Shut<false>>(&mut seat, flag, CLOSED);
        }
        Leaving {
            seat,
            counts,
            ticket,
        }
    }
}

impl<A: Allocator + Copy + Drop> Leaving<A> {
    /// Opens the flag of the next ticket, and wakes the thread that sleeps there.
    fn pass(self, desk: &Desk<A>) -> Seat<A>
        requires { self.desk ≡ desk.now }
        ensures passed { result ≡ record { desk = desk.now; view = passed self.view } }
        ensures step { Moves passes self.view result.view }
    {
        let Leaving {
            mut seat,
            counts,
            ticket,
        } = self;
        let next = place_after(ticket);
        desk.table
            .shared
            .store::<Pass>(&mut seat, flag_word(next), OPEN);
        desk.sleepers[next].notify_one();
        Seat { seat, counts }
    }
}

impl<A: Allocator + Copy + Drop> Desk<A> {
    /// A complete turn with one call: draws a ticket, looks until the seat is inside, hands the call in, and leaves.
    ///
    /// The seat is not the opening one, and has a turn left. It waits until it is admitted to the queue, and then while
    /// others are before it. With a reply, exactly that entry was added. With a refusal, none was: it hands the call
    /// back, and a full book marks the seat.
    pub fn hand_in(
        &self,
        rt: &impl Wait,
        seat: Seat<A>,
        call: Call<A>,
    ) -> (Seat<A>, Result<Reply, Refused<A>>)
        requires desk { seat.desk ≡ self.now }
        requires session { seat.view.session ≢ 0 }
        requires turns { seat.view.turns < max_turns }
        ensures desk { result.0.desk ≡ self.now }
        ensures turn { HandsIn seat.view call result.1 result.0.view }
    {
        self.door.come_in(rt);
        let mut inside = self.enter(rt, seat);
        let reply = inside.apply(call);
        let seat = inside.leave(self);
        self.door.go_out();
        (seat, reply)
    }

    /// Draws a ticket, and waits until the seat is inside.
    fn enter(&self, rt: &impl Wait, seat: Seat<A>) -> Inside<A>
        requires desk { seat.desk ≡ self.now }
        requires turns { seat.view.turns < max_turns }
        ensures { ComesIn seat result }
    {
        let mut waiting = self.draw(seat);
        let place = place_of(waiting.ticket);
        let backoff = Backoff::new();
        let mut looks: u32 = 0;
        for _ in rt.forever() {
            let awake = looks < FEW_LOOKS;
            match self.look_or_sleep(rt, waiting, place, awake) {
                Looked::Yours(inside) => return inside,
                Looked::NotYet(still) => waiting = still,
            }
            // A thread that was woken looks at once.
            if awake {
                looks += 1;
                backoff.spin();
            }
        }
        unreachable!()
    }

    /// Looks once more. If it is not the seat's turn, it then sleeps until the seat may be next, unless it is `awake`.
    fn look_or_sleep(
        &self,
        rt: &impl Wait,
        waiting: Waiting<A>,
        place: usize,
        awake: bool,
    ) -> Looked<A>
        requires desk { waiting.desk ≡ self.now }
        requires place { place < 64 }
        ensures { LooksFor waiting result }
    {
        if awake {
            return self.look(waiting);
        }
        let sleep = self.sleepers[place].prepare_wait();
        match self.look(waiting) {
            Looked::Yours(inside) => Looked::Yours(inside),
            Looked::NotYet(still) => {
                sleep.wait(rt);
                Looked::NotYet(still)
            }
        }
    }
}

/// Whether the turn of a refused call is marked: a full book marks it.
fn marks(full: bool, why: HandInError) -> bool
    ensures { result ≡ if is_for_limit why then true else full }
{
    match why {
        HandInError::Full => true,
        HandInError::Memory => full,
    }
}
