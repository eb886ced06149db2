//! Desks that are opened, and turns of their seats.
ghost use Rattle.std.specs.Prelude.{◌≡◌, ◌≢◌, IfOk, true};
ghost use Rattle.work_registry.specs.Replay.{is_opening};

use failing_alloc::{Ended, FailingAlloc, Sweep, refuse_each};
use registry_desk::{Book, Call, Desk, Inside, Looked, OpenRefused, Refused, Reply, Seat, Waiting};
use std::process::Abort;
use std::sync::Wait;
use std::test::Fail;
use test_books::{book_of, call, gives_back, holds, reply_to};
use test_comparisons::same;

/// The book must hold the first `count` calls, those after the first `before` of session 1.
fn expect_book(book: &Book<&FailingAlloc>, before: u16, count: u16) -> Result<(), Fail> {
    holds(book, before, count)
}

/// The same book, which must have no entry but those of the opening.
fn opening<'m>(book: Book<&'m FailingAlloc>) -> Result<Book<&'m FailingAlloc>, Fail>
    ensures opening { IfOk result (λ b. is_opening b.history ≡ true) }
{
    if !book.is_opening() {
        return Err(Fail::new("no opening"));
    }
    Ok(book)
}

/// Opens a desk for three seats with this book, and closes it.
fn open_and_close<'m>(
    memory: &'m FailingAlloc,
    book: Book<&'m FailingAlloc>,
) -> Result<Book<&'m FailingAlloc>, OpenRefused<&'m FailingAlloc>>
    requires opening { is_opening book.history ≡ true }
{
    match Desk::open(memory, book, 3) {
        Ok((desk, opening)) => Ok(desk.close(opening)),
        Err(refused) => Err(refused),
    }
}

/// Opens and closes a desk with this book of `works` works, which must come out as it was. If an allocation fails the
/// book is handed back, and must be as it was too.
fn handed_back<'m>(
    memory: &'m FailingAlloc,
    book: Book<&'m FailingAlloc>,
    works: u16,
) -> Result<Option<Book<&'m FailingAlloc>>, Fail> {
    let (book, is_refused) = match open_and_close(memory, opening(book)?) {
        Ok(book) => (book, false),
        Err(OpenRefused { book }) => (book, true),
    };
    expect_book(&book, works, works)?;
    Ok(is_refused.then_some(book))
}

/// A desk over a book of a number of works.
#[derive(Drop)]
struct OpenDesk {
    works: u16,
}

impl Sweep for OpenDesk {
    fn ends(&self, memory: &FailingAlloc) -> Ended {
        let Some(book) = book_of(memory, self.works)? else {
            return Ok(true);
        };
        let Some(book) = handed_back(memory, book, self.works)? else {
            return Ok(false);
        };
        match handed_back(memory, book, self.works)? {
            None => Ok(true),
            Some(_) => Err(Fail::new("refused again")),
        }
    }
}

/// The turn of a seat that waits, which must have come.
fn let_in<'m>(
    rt: &impl Abort,
    desk: &Desk<&'m FailingAlloc>,
    waiting: Waiting<&'m FailingAlloc>,
) -> Inside<&'m FailingAlloc>
    requires desk { waiting.desk ≡ desk.now }
    ensures desk { result.desk ≡ desk.now }
    ensures session { result.view.session ≡ waiting.entry.view.session }
    ensures unused { result.unused ≡ true }
{
    match desk.look(waiting) {
        Looked::Yours(inside) => inside,
        Looked::NotYet(_waiting) => panic!(rt; "it is the seat's turn"),
    }
}

/// A turn of a seat, which must come at once, and in which no call is handed in.
fn idle_turn<'m>(
    rt: &impl Abort,
    desk: &Desk<&'m FailingAlloc>,
    seat: Seat<&'m FailingAlloc>,
) -> Seat<&'m FailingAlloc>
    requires desk { seat.desk ≡ desk.now }
    ensures desk { result.desk ≡ desk.now }
{
    if seat.turns_left() == 0 {
        panic!(rt; "no turn left");
    }
    let_in(rt, desk, desk.draw(seat)).leave(desk)
}

/// A complete turn of a seat with a call.
fn turn<'m, T: Wait + Abort>(
    rt: &T,
    desk: &Desk<&'m FailingAlloc>,
    seat: Seat<&'m FailingAlloc>,
    call: Call<&'m FailingAlloc>,
) -> (
    Seat<&'m FailingAlloc>,
    Result<Reply, Refused<&'m FailingAlloc>>,
)
    requires desk { seat.desk ≡ desk.now }
    ensures desk { result.0.desk ≡ desk.now }
{
    if seat.turns_left() == 0 {
        panic!(rt; "no turn left");
    }
    if seat.session() == 0 {
        panic!(rt; "the opening seat");
    }
    desk.hand_in(rt, seat, call)
}

/// Whether a call was refused before it was taken, or what was wrong.
type Taken = Result<bool, &'static str>;

/// The call with this number must have been taken.
fn is_taken(reply: Result<Reply, Refused<&FailingAlloc>>, number: u16, is_refused: bool) -> Taken {
    match reply {
        Ok(reply) if reply == reply_to(number) => Ok(is_refused),
        Ok(_) => Err("another reply"),
        Err(_) => Err("refused again"),
    }
}

/// Whether the call with this number was handed back.
fn is_handed_back(back: &Refused<&FailingAlloc>, number: u16) -> bool {
    gives_back(back, number)
}

/// The result of the call with this number inside a turn. If it was refused the turn is as unused as before. The call
/// is then handed in once more, and must be taken.
fn apply_at_last<'m>(
    inside: &mut Inside<&'m FailingAlloc>,
    call: Call<&'m FailingAlloc>,
    number: u16,
) -> Taken
    requires session { inside.old.view.session ≢ 0 }
    requires unused { inside.old.unused ≡ true }
    ensures desk { inside.new.desk ≡ inside.old.desk }
{
    match inside.apply(call) {
        Ok(reply) => is_taken(Ok(reply), number, false),
        Err(back) => apply_again(inside, back, number),
    }
}

/// The call with this number was refused, and is handed in again in the same turn.
fn apply_again<'m>(
    inside: &mut Inside<&'m FailingAlloc>,
    back: Refused<&'m FailingAlloc>,
    number: u16,
) -> Taken
    requires session { inside.old.view.session ≢ 0 }
    ensures desk { inside.new.desk ≡ inside.old.desk }
{
    if !is_handed_back(&back, number) || !inside.unused() {
        return Err("not given back");
    }
    is_taken(inside.apply(back.call), number, true)
}

/// The result of a call inside a turn of a seat, which must come at once. `rt` ends the test if it does not, and `seat`
/// is one of `desk`. `call` is handed in, and `number` is its number, from 1.
fn turn_inside<'m>(
    rt: &impl Abort,
    desk: &Desk<&'m FailingAlloc>,
    seat: Seat<&'m FailingAlloc>,
    call: Call<&'m FailingAlloc>,
    number: u16,
) -> (Seat<&'m FailingAlloc>, Taken)
    requires desk { seat.desk ≡ desk.now }
    ensures desk { result.0.desk ≡ desk.now }
{
    if seat.turns_left() == 0 {
        panic!(rt; "no turn left");
    }
    if seat.session() == 0 {
        panic!(rt; "the opening seat");
    }
    let mut inside = let_in(rt, desk, desk.draw(seat));
    let taken = apply_at_last(&mut inside, call, number);
    (inside.leave(desk), taken)
}

/// The book after a call inside a turn, and the result of the call.
type Applied<'m> = (Book<&'m FailingAlloc>, Taken);

/// The result of a call inside a turn of the one seat of a desk, and the book then; `None` if the desk could not be
/// allocated. `rt` ends the test if the turn does not come, `memory` allocates, and the desk is opened with `book`.
/// `call` is handed in, and `number` is its number, from 1.
fn applied_inside<'m>(
    rt: &impl Abort,
    memory: &'m FailingAlloc,
    book: Book<&'m FailingAlloc>,
    call: Call<&'m FailingAlloc>,
    number: u16,
) -> Option<Applied<'m>>
    requires opening { is_opening book.history ≡ true }
{
    let (desk, mut opening) = Desk::open(memory, book, 2).ok()?;
    let seat = desk.split(&mut opening);
    let (seat, taken) = turn_inside(rt, &desk, seat, call, number);
    desk.meet(&mut opening, seat);
    Some((desk.close(opening), taken))
}

/// A call inside a turn, over a book of a number of works, and once more if it is refused.
#[derive(Drop)]
struct InsideApply<'a, T: Abort> {
    rt: &'a T,
    works: u16,
}

impl<T: Abort> Sweep for InsideApply<'_, T> {
    fn ends(&self, memory: &FailingAlloc) -> Ended {
        match book_of(memory, self.works)? {
            Some(book) => self.ends_at(memory, opening(book)?),
            None => Ok(true),
        }
    }
}

impl<T: Abort> InsideApply<'_, T> {
    /// How the call ended, made at this book of its works.
    fn ends_at<'m>(&self, memory: &'m FailingAlloc, book: Book<&'m FailingAlloc>) -> Ended
        requires opening { is_opening book.history ≡ true }
    {
        let number = self.works.saturating_add(1);
        match self.applied(memory, book, number)? {
            Some((book, taken)) => is_taken_by(&book, taken, self.works, number),
            None => Ok(true),
        }
    }

    /// The result of the call with this number, and the book then; `None` if the desk could not be allocated.
    fn applied<'m>(
        &self,
        memory: &'m FailingAlloc,
        book: Book<&'m FailingAlloc>,
        number: u16,
    ) -> Result<Option<Applied<'m>>, Fail>
        requires opening { is_opening book.history ≡ true }
    {
        let call = call(memory, number)?;
        Ok(applied_inside(self.rt, memory, book, call, number))
    }
}

/// The call with this number must have been taken after those of the opening. Returns whether it was refused before.
fn is_taken_by(book: &Book<&FailingAlloc>, taken: Taken, works: u16, number: u16) -> Ended {
    let is_refused = taken?;
    expect_book(book, works, number)?;
    Ok(is_refused)
}

/// The result of a seat's turn. If its call was refused, it is handed in once more, and must then be taken. `rt` waits,
/// and ends the test if a turn fails, and `seat` is one of `desk`. `reply` is that of the turn, and `number` the number
/// of its call, from 1.
fn at_last<'m, T: Wait + Abort>(
    rt: &T,
    desk: &Desk<&'m FailingAlloc>,
    seat: Seat<&'m FailingAlloc>,
    reply: Result<Reply, Refused<&'m FailingAlloc>>,
    number: u16,
) -> (Seat<&'m FailingAlloc>, Taken)
    requires desk { seat.desk ≡ desk.now }
    ensures desk { result.0.desk ≡ desk.now }
{
    match reply {
        Ok(reply) => (seat, is_taken(Ok(reply), number, false)),
        Err(back) => {
            let is_kept = is_handed_back(&back, number);
            let (seat, again) = turn(rt, desk, seat, back.call);
            let taken = is_taken(again, number, true);
            (
                seat,
                if is_kept {
                    taken
                } else {
                    Err("not given back")
                },
            )
        }
    }
}

/// Two seats of a desk: one hands calls in, and the other takes a turn after each turn of it.
struct Pair<'m> {
    one: Seat<&'m FailingAlloc>,
    other: Seat<&'m FailingAlloc>,
}

/// A call of the one seat, and once more if it is refused. After each of its turns the other seat takes one, and so
/// sees that the lock was passed on. `rt` waits, and ends the test if a turn fails. `pair` has both seats of `desk`,
/// `call` is handed in, and `number` is its number, from 1.
fn call_and_pass<'m, T: Wait + Abort>(
    rt: &T,
    desk: &Desk<&'m FailingAlloc>,
    pair: Pair<'m>,
    call: Call<&'m FailingAlloc>,
    number: u16,
) -> (Pair<'m>, Taken)
    requires one { pair.one.desk ≡ desk.now }
    requires other { pair.other.desk ≡ desk.now }
    ensures one { result.0.one.desk ≡ desk.now }
    ensures other { result.0.other.desk ≡ desk.now }
{
    let Pair { one, other } = pair;
    let (one, reply) = turn(rt, desk, one, call);
    let other = idle_turn(rt, desk, other);
    let (one, taken) = at_last(rt, desk, one, reply, number);
    let other = idle_turn(rt, desk, other);
    (Pair { one, other }, taken)
}

/// Two calls that are handed in one after the other.
#[derive(Drop)]
struct TwoCalls<'m> {
    one: Call<&'m FailingAlloc>,
    other: Call<&'m FailingAlloc>,
}

/// The calls with this number, from 1, and the next one.
fn two_calls(memory: &FailingAlloc, first: u16) -> Result<TwoCalls<'_>, Fail> {
    let one = call(memory, first)?;
    let other = call(memory, first.saturating_add(1))?;
    Ok(TwoCalls { one, other })
}

/// Two calls of the one seat of a pair, and the result of each. `rt` waits, and ends the test if a turn fails. `pair`
/// has both seats of `desk`, `calls` are handed in, and `first` is the number of the first, from 1.
fn call_both<'m, T: Wait + Abort>(
    rt: &T,
    desk: &Desk<&'m FailingAlloc>,
    pair: Pair<'m>,
    calls: TwoCalls<'m>,
    first: u16,
) -> (Pair<'m>, (Taken, Taken))
    requires one { pair.one.desk ≡ desk.now }
    requires other { pair.other.desk ≡ desk.now }
    ensures one { result.0.one.desk ≡ desk.now }
    ensures other { result.0.other.desk ≡ desk.now }
{
    let TwoCalls { one, other } = calls;
    let (pair, one_taken) = call_and_pass(rt, desk, pair, one, first);
    let (pair, other_taken) = call_and_pass(rt, desk, pair, other, first.saturating_add(1));
    (pair, (one_taken, other_taken))
}

/// What two calls of a seat leave: the book, the result of each call, and the turns that both seats have left.
type Called<'m> = (Book<&'m FailingAlloc>, (Taken, Taken), (u32, u32));

/// Two calls of one of two seats of a desk; `None` if the desk could not be allocated. `rt` waits, and ends the test if
/// a turn fails. `memory` allocates, and the desk is opened with `book`. `calls` are handed in, and `first` is the
/// number of the first, from 1.
fn called_twice<'m, T: Wait + Abort>(
    rt: &T,
    memory: &'m FailingAlloc,
    book: Book<&'m FailingAlloc>,
    calls: TwoCalls<'m>,
    first: u16,
) -> Option<Called<'m>>
    requires opening { is_opening book.history ≡ true }
{
    let (desk, mut opening) = Desk::open(memory, book, 3).ok()?;
    let one = desk.split(&mut opening);
    let other = desk.split(&mut opening);
    let (pair, taken) = call_both(rt, &desk, Pair { one, other }, calls, first);
    let Pair { one, other } = pair;
    let left = (one.turns_left(), other.turns_left());
    desk.meet(&mut opening, one);
    desk.meet(&mut opening, other);
    Some((desk.close(opening), taken, left))
}

/// Whether one of the two calls was refused before it was taken. Both must have been taken, and each seat must have the
/// turns left that then remain.
fn is_one_refused(taken: (Taken, Taken), left: (u32, u32)) -> Ended {
    let (first, second) = taken;
    let (is_first, is_second) = (first?, second?);
    let is_refused = is_first || is_second;
    same("turns left", &left, &turns_left(is_refused))?;
    Ok(is_refused)
}

/// Two calls of one seat, over a book of a number of works. After each of its turns another seat takes one.
#[derive(Drop)]
struct HandIn<'a, T: Wait + Abort> {
    rt: &'a T,
    works: u16,
}

impl<T: Wait + Abort> Sweep for HandIn<'_, T> {
    fn ends(&self, memory: &FailingAlloc) -> Ended {
        match book_of(memory, self.works)? {
            Some(book) => self.ends_at(memory, opening(book)?),
            None => Ok(true),
        }
    }
}

impl<T: Wait + Abort> HandIn<'_, T> {
    /// How both calls ended, made at this book of their works.
    fn ends_at<'m>(&self, memory: &'m FailingAlloc, book: Book<&'m FailingAlloc>) -> Ended
        requires opening { is_opening book.history ≡ true }
    {
        match self.called(memory, book)? {
            Some((book, taken, left)) => self.are_both_taken(&book, taken, left),
            None => Ok(true),
        }
    }

    /// What the two calls after those of the opening leave; `None` if the desk could not be allocated.
    fn called<'m>(
        &self,
        memory: &'m FailingAlloc,
        book: Book<&'m FailingAlloc>,
    ) -> Result<Option<Called<'m>>, Fail>
        requires opening { is_opening book.history ≡ true }
    {
        let first = self.works.saturating_add(1);
        let calls = two_calls(memory, first)?;
        Ok(called_twice(self.rt, memory, book, calls, first))
    }

    /// Two calls must have been taken after those of the opening. Returns whether one was refused before. `book` has
    /// the entries, `taken` is the result of each call, and `left` the turns that both seats have left.
    fn are_both_taken(
        &self,
        book: &Book<&FailingAlloc>,
        taken: (Taken, Taken),
        left: (u32, u32),
    ) -> Ended {
        let is_refused = is_one_refused(taken, left)?;
        expect_book(book, self.works, self.works.saturating_add(2))?;
        Ok(is_refused)
    }
}

/// The turns that both seats must have left. The seat whose call was refused has taken one more than two, and the other
/// four.
fn turns_left(is_refused: bool) -> (u32, u32) {
    let taken: u32 = if is_refused { 3 } else { 2 };
    (u32::MAX.saturating_sub(taken), u32::MAX.saturating_sub(4))
}

#[test]
fn desks(rt: HostRuntime) -> Result<(), Fail> {
    let alloc = rt.alloc();
    refuse_each(alloc, &OpenDesk { works: 0 })?;
    refuse_each(alloc, &OpenDesk { works: 3 })
}

#[test]
fn calls_inside(rt: HostRuntime) -> Result<(), Fail> {
    for works in 0..9 {
        refuse_each(rt.alloc(), &InsideApply { rt: &rt, works })?;
    }
    Ok(())
}

#[test]
fn whole_turns(rt: HostRuntime) -> Result<(), Fail> {
    for works in 0..9 {
        refuse_each(rt.alloc(), &HandIn { rt: &rt, works })?;
    }
    Ok(())
}
