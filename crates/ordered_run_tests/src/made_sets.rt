//! Sets of files made by a generator.

use crate::beginnings::Beginning;
use crate::counts::{Ends, Replies, Sizes};
use crate::numbers::Numbers;
use crate::same_runs::expect_as_in_turn;
use crate::stock::stock;
use cwr_desk::Book;
use std::alloc::Global;
use std::test::Fail;
use std::thread::Threads;
use test_jobs::{Input, MemoryRun, run_in_turn, with_room};

/// The number of sets that a test makes.
const SETS: u32 = 200;

/// Room for each acknowledgement.
const AMPLE: usize = 4000;

/// The limit of a book that is never full.
const MANY: u32 = 1000;

/// Files to be worked, and the book that their run begins with.
#[derive(Drop)]
struct Made<'a> {
    inputs: Vec<Input<'a>>,
    beginning: Beginning,
}

/// The number of files of a set: none, the greatest number that a run takes, up to that, and mostly 1 to 20.
fn size(numbers: &mut Numbers) -> usize {
    match numbers.below(24) {
        0 => 0,
        1 => 63,
        2 => numbers.below(64),
        _ => 1 + numbers.below(20),
    }
}

/// The front of a text, or all of it.
fn front<'a>(numbers: &mut Numbers, text: &'a [u8]) -> &'a [u8] {
    let most = text.len().max(1);
    text.get(..numbers.below(most)).unwrap_or(text)
}

/// The bytes of a set's next file: those of an earlier one again, what a cut left of one, or one of the stock.
fn bytes<'a>(
    numbers: &mut Numbers,
    stock: &'a [Vec<u8>],
    earlier: &[Input<'a>],
) -> Result<&'a [u8], Fail> {
    match numbers.below(10) {
        0 | 1 if !earlier.is_empty() => Ok(numbers.one_of(earlier)?.bytes),
        2 => {
            let text = numbers.one_of(stock)?;
            Ok(front(numbers, text))
        }
        _ => Ok(numbers.one_of(stock)?),
    }
}

/// The read that fails, of a few.
fn failing_read(numbers: &mut Numbers) -> Option<u64> {
    (numbers.below(10) == 0).then_some(1 + numbers.below(5) as u64)
}

/// A file as it is worked: it comes in pieces, and some readers fail, and some writers have little room.
fn input<'a>(numbers: &mut Numbers, bytes: &'a [u8]) -> Input<'a> {
    let little = numbers.below(10) == 0;
    let room = if little { numbers.below(600) } else { AMPLE };
    Input {
        chunk: 1 + numbers.below(600),
        fail: failing_read(numbers),
        ..with_room(bytes, room)
    }
}

/// `count` files.
fn inputs<'a>(
    alloc: Global,
    numbers: &mut Numbers,
    stock: &'a [Vec<u8>],
    count: usize,
) -> Result<Vec<Input<'a>>, Fail> {
    let mut inputs = Vec::new(alloc);
    for _ in 0..count {
        let bytes = bytes(numbers, stock, &inputs)?;
        inputs.push(input(numbers, bytes))?;
    }
    Ok(inputs)
}

/// The book that an earlier run of up to six files left.
fn earlier_book(alloc: Global, numbers: &mut Numbers, stock: &[Vec<u8>]) -> Result<Book, Fail> {
    let count = numbers.below(7);
    let earlier = inputs(alloc, numbers, stock, count)?;
    let run = run_in_turn(alloc, Book::new(alloc, MANY), &earlier)?;
    Ok(run.book)
}

/// A book that goes on from the register of an earlier run, and may hold up to thirty more entries.
fn continued(alloc: Global, numbers: &mut Numbers, stock: &[Vec<u8>]) -> Result<Beginning, Fail> {
    let book = earlier_book(alloc, numbers, stock)?;
    beginning_after(alloc, numbers, &book)
}

/// What begins with the register of this book, which has room for some entries more or none.
fn beginning_after(alloc: Global, numbers: &mut Numbers, book: &Book) -> Result<Beginning, Fail> {
    let entries = book.len().saturating_add(numbers.below(31));
    let limit = u32::try_from(entries)?.clamp(1, MANY);
    Ok(Beginning::after(book.write_register(alloc)?, limit))
}

/// An empty book of up to thirty entries, one that is never full, or one that goes on from a register.
fn beginning(alloc: Global, numbers: &mut Numbers, stock: &[Vec<u8>]) -> Result<Beginning, Fail> {
    match numbers.below(3) {
        0 => Ok(Beginning::empty(MANY)),
        1 => Ok(Beginning::empty(1 + numbers.below(30) as u32)),
        _ => continued(alloc, numbers, stock),
    }
}

/// The next set.
fn make_set<'a>(
    alloc: Global,
    numbers: &mut Numbers,
    stock: &'a [Vec<u8>],
) -> Result<Made<'a>, Fail> {
    let beginning = beginning(alloc, numbers, stock)?;
    let count = size(numbers);
    Ok(Made {
        inputs: inputs(alloc, numbers, stock, count)?,
        beginning,
    })
}

/// The kinds that came in all sets so far.
#[derive(Default, Drop)]
struct Came {
    ends: Ends,
    replies: Replies,
    sizes: Sizes,
}

impl Came {
    /// Counts the kinds that came in a set.
    fn count(&mut self, run: &MemoryRun) {
        for outcome in &run.outcomes {
            self.ends.count(outcome);
        }
        let mut opening: usize = 0;
        for entry in run.book.history() {
            if entry.session() == 0 {
                opening = opening.saturating_add(1);
            } else {
                self.replies.count(entry.reply());
            }
        }
        self.sizes.count(run.jobs.len(), opening > 0);
    }

    /// Each kind must have come.
    fn expect_all(&self) -> Result<(), Fail> {
        self.ends.expect_all()?;
        self.replies.expect_all()?;
        self.sizes.expect_all()
    }
}

/// Works a set in both ways. `rt` starts threads, and `alloc` allocates. `set` is worked, `number` is its number, and
/// `came` counts the kinds that came.
fn expect_set<T: Threads + Sync>(
    rt: &T,
    alloc: Global,
    set: &Made,
    number: u32,
    came: &mut Came,
) -> Result<(), Fail> {
    let what = format!(in alloc; "set {number}")?;
    let run = expect_as_in_turn(rt, alloc, &what, &set.beginning, &set.inputs)?;
    came.count(&run);
    Ok(())
}

/// Works the sets of a seed in both ways. All kinds must come.
fn expect_sets<T: Threads + Sync>(rt: &T, alloc: Global, seed: u64) -> Result<(), Fail> {
    let stock = stock(alloc)?;
    let mut numbers = Numbers::of(seed);
    let mut came = Came::default();
    for number in 0..SETS {
        let set = make_set(alloc, &mut numbers, &stock)?;
        expect_set(rt, alloc, &set, number, &mut came)?;
    }
    came.expect_all()
}

#[test]
fn sets_of_a_seed(rt: HostRuntime) -> Result<(), Fail> {
    expect_sets(&rt, rt.alloc(), 1)
}

#[test]
fn sets_of_another_seed(rt: HostRuntime) -> Result<(), Fail> {
    expect_sets(&rt, rt.alloc(), 2)
}
