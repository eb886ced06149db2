//! One job at a seat of the running desk.
ghost use Rattle.std.specs.Prelude.{◌≡◌, ◌≢◌, ◌≤◌, ◌+◌, Some, false};
ghost use Rattle.registry_desk.specs.Views.{max_turns};
ghost use Rattle.cwr_engine.specs.Account.{JobAccount, ends_of, read_ends, write_ends};
ghost use Rattle.cwr_engine.specs.Causes.{ends_full, marked_by};
ghost use Rattle.cwr_engine.specs.Handing.{IsWorked, max_handed};
ghost use Rattle.cwr_desk.specs.Ran.{MayWork, HasWorked};
ghost use Rattle.cwr_desk.specs.Sights.{entries_of, saw_full};

use crate::at_desk::AtDesk;
use byte_streams::{Sink, Source};
use cwr_engine::{FileOutcome, Gate, Job, work_file};
use cwr_record::Stamp;
use registry_desk::{Desk, Seat};
use std::alloc::Allocator;
use std::sync::Wait;

/// Works one file at a seat: reads it to its end, hands its transactions in, in file order, and writes their
/// acknowledgement.
///
/// A transaction that gets no reply ends the job, and the entries made before it stay. The seat comes back with the
/// outcome. It is marked if the book was full for the job, and else as it was. The call waits whenever another seat is
/// inside.
///
/// `rt` waits, and `alloc` allocates. `seat` is one of `desk`, not the opening one, and has at least 99,999,995 turns
/// left, one for each transaction that a file may have. `reader` gives the file, and `writer` takes the
/// acknowledgement, which has the stamp `stamp`. `gate` is passed before and after each transaction, as worker
/// `worker`, which is the seat's session.
///
/// That the gate is passed before and after each transaction is tested only. What is proved is that a job stops for the
/// gate only if the gate may close, and with a transaction of the file left.
///
/// # Examples
///
/// One file, `one`, at the first seat of a desk with one worker.
///
/// ```rust
/// let Ok((desk, mut opening)) = Desk::open(alloc, Book::new(alloc, 100), 2) else {
///     return Err(Fail::from("memory"));
/// };
/// let first = desk.split(&mut opening);
/// let mut reader = Feed::new(one, 4096, None);
/// let mut writer = Room::new(alloc, 425, true)?;
/// let (first, first_end) = work(
///     rt, alloc, &desk, first, &mut reader, &mut writer, &stamp, &OpenGate, 1,
/// );
/// desk.meet(&mut opening, first);
/// let book = desk.close(opening);
/// ```
pub fn work<T: Wait, R: Source, W: Sink, G: Gate, A: Allocator + Copy + Drop>(
    rt: &T,
    alloc: A,
    desk: &Desk<A>,
    seat: Seat<A>,
    reader: &mut R,
    writer: &mut W,
    stamp: &Stamp,
    gate: &G,
    worker: u32,
) -> (Seat<A>, FileOutcome)
    requires desk { seat.desk ≡ desk.now }
    requires guest { seat.view.session ≢ 0 }
    requires worker { seat.view.session ≡ worker }
    requires turns { seat.view.turns + max_handed ≤ max_turns }
    requires reads { R.has_failed reader.old ≡ false }
    requires writes { W.has_failed writer.old ≡ false }
    ensures desk { result.0.desk ≡ desk.now }
    ensures session { result.0.view.session ≡ seat.view.session }
    ensures limit { result.0.view.limit ≡ seat.view.limit }
    ensures marked { Some result.0.view.marked ≡ marked_by (ends_full result.1) (Some seat.view.marked) }
    ensures worked { IsWorked seat.view.session (ends_of (read_ends R.Source reader.old reader.new) (write_ends W.Sink writer.old writer.new)
        (saw_full seat.view.limit result.0.view.front) (G.may_shut gate.now)) stamp.now result.1 (entries_of seat.view) (entries_of result.0.view) }
{
    let registry = AtDesk { rt, desk, seat };
    let (registry, outcome) = work_file(alloc, registry, gate, worker, reader, writer, stamp);
    let AtDesk {
        rt: _,
        desk: _,
        seat,
    } = registry;
    (seat, outcome)
}

/// Works a job at a new seat.
///
/// `rt` waits, and `alloc` allocates. `seat` is a new seat of `desk`, and `job` has the reader and the writer. `stamp`
/// is that of the acknowledgement, and `gate` is passed before and after each transaction.
pub(crate) fn work_job<
    T: Wait,
    R: Source + Drop,
    W: Sink + Drop,
    G: Gate,
    A: Allocator + Copy + Drop,
>(
    rt: &T,
    alloc: A,
    desk: &Desk<A>,
    seat: Seat<A>,
    mut job: Job<R, W>,
    stamp: &Stamp,
    gate: &G,
) -> (Seat<A>, Job<R, W>, FileOutcome)
    requires ready { MayWork R.Source W.Sink desk.now seat job }
    ensures worked { HasWorked (JobAccount R.Source W.Sink stamp.now (G.may_shut gate.now))
        desk.now seat result.0 job result.1 result.2 }
{
    let worker = seat.session();
    let (seat, outcome) = work(
        rt,
        alloc,
        desk,
        seat,
        &mut job.reader,
        &mut job.writer,
        stamp,
        gate,
        worker,
    );
    (seat, job, outcome)
}
