//! Jobs decided in their order, while threads read the files of the next ones and write acknowledgements of those
//! before.
ghost use Rattle.std.specs.Prelude.{All, IfOk, IfErr, ◌≡◌, ◌+◌, ◌++◌, ◌<◌, ◌≤◌, [], false, true, map, reverse, vec_len, vec_capacity};
ghost use Rattle.std.specs.Thread.{IsSync};
ghost use Rattle.work_registry.specs.Replay.{is_opening};
ghost use Rattle.cwr_engine.specs.Account.{JobAccount};
ghost use Rattle.cwr_engine.specs.JobSteps.{HasAnswered, WasRead};
ghost use Rattle.cwr_engine.specs.WholeRun.{InTurn, IsRun};
ghost use Rattle.cwr_desk.specs.Ordered.{HasDecidedGroup, HasOrdered, HasReadGroup, IsGroupReady, IsGroupUnread, IsRunReady, group_size};

use byte_streams::{Sink, Source};
use cwr_engine::{
    DecidedJob, FileOutcome, Job, ReadJob, Run, ServeRefused, answer_job, decide_job, read_job,
    serve_in_turn,
};
use cwr_field::Memory;
use cwr_record::Stamp;
use std::alloc::Allocator;
use std::thread::{Threads, available_parallelism, join};
use work_registry::Book;

/// The number of files that are read at the same time: twice the processors of a small machine, so that none is idle if
/// one file is longer than the others. The calls of two such groups are held.
const GROUP: usize = 8;

/// The number of transactions from which an acknowledgement is long: worth a thread to write it.
const LONG: usize = 1_000;

/// The result of reading a group: the jobs that are still unread, and those that were read. Both lists are in reverse
/// order.
type GroupRead<R, W, A> = (Vec<Job<R, W>, A>, Vec<ReadJob<R, W, A>, A>);

/// The result of deciding a group: the book, the group's list, empty, and the jobs with how they ended, the first of
/// them last.
type GroupDecided<R, W, A> = (
    Book<A>,
    Vec<ReadJob<R, W, A>, A>,
    Vec<(Job<R, W>, FileOutcome), A>,
);

/// Works jobs in their order, as [`serve_in_turn`](crate::serve_in_turn) does, but with threads. Job i, counted from 1,
/// is session i of the book.
///
/// Jobs are decided on the calling thread, one after the other. Meanwhile the files of the next eight jobs are read and
/// judged, each on a thread of its own, and acknowledgements of 1,000 transactions or more are written on threads. So
/// the calls of at most sixteen files are held beside the book. A reader that does not return holds up the jobs of its
/// eight and those behind them; a writer those behind its eight. If the runtime refuses a thread, its work is done on
/// the thread that would have started it. If the process has one processor, the jobs are worked in turn, and no thread
/// is started.
///
/// A job that is refused or stopped does not stop the next one. There may be at most 63 jobs, and all entries of the
/// book must be of the opening. The run's own memory is allocated first. If that fails no job is begun, and the book
/// and the jobs come back as they were.
///
/// `rt` starts threads, `alloc` allocates, and `jobs` are worked into `book`. `stamp` is that of all acknowledgements.
pub fn serve_in_order<
    T: Threads + Sync,
    R: Source + Send + Drop,
    W: Sink + Send + Drop,
    A: Allocator + Copy + Drop + Send + Sync,
>(
    rt: &T,
    alloc: A,
    mut jobs: Vec<Job<R, W>, A>,
    book: Book<A>,
    stamp: &Stamp,
) -> Result<Run<R, W, A>, ServeRefused<R, W, A>>
    requires few { vec_len jobs < 64 }
    requires opening { is_opening book.history ≡ true }
    requires works { All (λ j. (R.has_failed j.reader ≡ false) × (W.has_failed j.writer ≡ false)) jobs.items }
    ensures run { IfOk result (λ run. IsRun (JobAccount R.Source W.Sink stamp.now false)
        book run.book jobs.items run.jobs.items run.outcomes.items) }
    ensures in_turn { IfOk result (λ run. InTurn book.limit run.book.history 1 book.history run.outcomes.items) }
    ensures back { IfErr result (λ back. (back.book ≡ book) × (back.jobs.items ≡ jobs.items)) }
{
    if has_one_processor(rt) {
        return serve_in_turn(alloc, jobs, book, stamp);
    }
    let Ok(lists) = Lists::for_jobs(alloc, jobs.len()) else {
        return Err(ServeRefused { book, jobs });
    };
    let Lists {
        outcomes,
        worked_jobs,
        read,
        next,
        worked,
    } = lists;
    jobs.reverse();
    let (jobs, read) = read_group(rt, alloc, jobs, read, GROUP);
    let begun = Run {
        book,
        outcomes,
        jobs: worked_jobs,
    };
    let run = order_from(rt, alloc, begun, read, jobs, next, worked, stamp);
    run.book.recall();
    Ok(run)
}

/// Whether the process may run on one processor alone.
fn has_one_processor<T: Threads>(rt: &T) -> bool {
    match available_parallelism(rt) {
        Ok(count) => count.get() == 1,
        Err(_) => false,
    }
}

/// The lists of a run, with capacity for what they will hold.
#[derive(Drop)]
struct Lists<R, W, A: Allocator> {
    /// How each job ended.
    outcomes: Vec<FileOutcome, A>,
    /// The jobs that have ended, in the same order.
    worked_jobs: Vec<Job<R, W>, A>,
    /// The group that is decided.
    read: Vec<ReadJob<R, W, A>, A>,
    /// The group that is read meanwhile.
    next: Vec<ReadJob<R, W, A>, A>,
    /// The jobs of a group that have ended.
    worked: Vec<(Job<R, W>, FileOutcome), A>,
}

impl<R: Drop, W: Drop, A: Allocator + Copy + Drop> Lists<R, W, A> {
    /// Empty lists for a run of `count` jobs.
    fn for_jobs(alloc: A, count: usize) -> Result<Lists<R, W, A>, Memory>
        ensures outcomes { IfOk result (λ lists. (lists.outcomes.items ≡ []) × (count ≤ vec_capacity lists.outcomes)) }
        ensures worked_jobs { IfOk result (λ lists. (lists.worked_jobs.items ≡ []) × (count ≤ vec_capacity lists.worked_jobs)) }
        ensures read { IfOk result (λ lists. (lists.read.items ≡ []) × (group_size ≤ vec_capacity lists.read)) }
        ensures next { IfOk result (λ lists. (lists.next.items ≡ []) × (group_size ≤ vec_capacity lists.next)) }
        ensures worked { IfOk result (λ lists. (lists.worked.items ≡ []) × (group_size ≤ vec_capacity lists.worked)) }
    {
        Ok(Lists {
            outcomes: Vec::with_capacity(alloc, count)?,
            worked_jobs: Vec::with_capacity(alloc, count)?,
            read: Vec::with_capacity(alloc, GROUP)?,
            next: Vec::with_capacity(alloc, GROUP)?,
            worked: Vec::with_capacity(alloc, GROUP)?,
        })
    }
}

/// Reads and judges the files of the first jobs, at most `most` of them.
///
/// `rt` starts threads, and `alloc` allocates. `jobs` has the jobs of the run that are not read yet, and `group` those
/// that are read, which the new ones are added to. Each list is in reverse order.
#[cycle(reading)]
fn read_group<
    T: Threads + Sync,
    R: Source + Send + Drop,
    W: Sink + Send + Drop,
    A: Allocator + Copy + Drop + Send + Sync,
>(
    rt: &T,
    alloc: A,
    mut jobs: Vec<Job<R, W>, A>,
    group: Vec<ReadJob<R, W, A>, A>,
    most: usize,
) -> GroupRead<R, W, A>
    requires ready { IsGroupUnread R.Source W.Sink most jobs group }
    ensures { HasReadGroup R.Source W.Sink most jobs result.0 group result.1 }
{
    if most == 0 {
        return (jobs, group);
    }
    let Some(job) = jobs.pop() else {
        return (jobs, group);
    };
    let (read, (jobs, mut group)) = read_beside(rt, alloc, job, jobs, group, most - 1);
    let Ok(()) = group.push(read) else {
        unreachable!()
    };
    (jobs, group)
}

/// Reads the file of a job on a thread of its own, beside those of the jobs behind it. If there are none of those to
/// read, it is read on this thread.
///
/// `rt` starts threads, `alloc` allocates, and `job` is read. `jobs` has the jobs behind it, of which at most `most`
/// are read, and added to `group`. Each list is in reverse order.
#[cycle(reading)]
fn read_beside<
    T: Threads + Sync,
    R: Source + Send + Drop,
    W: Sink + Send + Drop,
    A: Allocator + Copy + Drop + Send + Sync,
>(
    rt: &T,
    alloc: A,
    job: Job<R, W>,
    jobs: Vec<Job<R, W>, A>,
    group: Vec<ReadJob<R, W, A>, A>,
    most: usize,
) -> (ReadJob<R, W, A>, GroupRead<R, W, A>)
    requires reads { R.has_failed job.reader ≡ false }
    requires ready { IsGroupUnread R.Source W.Sink most jobs group }
    ensures first { WasRead R.Source job result.0 }
    ensures others { HasReadGroup R.Source W.Sink most jobs result.1.0 group result.1.1 }
{
    if most.min(jobs.len()) == 0 {
        return (read_job(alloc, job), (jobs, group));
    }
    join(
        rt,
        move || -> ReadJob<R, W, A>
            requires { R.has_failed job.reader ≡ false }
            ensures { WasRead R.Source job result }
        { read_job(alloc, job) },
        move || -> GroupRead<R, W, A>
            requires { IsSync T.row × IsGroupUnread R.Source W.Sink most jobs group }
            ensures { HasReadGroup R.Source W.Sink most jobs result.0 group result.1 }
        { read_group(rt, alloc, jobs, group, most) },
    )
}

/// Decides the jobs of a group at a book, the last of the list first, and writes their acknowledgements. The list of
/// the group comes back empty.
///
/// `rt` starts threads, and `alloc` allocates. The jobs of `group` are decided at `book`, as sessions from `session`
/// on. `worked` is empty at first, and gets the jobs with how they ended, in reverse order. `stamp` is that of
/// all acknowledgements.
#[cycle(deciding)]
fn decide_group<
    T: Threads + Sync,
    R: Source + Send + Drop,
    W: Sink + Send + Drop,
    A: Allocator + Copy + Drop + Send + Sync,
>(
    rt: &T,
    alloc: A,
    book: Book<A>,
    session: u32,
    mut group: Vec<ReadJob<R, W, A>, A>,
    worked: Vec<(Job<R, W>, FileOutcome), A>,
    stamp: &Stamp,
) -> GroupDecided<R, W, A>
    requires ready { IsGroupReady R.Source W.Sink session group worked }
    ensures { HasDecidedGroup R.Source W.Sink (JobAccount R.Source W.Sink stamp.now false)
        session book result.0 group result.1 worked result.2 }
{
    let Some(read) = group.pop() else {
        return (book, group, worked);
    };
    let (book, decided) = decide_job(alloc, book, session, read);
    let (ended, (book, group, mut worked)) = answer_beside(
        rt,
        alloc,
        decided,
        book,
        session + 1,
        group,
        worked,
        stamp,
    );
    let Ok(()) = worked.push(ended) else {
        unreachable!()
    };
    (book, group, worked)
}

/// Writes the acknowledgement of a job on a thread of its own, while those behind it are decided. A short
/// acknowledgement is written on this thread, and so is the last of a group.
///
/// `rt` starts threads, `alloc` allocates, and `job` is the one to acknowledge. The jobs of `group` are those behind
/// it, which are decided at `book` as sessions from `session` on, and added to `worked`. `stamp` is that of all
/// acknowledgements.
#[cycle(deciding)]
fn answer_beside<
    T: Threads + Sync,
    R: Source + Send + Drop,
    W: Sink + Send + Drop,
    A: Allocator + Copy + Drop + Send + Sync,
>(
    rt: &T,
    alloc: A,
    job: DecidedJob<R, W, A>,
    book: Book<A>,
    session: u32,
    group: Vec<ReadJob<R, W, A>, A>,
    worked: Vec<(Job<R, W>, FileOutcome), A>,
    stamp: &Stamp,
) -> ((Job<R, W>, FileOutcome), GroupDecided<R, W, A>)
    requires writes { W.has_failed job.job.writer ≡ false }
    requires ready { IsGroupReady R.Source W.Sink session group worked }
    ensures first { HasAnswered R.Source W.Sink stamp.now job result.0.0 result.0.1 }
    ensures others { HasDecidedGroup R.Source W.Sink (JobAccount R.Source W.Sink stamp.now false)
        session book result.1.0 group result.1.1 worked result.1.2 }
{
    if !is_long(&job) || group.is_empty() {
        let ended = answer_job(alloc, job, stamp);
        let others = decide_group(rt, alloc, book, session, group, worked, stamp);
        return (ended, others);
    }
    join(
        rt,
        move || -> (Job<R, W>, FileOutcome)
            requires { W.has_failed job.job.writer ≡ false }
            ensures { HasAnswered R.Source W.Sink stamp.entry.now job result.0 result.1 }
        { answer_job(alloc, job, stamp) },
        move || -> GroupDecided<R, W, A>
            requires { IsSync T.row × IsGroupReady R.Source W.Sink session group worked }
            ensures { HasDecidedGroup R.Source W.Sink (JobAccount R.Source W.Sink stamp.entry.now false)
                session book result.0 group result.1 worked result.2 }
        { decide_group(rt, alloc, book, session, group, worked, stamp) },
    )
}

/// Whether a job has a long acknowledgement: a thread for a short one would take longer to start than the writing.
fn is_long<R, W, A: Allocator>(decided: &DecidedJob<R, W, A>) -> bool {
    match &decided.file {
        Ok(file) => file.len() >= LONG,
        Err(_) => false,
    }
}

/// Decides a group that was read, and then the jobs that are left after it.
///
/// `rt` starts threads, and `alloc` allocates. `run` has the book and the jobs that have ended. `group` has the jobs
/// that were read, and `jobs` those that are left, each list in reverse order. `next` and `worked` are empty
/// lists for the next group and for the jobs of this one that have ended. `stamp` is that of all acknowledgements.
fn order_from<
    T: Threads + Sync,
    R: Source + Send + Drop,
    W: Sink + Send + Drop,
    A: Allocator + Copy + Drop + Send + Sync,
>(
    rt: &T,
    alloc: A,
    run: Run<R, W, A>,
    group: Vec<ReadJob<R, W, A>, A>,
    jobs: Vec<Job<R, W>, A>,
    next: Vec<ReadJob<R, W, A>, A>,
    worked: Vec<(Job<R, W>, FileOutcome), A>,
    stamp: &Stamp,
) -> Run<R, W, A>
    requires ready { IsRunReady R.Source W.Sink run.jobs run.outcomes group jobs next worked }
    ensures { HasOrdered R.Source W.Sink (JobAccount R.Source W.Sink stamp.now false)
        run.book run.jobs run.outcomes group jobs result.book result.jobs result.outcomes }
{
    if group.is_empty() {
        return run;
    }
    let Run {
        book,
        mut outcomes,
        jobs: mut ended,
    } = run;
    let session = ended.len() as u32 + 1;
    let ((jobs, next), (book, group, mut worked)) = decide_and_read(
        rt, alloc, book, session, group, worked, jobs, next, stamp,
    );
    put_behind(&mut ended, &mut outcomes, &mut worked);
    let run = Run {
        book,
        outcomes,
        jobs: ended,
    };
    order_from(rt, alloc, run, next, jobs, group, worked, stamp)
}

/// Decides the jobs of a group that was read, and writes their acknowledgements. At the same time the files of the next
/// jobs, at most eight, are read. If no job is left, nothing is read.
///
/// `rt` starts threads, and `alloc` allocates. The jobs of `group` are decided at `book`, as sessions from `session` on.
/// `jobs` are those that are unread. `next` and `worked` are empty lists: `next` gets the jobs that are read, `worked`
/// those that have ended. All lists are in reverse order: the first job is the last element. `stamp` is that of all
/// acknowledgements.
///
/// It returns first what reading leaves: the jobs that are still unread, and `next`. Then it returns what deciding
/// leaves: the book, `group`, now empty, and `worked`, with how each job ended.
fn decide_and_read<
    T: Threads + Sync,
    R: Source + Send + Drop,
    W: Sink + Send + Drop,
    A: Allocator + Copy + Drop + Send + Sync,
>(
    rt: &T,
    alloc: A,
    book: Book<A>,
    session: u32,
    group: Vec<ReadJob<R, W, A>, A>,
    worked: Vec<(Job<R, W>, FileOutcome), A>,
    jobs: Vec<Job<R, W>, A>,
    next: Vec<ReadJob<R, W, A>, A>,
    stamp: &Stamp,
) -> (GroupRead<R, W, A>, GroupDecided<R, W, A>)
    requires ready { IsGroupReady R.Source W.Sink session group worked }
    requires unread { IsGroupUnread R.Source W.Sink group_size jobs next }
    ensures read { HasReadGroup R.Source W.Sink group_size jobs result.0.0 next result.0.1 }
    ensures decided { HasDecidedGroup R.Source W.Sink (JobAccount R.Source W.Sink stamp.now false)
        session book result.1.0 group result.1.1 worked result.1.2 }
{
    if jobs.is_empty() {
        let decided = decide_group(rt, alloc, book, session, group, worked, stamp);
        return ((jobs, next), decided);
    }
    join(
        rt,
        move || -> GroupRead<R, W, A>
            requires { IsSync T.row × IsGroupUnread R.Source W.Sink group_size jobs next }
            ensures { HasReadGroup R.Source W.Sink group_size jobs result.0 next result.1 }
        { read_group(rt, alloc, jobs, next, GROUP) },
        move || -> GroupDecided<R, W, A>
            requires { IsSync T.row × IsGroupReady R.Source W.Sink session group worked }
            ensures { HasDecidedGroup R.Source W.Sink (JobAccount R.Source W.Sink stamp.entry.now false)
                session book result.0 group result.1 worked result.2 }
        { decide_group(rt, alloc, book, session, group, worked, stamp) },
    )
}

/// Puts jobs that have ended, which stand in reverse order, behind those before, and leaves their list empty.
fn put_behind<R: Drop, W: Drop, A: Allocator + Copy + Drop>(
    jobs: &mut Vec<Job<R, W>, A>,
    outcomes: &mut Vec<FileOutcome, A>,
    worked: &mut Vec<(Job<R, W>, FileOutcome), A>,
)
    requires jobs { vec_len jobs.old + vec_len worked.old ≤ vec_capacity jobs.old }
    requires outcomes { vec_len outcomes.old + vec_len worked.old ≤ vec_capacity outcomes.old }
    ensures jobs { jobs.new.items ≡ jobs.old.items ++ map (λ w. w.0) (reverse worked.old.items) }
    ensures outcomes { outcomes.new.items ≡ outcomes.old.items ++ map (λ w. w.1) (reverse worked.old.items) }
    ensures jobs_count { vec_len jobs.new ≡ vec_len jobs.old + vec_len worked.old }
    ensures outcomes_count { vec_len outcomes.new ≡ vec_len outcomes.old + vec_len worked.old }
    ensures emptied { worked.new.items ≡ [] }
    ensures jobs_room { vec_capacity jobs.old ≤ vec_capacity jobs.new }
    ensures outcomes_room { vec_capacity outcomes.old ≤ vec_capacity outcomes.new }
    ensures worked_room { vec_capacity worked.old ≤ vec_capacity worked.new }
{
    let Some((job, outcome)) = worked.pop() else {
        return;
    };
    let Ok(()) = jobs.push(job) else {
        unreachable!()
    };
    let Ok(()) = outcomes.push(outcome) else {
        unreachable!()
    };
    put_behind(jobs, outcomes, worked);
}
