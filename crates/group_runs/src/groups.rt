//! Any number of jobs, of which one group after another is worked.
ghost use Rattle.std.specs.Prelude.{All, List, IfOk, IfErr, OnOk, OnErr, reverse, take, drop, ◌≡◌, ◌+◌, ◌-◌, ◌++◌, ◌<◌, ◌≤◌, [], true, false, length, vec_len, vec_capacity};
ghost use Rattle.cwr_record.specs.Stamp.{StampParts};
ghost use Rattle.work_registry.specs.BookValue.{BookValue};
ghost use Rattle.work_registry.specs.Replay.{is_opening};
ghost use Rattle.cwr_engine.specs.Account.{JobAccount};
ghost use Rattle.cwr_engine.specs.WholeRun.{InTurn, IsRun};
ghost use Rattle.cwr_engine.specs.declared.jobs.Job.{Job};
ghost use Rattle.group_runs.specs.LongRun.{IsCutShort, IsLongRun};
ghost use Rattle.group_runs.specs.Standing.{AreWorking, IsBetween, IsTaken, WasServed};

use crate::run_listener::RunListener;
use byte_streams::{Sink, Source};
use cwr_engine::{FileOutcome, Job, Run, ServeRefused};
use cwr_field::Memory;
use std::alloc::{Allocator, Global};
use work_registry::Book;

/// The most jobs of a group: a session of the book for each.
const GROUP: usize = 63;

/// A run that ended before its last job, since memory was refused.
///
/// Some groups from the first on were worked, and their entries are in the book. The jobs behind them were not begun.
#[derive(Drop)]
pub struct RunCutShort<R, W, A: Allocator + Copy + Drop = Global> {
    /// The book, with the entries of the jobs that were worked.
    pub book: Book<A>,
    /// How the jobs ended that were worked, in the order of the jobs.
    pub outcomes: Vec<FileOutcome, A>,
    /// All jobs in their order: first those that were worked, then the others as they were.
    pub jobs: Vec<Job<R, W>, A>,
}

/// A run between two groups: what was worked so far, and the jobs that are left.
#[derive(Drop)]
pub struct Between<R, W, A: Allocator + Copy + Drop = Global> {
    /// The book, with all its entries of the opening, and the jobs that have ended. There is room for all others
    /// behind them.
    pub run: Run<R, W, A>,
    /// The jobs that are left, in reverse order.
    pub left: Vec<Job<R, W>, A>,
}

/// A run whose next group was taken from it, to be worked.
#[derive(Drop)]
pub struct Taken<R, W, A: Allocator + Copy + Drop = Global> {
    outcomes: Vec<FileOutcome, A>,
    jobs: Vec<Job<R, W>, A>,
    left: Vec<Job<R, W>, A>,
}

/// A group that is to be worked.
#[derive(Drop)]
pub struct Group<R, W, A: Allocator + Copy + Drop = Global> {
    /// The book that the groups before left, with all its entries of the opening.
    pub book: Book<A>,
    /// At most 63 jobs, in their order.
    pub jobs: Vec<Job<R, W>, A>,
}

impl<R: Drop, W: Drop, A: Allocator + Copy + Drop> Between<R, W, A> {
    /// Before the first group. Memory for the lists of the whole run is asked for.
    pub fn begin(
        alloc: A,
        mut jobs: Vec<Job<R, W>, A>,
        book: Book<A>,
    ) -> Result<Between<R, W, A>, RunCutShort<R, W, A>>
    where
        R: Source,
        W: Sink,
        requires opening { is_opening book.history ≡ true }
        requires works { AreWorking R.Source W.Sink jobs.items }
        ensures between { IfOk result (λ between. (stamp : StampParts) → IsBetween R.Source W.Sink (JobAccount R.Source W.Sink stamp false)
            book jobs.items between.run.book between.run.jobs between.run.outcomes between.left) }
        ensures cut_short { IfErr result (λ cut. (stamp : StampParts) → IsCutShort (JobAccount R.Source W.Sink stamp false)
            book cut.book jobs.items cut.jobs.items cut.outcomes.items) }
    {
        book.recall();
        let Ok((ended, outcomes)) = room_for(alloc, jobs.len()) else {
            return Err(RunCutShort {
                book,
                outcomes: Vec::new(alloc),
                jobs,
            });
        };
        jobs.reverse();
        let run = Run {
            book,
            outcomes,
            jobs: ended,
        };
        Ok(Between { run, left: jobs })
    }

    /// Takes the next group from the run, at most 63 of the jobs that are left, of which there are some.
    pub fn take_group(self) -> Result<(Taken<R, W, A>, Group<R, W, A>), RunCutShort<R, W, A>>
    where
        R: Source,
        W: Sink,
        requires some { 0 < vec_len self.left }
        requires between { (stamp : StampParts) × (opening : BookValue) × (all : List (Job R W)) × IsBetween R.Source W.Sink (JobAccount R.Source W.Sink stamp false)
            opening all self.run.book self.run.jobs self.run.outcomes self.left }
        ensures taken { IfOk result (λ t. (stamp : StampParts) (opening : BookValue) (all : List (Job R W))
            → IsBetween R.Source W.Sink (JobAccount R.Source W.Sink stamp false) opening all self.run.book self.run.jobs self.run.outcomes self.left
            → IsTaken R.Source W.Sink (JobAccount R.Source W.Sink stamp false) opening all t.1.book t.1.jobs.items t.0.jobs t.0.outcomes t.0.left) }
        ensures few { IfOk result (λ t. vec_len t.1.jobs < 64) }
        ensures opened { IfOk result (λ t. is_opening t.1.book.history ≡ true) }
        ensures works { IfOk result (λ t. AreWorking R.Source W.Sink t.1.jobs.items) }
        ensures fewer { IfOk result (λ t. vec_len t.0.left < vec_len self.left) }
        ensures cut_short { IfErr result (λ cut. (stamp : StampParts) (opening : BookValue) (all : List (Job R W))
            → IsBetween R.Source W.Sink (JobAccount R.Source W.Sink stamp false) opening all self.run.book self.run.jobs self.run.outcomes self.left
            → IsCutShort (JobAccount R.Source W.Sink stamp false) opening cut.book all cut.jobs.items cut.outcomes.items) }
    {
        let Between { run, mut left } = self;
        let Run {
            book,
            outcomes,
            jobs,
        } = run;
        match next_group(&mut left) {
            Ok(group) => {
                let taken = Taken {
                    outcomes,
                    jobs,
                    left,
                };
                Ok((taken, Group { book, jobs: group }))
            }
            Err(_) => Err(cut_short(book, outcomes, jobs, left)),
        }
    }
}

impl<R: Drop, W: Drop, A: Allocator + Copy + Drop> Taken<R, W, A> {
    /// Puts what working the group left behind what was worked before, and makes all entries those of the opening. A
    /// listener is told of the group.
    ///
    /// Where memory for the group was refused, the run ends before it.
    pub fn put_group<L: RunListener>(
        self,
        served: Result<Run<R, W, A>, ServeRefused<R, W, A>>,
        listener: &L,
    ) -> Result<Between<R, W, A>, RunCutShort<R, W, A>>
    where
        R: Source,
        W: Sink,
        requires served { (stamp : StampParts) × (opening before : BookValue) × (all group : List (Job R W))
            × IsTaken R.Source W.Sink (JobAccount R.Source W.Sink stamp false) opening all before group self.jobs self.outcomes self.left
            × WasServed (JobAccount R.Source W.Sink stamp false) before group served }
        ensures between { IfOk result (λ next. (stamp : StampParts) (opening before : BookValue) (all group : List (Job R W))
            → IsTaken R.Source W.Sink (JobAccount R.Source W.Sink stamp false) opening all before group self.jobs self.outcomes self.left
            → WasServed (JobAccount R.Source W.Sink stamp false) before group served
            → IsBetween R.Source W.Sink (JobAccount R.Source W.Sink stamp false) opening all next.run.book next.run.jobs next.run.outcomes next.left) }
        ensures left { IfOk result (λ next. vec_len next.left ≡ vec_len self.left) }
        ensures cut_short { IfErr result (λ cut. (stamp : StampParts) (opening before : BookValue) (all group : List (Job R W))
            → IsTaken R.Source W.Sink (JobAccount R.Source W.Sink stamp false) opening all before group self.jobs self.outcomes self.left
            → WasServed (JobAccount R.Source W.Sink stamp false) before group served
            → IsCutShort (JobAccount R.Source W.Sink stamp false) opening cut.book all cut.jobs.items cut.outcomes.items) }
    {
        let Taken {
            outcomes,
            jobs,
            left,
        } = self;
        match served {
            Ok(worked) => {
                let Run {
                    book,
                    outcomes: ends,
                    jobs: group,
                } = worked;
                listener.ended(outcomes.len(), &ends);
                let book = book.reopened();
                book.recall();
                let run = Run {
                    book,
                    outcomes: with_behind(outcomes, ends),
                    jobs: with_behind(jobs, group),
                };
                Ok(Between { run, left })
            }
            Err(ServeRefused { book, jobs: group }) => {
                Err(cut_short(book, outcomes, with_behind(jobs, group), left))
            }
        }
    }
}

/// Empty lists with room for the jobs that have ended, and for how each ended.
fn room_for<R: Drop, W: Drop, A: Allocator + Copy + Drop>(
    alloc: A,
    count: usize,
) -> Result<(Vec<Job<R, W>, A>, Vec<FileOutcome, A>), Memory>
    ensures jobs_none { IfOk result (λ lists. lists.0.items ≡ []) }
    ensures outcomes_none { IfOk result (λ lists. lists.1.items ≡ []) }
    ensures jobs { IfOk result (λ lists. count ≤ vec_capacity lists.0) }
    ensures outcomes { IfOk result (λ lists. count ≤ vec_capacity lists.1) }
{
    let jobs = Vec::with_capacity(alloc, count)?;
    let outcomes = Vec::with_capacity(alloc, count)?;
    Ok((jobs, outcomes))
}

/// Takes the next group off the jobs that are left, which stand in reverse order. The group stands in order.
fn next_group<R: Drop, W: Drop, A: Allocator + Copy + Drop>(
    left: &mut Vec<Job<R, W>, A>,
) -> Result<Vec<Job<R, W>, A>, Memory>
    ensures group { IfOk result (λ group. group.items ≡ reverse (drop (vec_len left.old - 63) left.old.items)) }
    ensures rest { OnOk result (left.new.items ≡ take (vec_len left.old - 63) left.old.items) }
    ensures few { IfOk result (λ group. vec_len group < 64) }
    ensures count { IfOk result (λ group. vec_len group + vec_len left.new ≡ vec_len left.old) }
    ensures some { OnOk result (0 < vec_len left.old → vec_len left.new < vec_len left.old) }
    ensures unchanged { OnErr result (left.new ≡ left.old) }
{
    let at = left.len().saturating_sub(GROUP);
    let mut group = left.split_off(at)?;
    group.reverse();
    Ok(group)
}

/// A run that was refused memory before the jobs that are left, which stand in reverse order.
fn cut_short<R: Drop, W: Drop, A: Allocator + Copy + Drop>(
    book: Book<A>,
    outcomes: Vec<FileOutcome, A>,
    jobs: Vec<Job<R, W>, A>,
    mut left: Vec<Job<R, W>, A>,
) -> RunCutShort<R, W, A>
    requires { vec_len jobs + vec_len left ≤ vec_capacity jobs }
    ensures book { result.book ≡ book }
    ensures outcomes { result.outcomes.items ≡ outcomes.items }
    ensures jobs { result.jobs.items ≡ jobs.items ++ reverse left.items }
{
    left.reverse();
    RunCutShort {
        book,
        outcomes,
        jobs: with_behind(jobs, left),
    }
}

/// A list with another one behind it, for which there is room.
fn with_behind<T: Drop, A: Allocator + Copy + Drop>(
    mut list: Vec<T, A>,
    mut more: Vec<T, A>,
) -> Vec<T, A>
    requires { vec_len list + vec_len more ≤ vec_capacity list }
    ensures items { result.items ≡ list.items ++ more.items }
    ensures len { vec_len result ≡ vec_len list + vec_len more }
    ensures room { vec_capacity list ≤ vec_capacity result }
{
    let Ok(()) = list.append(&mut more) else {
        unreachable!()
    };
    list
}
