//! What a run leaves: the register, and then the acknowledgements.

ghost use Rattle.std.specs.Prelude.{◌≡◌, false, IfSome};
ghost use Rattle.atomic_file.specs.Looking.{Only};

use crate::messages::print_reason;
use crate::output::{LeftDraft, OutputFile};
use crate::run_command::RunWords;
use crate::targets::Targets;
use atomic_file::{
    FileNames, Follower, Listener, Storage, SystemStorage, put_followers, remove_draft, sync_drafts,
};
use cwr_desk::Job;
use cwr_field::Memory;
use register_store::{KeepRegisterError, keep_register};
use std::alloc::Global;
use std::io;
use std::rt::Files;
use std::thread::Threads;
use work_registry::Book;

/// The acknowledgements that a run left as drafts.
#[derive(Drop)]
pub(crate) struct Waiting<'a> {
    /// Those that are complete, and wait for their names.
    names: Vec<&'a FileNames>,
    followers: Vec<Follower<'a>>,
    /// Those of which a write failed, which get no name.
    cut: Vec<&'a FileNames>,
}

impl<'a> Waiting<'a> {
    /// An empty list with capacity for `number` acknowledgements. No later call allocates.
    pub(crate) fn room_for(alloc: Global, number: usize) -> Result<Waiting<'a>, Memory> {
        Ok(Waiting {
            names: Vec::with_capacity(alloc, number)?,
            followers: Vec::with_capacity(alloc, number)?,
            cut: Vec::with_capacity(alloc, number)?,
        })
    }

    /// Adds an acknowledgement, which takes the place of an existing file if it `replaces` one.
    fn add(&mut self, names: &'a FileNames, replaces: bool) -> Result<(), Memory> {
        self.names.push(names)?;
        self.followers.push(Follower::new(names, replaces))?;
        Ok(())
    }
}

/// Prints on standard error what is written, and why a call of the system failed, if that is asked for.
#[derive(Drop)]
struct ErrorPrinter<'a, R> {
    rt: &'a R,
    verbose: bool,
}

impl<R: AllocGlobal + Eprint> Listener for ErrorPrinter<'_, R> {
    fn wrote(&self, names: &FileNames, bytes: usize) {
        if self.verbose {
            let _ = eprintln!(self.rt; "{}: written, {bytes} bytes", names.word());
        }
    }

    fn failed(&self, names: &FileNames, error: &io::Error) {
        if self.verbose {
            print_reason(self.rt, names.word(), error);
        }
    }
}

/// Keeps the register of a book, if one is asked for, and then gives the acknowledgements their names. Returns whether
/// all of it is in place. What is not is reported on standard error.
///
/// If the register cannot be kept, all drafts are removed, those of acknowledgements that were cut too, and earlier
/// files are as they were. Else a cut acknowledgement stays in its draft, and gets no name.
///
/// `rt` is the runtime, and `book` has the entries. `jobs` have left drafts, and `waiting` is an empty list for their
/// acknowledgements. `targets` has the names of the files that the run writes, and `words` its options.
pub(crate) fn keep_run<'a, I: Drop, R: AllocGlobal + Eprint + Files + Threads + Sync>(
    rt: &'a R,
    book: &Book,
    jobs: Vec<Job<I, OutputFile<'a, R>>>,
    mut waiting: Waiting<'a>,
    targets: &'a Targets,
    words: &RunWords,
) -> bool
where
    R::File: Send,
    R::Dir: Send,
{
    let added = add_all(rt, jobs, &mut waiting, !words.no_clobber);
    let placed = place_all(rt, book, waiting, targets, words.verbose);
    placed && added
}

/// Adds the acknowledgements of these jobs, and returns whether there was memory for all. Those for which there was
/// none are reported on standard error.
fn add_all<'a, I: Drop, R: AllocGlobal + Eprint + Files>(
    rt: &'a R,
    jobs: Vec<Job<I, OutputFile<'a, R>>>,
    waiting: &mut Waiting<'a>,
    replaces: bool,
) -> bool {
    let mut added = true;
    for job in jobs {
        let Job { reader: _, writer } = job;
        match writer.into_draft() {
            LeftDraft::Whole(names) => {
                if waiting.add(names, replaces).is_err() {
                    added = print_out_of_place(rt, names);
                }
            }
            LeftDraft::Cut(names) => {
                let _ = waiting.cut.push(names);
            }
            LeftDraft::None => {}
        }
    }
    added
}

/// Removes the drafts that the jobs of a run left which is not kept.
pub(crate) fn drop_drafts<'a, I: Drop, R: AllocGlobal + Eprint + Files>(
    rt: &'a R,
    jobs: Vec<Job<I, OutputFile<'a, R>>>,
) {
    for job in jobs {
        let Job { reader: _, writer } = job;
        match writer.into_draft() {
            LeftDraft::Whole(names) | LeftDraft::Cut(names) => remove_draft(rt, names),
            LeftDraft::None => {}
        }
    }
}

/// Puts the waiting acknowledgements on disk, keeps the register, if one is asked for, and gives the acknowledgements
/// their names. Returns whether all of it is in place.
///
/// `rt` is the runtime, `book` has the entries, and `waiting` the acknowledgements. `targets` has the names of the
/// files that the run writes. `verbose` says whether steps, and the system's reasons, are printed.
fn place_all<'a, R: AllocGlobal + Eprint + Files + Threads + Sync>(
    rt: &'a R,
    book: &Book,
    waiting: Waiting<'a>,
    targets: &'a Targets,
    verbose: bool,
) -> bool
where
    R::File: Send,
    R::Dir: Send,
{
    let Waiting {
        names,
        mut followers,
        cut,
    } = waiting;
    let register = targets.register.as_ref();
    sync_drafts(rt, &mut followers);
    let mut place = SystemStorage::new(rt, register, followers, ErrorPrinter { rt, verbose });
    if !targets.replaces_register {
        place.replace_none();
    }
    let kept = keep_at(rt, &mut place, book, register, verbose);
    if !kept {
        for names in cut {
            remove_draft(rt, names);
        }
    }
    kept && are_in_place(rt, &place, &names)
}

/// Keeps the register of a book, if one is asked for, and puts its followers in place. Returns whether the register is
/// kept, or none is asked for.
///
/// `rt` is the runtime, `place` the storage that is written, and `book` has the entries. `register` has the names of
/// the register's file, if there is one. `verbose` says whether steps are printed.
fn keep_at<R: AllocGlobal + Eprint, P: Storage>(
    rt: &R,
    place: &mut P,
    book: &Book,
    register: Option<&FileNames>,
    verbose: bool,
) -> bool
    requires works { P.has_failed place.old ≡ false }
    requires settled { IfSome (P.told place.old) (λ s. Only s.names (P.may_find place.old)) }
{
    match register {
        Some(register) => {
            let kept = keep_register(place, rt.alloc(), book);
            print_kept(rt, kept, register, book.len(), verbose)
        }
        None => {
            put_followers(place);
            true
        }
    }
}

/// Whether the followers of these names are in place. Those that are not are reported on standard error.
fn are_in_place<R: Eprint, P: Storage>(rt: &R, place: &P, names: &[&FileNames]) -> bool {
    let mut placed = true;
    for (at, names) in names.iter().enumerate() {
        if place.is_refused(at) {
            placed = print_out_of_place(rt, names);
        }
    }
    placed
}

/// Prints on standard error whether a register was kept, and returns that.
///
/// `rt` is the runtime, and `kept` says whether it was kept, or why not. `register` has the names of its file, and
/// `entries` is the number of its entries. `verbose` says whether success is printed too.
fn print_kept<R: Eprint>(
    rt: &R,
    kept: Result<(), KeepRegisterError>,
    register: &FileNames,
    entries: usize,
    verbose: bool,
) -> bool {
    match kept {
        Ok(()) => {
            if verbose {
                let _ = eprintln!(rt; "{}: register kept, {entries} entries", register.word());
            }
            true
        }
        Err(reason) => {
            let _ = eprintln!(rt; "register: stopped: {reason}");
            false
        }
    }
}

/// Prints on standard error that an acknowledgement is not in place, and returns `false`.
fn print_out_of_place<R: Eprint>(rt: &R, names: &FileNames) -> bool {
    let _ = eprintln!(rt; "{}: not in place", names.word());
    false
}
