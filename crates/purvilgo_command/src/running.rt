//! The command `run`: files are acknowledged at one book, on threads or one after another.

ghost use Rattle.std.specs.Prelude.{◌≡◌, ◌<◌, ◌≤◌, All, IfOk, false, true, length, vec_len};
ghost use Rattle.work_registry.specs.Replay.{is_opening};

use crate::error_terminal::ErrorTerminal;
use crate::files::InputFile;
use crate::keeping::{Waiting, drop_drafts, keep_run};
use crate::listed_files::given_list;
use crate::output::OutputFile;
use crate::progress::Progress;
use crate::registers::{locked_register, opening_book};
use crate::run_command::{RunWords, Way, right_listed_words, right_words};
use crate::same_files::is_one_file_twice;
use crate::status::{bad_words, no_memory, status_of};
use crate::targets::Targets;
use crate::told_outcomes::OutcomePrinter;
use atomic_file::{Exclusive, FileNames};
use clap::ArgMatches;
use cwr_desk::{
    Book, Job, OpenGate, Run, RunListener, Sink, Source, serve, serve_all, serve_all_in_turn,
};
use cwr_field::Memory;
use cwr_record::Stamp;
use run_options::WordsFault;
use std::fs;
use std::process::ExitCode;
use std::rt::Files;
use std::sync::Wait;
use std::thread::Threads;

/// Acknowledges the given files, all at one book: each by a worker on a thread of its own, or, if the options ask for
/// it or the files come from a list, in their order, with threads or without.
///
/// The acknowledgements are drafts until all workers have ended and the register, if one is asked for, is on disk under
/// its name. If the register cannot be kept, they are removed. A run that writes a register holds its lock.
///
/// How each job ended is printed on standard output: once all have ended, or, in order and in turn, as each group of 63
/// has. The status is 0 if all files were acknowledged, and all of it was printed and kept.
///
/// A worker on another thread may call what the runtime does with files only if both its types may go there:
/// directories too, though none is opened.
pub(crate) fn run_files<
    R: AllocGlobal + Input + Print + ErrorTerminal + Files + Threads + Wait + Sync,
>(rt: &R, matches: &ArgMatches) -> ExitCode
where
    R::File: Send + Exclusive,
    R::Dir: Send,
{
    match given_list(rt, matches) {
        Ok(None) => match right_words(rt, matches) {
            Ok(words) => run_words(rt, &words),
            Err(status) => status,
        },
        Ok(Some(list)) => match list.names(rt) {
            Ok(names) => run_listed(rt, matches, &names),
            Err(status) => status,
        },
        Err(status) => status,
    }
}

/// Acknowledges the files of a list, as `run_files` does.
fn run_listed<R: AllocGlobal + Print + ErrorTerminal + Files + Threads + Wait + Sync>(
    rt: &R,
    matches: &ArgMatches,
    names: &[&str],
) -> ExitCode
where
    R::File: Send + Exclusive,
    R::Dir: Send,
{
    match right_listed_words(rt, matches, names) {
        Ok(words) => run_words(rt, &words),
        Err(status) => status,
    }
}

/// Acknowledges the files of a run whose options are right, and writes the register. Nothing is done if files are in
/// the way, or another run has the register.
fn run_words<R: AllocGlobal + Print + ErrorTerminal + Files + Threads + Wait + Sync>(
    rt: &R,
    words: &RunWords,
) -> ExitCode
where
    R::File: Send + Exclusive,
    R::Dir: Send,
    requires few { words.now.way ≡ Way.AtOnce → length words.now.files.now < 64 }
{
    let Some(stamp) = words.stamp() else {
        return bad_words(rt, "the words name no stamp");
    };
    let Ok(targets) = Targets::of(rt, words) else {
        return no_memory(rt);
    };
    if let Some(status) = refusal_of(rt, words, &targets) {
        return status;
    }
    let Some(_held) = locked_register(rt, targets.register.as_ref(), words.verbose) else {
        return ExitCode::FAILURE;
    };
    match opening_book(rt, words.from, words.verbose) {
        Some(book) => {
            let progress = Progress::of_files(rt, words.files.len(), words.verbose);
            run_at(&progress, words, &stamp, &targets, book)
        }
        None => ExitCode::FAILURE,
    }
}

/// The status of a run that may not be begun, since it would write over what it reads, twice over one file, or over
/// what is to stay. The reason is printed on standard error.
fn refusal_of<R: AllocGlobal + Eprint + Files>(
    rt: &R,
    words: &RunWords,
    targets: &Targets,
) -> Option<ExitCode> {
    match is_one_file_twice(rt, words.files, words.from, targets) {
        Ok(true) => Some(bad_words(rt, WordsFault::UsedTwice.text())),
        Ok(false) if words.no_clobber && print_taken(rt, targets) => Some(ExitCode::FAILURE),
        Ok(false) => None,
        Err(_) => Some(no_memory(rt)),
    }
}

/// Acknowledges the files of a run at a book, all of whose entries are of the opening.
///
/// `progress` has the runtime, and tells how many files are done. `words` has the options. `stamp` is that of the
/// acknowledgements, which go to `targets`, and `book` is the one that the run begins with.
fn run_at<'a, R: AllocGlobal + Print + ErrorTerminal + Files + Threads + Wait + Sync>(
    progress: &'a Progress<'a, R>,
    words: &'a RunWords,
    stamp: &Stamp,
    targets: &'a Targets,
    book: Book,
) -> ExitCode
where
    R::File: Send,
    R::Dir: Send,
    requires few { words.now.way ≡ Way.AtOnce → length words.now.files.now < 64 }
    requires opening { is_opening book.history ≡ true }
{
    let rt = progress.runtime();
    let Ok(waiting) = Waiting::room_for(rt.alloc(), words.files.len()) else {
        return no_memory(rt);
    };
    let Ok(jobs) = jobs_of(progress, words.files, &targets.answers, words) else {
        return no_memory(rt);
    };
    let printer = OutcomePrinter::new(progress, words.files, words.verbose);
    let served = serve_jobs(rt, words.way, jobs, book, stamp, &printer);
    progress.clear();
    match served {
        Ok(run) => {
            let Run {
                book,
                outcomes: _,
                jobs,
            } = run;
            let kept = keep_run(rt, &book, jobs, waiting, targets, words);
            status_of(printer.are_all_told() && kept)
        }
        Err(jobs) => {
            drop_drafts(rt, jobs);
            no_memory(rt)
        }
    }
}

/// Works jobs at a book, in one of the three ways, and tells `listener` how they ended. If there is no memory, the jobs
/// come back, of which some may be worked.
///
/// `rt` starts threads, waits and allocates. `way` is one of the three ways, in which `jobs` are worked into `book`, and
/// `stamp` is that of the acknowledgements.
fn serve_jobs<
    T: AllocGlobal + Threads + Wait + Sync,
    I: Source + Send + Drop,
    O: Sink + Send + Drop,
    L: RunListener,
>(
    rt: &T,
    way: Way,
    jobs: Vec<Job<I, O>>,
    book: Book,
    stamp: &Stamp,
    listener: &L,
) -> Result<Run<I, O>, Vec<Job<I, O>>>
    requires few { way ≡ Way.AtOnce → vec_len jobs < 64 }
    requires opening { is_opening book.history ≡ true }
    requires works { All (λ j. (I.has_failed j.reader ≡ false) × (O.has_failed j.writer ≡ false)) jobs.items }
{
    let alloc = rt.alloc();
    let served = match way {
        Way::AtOnce => return serve_at_once(rt, jobs, book, stamp, listener),
        Way::InOrder => serve_all(rt, alloc, jobs, book, stamp, listener),
        Way::InTurn => serve_all_in_turn(alloc, jobs, book, stamp, listener),
    };
    match served {
        Ok(run) => Ok(run),
        Err(cut) => Err(cut.jobs),
    }
}

/// Works jobs at a book, all at once, and tells `listener` how they ended. If there is no memory, none is worked, and
/// the jobs come back.
fn serve_at_once<
    T: AllocGlobal + Threads + Wait + Sync,
    I: Source + Send + Drop,
    O: Sink + Send + Drop,
    L: RunListener,
>(
    rt: &T,
    jobs: Vec<Job<I, O>>,
    book: Book,
    stamp: &Stamp,
    listener: &L,
) -> Result<Run<I, O>, Vec<Job<I, O>>>
    requires few { vec_len jobs < 64 }
    requires opening { is_opening book.history ≡ true }
    requires works { All (λ j. (I.has_failed j.reader ≡ false) × (O.has_failed j.writer ≡ false)) jobs.items }
{
    match serve(rt, rt.alloc(), jobs, book, stamp, &OpenGate) {
        Ok(run) => {
            listener.ended(0, &run.outcomes);
            Ok(run)
        }
        Err(refused) => Err(refused.jobs),
    }
}

/// Prints on standard error which acknowledgements exist, and whether the register does, if it may replace no file.
/// Returns whether any of them exists.
fn print_taken<R: Eprint + Files>(rt: &R, targets: &Targets) -> bool {
    let mut taken = false;
    for answer in &targets.answers {
        taken = is_taken(rt, answer) || taken;
    }
    match &targets.register {
        Some(register) if !targets.replaces_register => is_taken(rt, register) || taken,
        Some(_) | None => taken,
    }
}

/// Whether something has a name already, which is reported on standard error.
fn is_taken<R: Eprint + Files>(rt: &R, names: &FileNames) -> bool {
    let taken = fs::symlink_metadata(rt, names.word()).is_ok();
    if taken {
        let _ = eprintln!(rt; "{}: is there already", names.word());
    }
    taken
}

/// A job for each file, which are the steps of `progress`. `answers` has the names of the acknowledgements, one for each
/// of `files` and in their order, and `words` has the options. Nothing is opened yet.
fn jobs_of<'a, R: AllocGlobal + ErrorTerminal + Files>(
    progress: &'a Progress<'a, R>,
    files: &'a [&'a str],
    answers: &'a [FileNames],
    words: &RunWords,
) -> Result<Vec<Job<InputFile<'a, R>, OutputFile<'a, R>>>, Memory>
    ensures few { IfOk result (λ jobs. vec_len jobs ≤ length files.now) }
    ensures works { IfOk result (λ jobs. All (λ j. (j.reader.failed ≡ false) × (j.writer.failed ≡ false)) jobs.items) }
{
    let mut jobs = Vec::with_capacity(progress.runtime().alloc(), files.len())?;
    for (file, answer) in files.iter().zip(answers) {
        jobs.push(job_of(progress, file, answer, words))?;
    }
    Ok(jobs)
}

/// The job of a file and its acknowledgement.
fn job_of<'a, R: AllocGlobal + ErrorTerminal + Files>(
    progress: &'a Progress<'a, R>,
    file: &'a str,
    answer: &'a FileNames,
    words: &RunWords,
) -> Job<InputFile<'a, R>, OutputFile<'a, R>>
    ensures { (result.reader.failed ≡ false) × (result.writer.failed ≡ false) }
{
    let rt = progress.runtime();
    Job {
        reader: InputFile::new(rt, file, words.verbose).step_of(progress),
        writer: OutputFile::new(rt, answer, !words.no_clobber, words.verbose),
    }
}
