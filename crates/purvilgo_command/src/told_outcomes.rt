//! How the jobs of a run ended, printed as each group of them ends.

use crate::error_terminal::ErrorTerminal;
use crate::messages::print_outcome;
use crate::printing::StandardOutput;
use crate::progress::Progress;
use cwr_desk::{FileOutcome, RunListener, outcome_line};
use std::alloc::Global;
use std::cell::Cell;

/// Prints how each job ended, on standard output, and keeps whether all are acknowledged and printed.
#[derive(Drop)]
pub(crate) struct OutcomePrinter<'w, 'p, 'm, 'f, R> {
    /// How far the run is, whose line gives way to what is printed.
    progress: &'w Progress<'p, R>,
    /// The files of the jobs, in order.
    files: &'m [&'f str],
    /// Whether the reasons of jobs that are not acknowledged are printed on standard error first.
    verbose: bool,
    /// The number of bytes that standard output took so far.
    sent: Cell<u64>,
    /// Whether standard output failed.
    failed: Cell<bool>,
    /// Whether all jobs so far are acknowledged and printed.
    all: Cell<bool>,
}

impl<'w, 'p, 'm, 'f, R: AllocGlobal + Print + ErrorTerminal> OutcomePrinter<'w, 'p, 'm, 'f, R> {
    /// A printer for the jobs of these files, none of which has ended.
    pub(crate) fn new(
        progress: &'w Progress<'p, R>,
        files: &'m [&'f str],
        verbose: bool,
    ) -> OutcomePrinter<'w, 'p, 'm, 'f, R> {
        OutcomePrinter {
            progress,
            files,
            verbose,
            sent: Cell::new(0),
            failed: Cell::new(false),
            all: Cell::new(true),
        }
    }

    /// Whether all jobs are acknowledged and printed.
    pub(crate) fn are_all_told(&self) -> bool {
        self.all.get()
    }

    /// Prints on standard output how each of these jobs ended, and returns whether all are acknowledged and printed.
    ///
    /// A line for which there is no memory is left out.
    fn print_outcomes(&self, files: &[&str], outcomes: &[FileOutcome]) -> bool {
        let rt = self.progress.cleared();
        let mut out = StandardOutput::behind(rt, self.sent.get(), self.failed.get());
        let mut all = true;
        for (file, outcome) in files.iter().zip(outcomes) {
            let told = put_outcome(rt.alloc(), &mut out, file, outcome);
            all = all && told && is_acknowledged(outcome);
        }
        self.sent.set(out.sent());
        self.failed.set(out.has_failed());
        all
    }
}

impl<R: AllocGlobal + Print + ErrorTerminal> RunListener for OutcomePrinter<'_, '_, '_, '_, R> {
    fn ended(&self, first: usize, outcomes: &[FileOutcome]) {
        let files = self.files.get(first..).unwrap_or(&[]);
        if self.verbose {
            print_unacknowledged(self.progress.cleared(), files, outcomes);
        }
        let all = self.print_outcomes(files, outcomes);
        self.all.set(self.all.get() && all);
    }
}

/// Prints on standard error how each job ended whose file is not acknowledged. If an allocation fails, nothing is
/// printed.
fn print_unacknowledged<R: AllocGlobal + Eprint>(rt: &R, files: &[&str], outcomes: &[FileOutcome]) {
    for (file, outcome) in files.iter().zip(outcomes) {
        if !is_acknowledged(outcome) {
            if let Ok(name) = format!(in rt.alloc(); "{file}: ended") {
                print_outcome(rt, &name, outcome);
            }
        }
    }
}

/// Prints how a job ended, and returns whether that was printed.
fn put_outcome<R: Print + Eprint>(
    alloc: Global,
    out: &mut StandardOutput<R>,
    file: &str,
    outcome: &FileOutcome,
) -> bool {
    match outcome_line(alloc, file.as_bytes(), outcome) {
        Ok(line) => out.put(&line),
        Err(_) => false,
    }
}

fn is_acknowledged(outcome: &FileOutcome) -> bool {
    match outcome {
        FileOutcome::Acked { transactions: _ } => true,
        FileOutcome::Refused { .. } | FileOutcome::Stopped { .. } => false,
    }
}
