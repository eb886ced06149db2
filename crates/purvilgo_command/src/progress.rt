//! How far long work is, on one line of standard error that is written over.

use crate::error_terminal::ErrorTerminal;
use progress_text::{Counted, HowFar, put_progress};
use std::str;
use std::sync::Mutex;
use std::sync::atomic::{AtomicUsize, Ordering};
use std::time::Instant;

/// The milliseconds before the first line. Of work that ends before, nothing is told.
const UNTOLD: u32 = 500;

/// The milliseconds from one line to the next.
const BETWEEN: u32 = 200;

/// How far long work is, which is told where standard error is a terminal and no steps are printed there.
///
/// The line is cleared before anything else is printed, and stands again from the next step on. Several threads may make
/// steps. None of them waits: a step that comes while another one is told is told with a later one.
#[derive(Drop)]
pub(crate) struct Progress<'a, R> {
    rt: &'a R,
    counted: Counted,
    /// When the work began, if it is told of.
    start: Option<Instant>,
    /// How many of them are done.
    done: AtomicUsize,
    /// How many there are; 0 while that is not known.
    total: AtomicUsize,
    line: Mutex<Line>,
}

/// The line on the terminal.
#[derive(Clone, Copy)]
struct Line {
    /// The milliseconds from the beginning of the work after which it is written the next time.
    due: u32,
    /// Whether it stands there.
    stands: bool,
    /// Whether it stood there until it was cleared for something else.
    gave_way: bool,
}

impl<'a, R: AllocGlobal + ErrorTerminal> Progress<'a, R> {
    /// The reading of a register that begins now. With `verbose`, nothing is told of it.
    pub(crate) fn of_register(rt: &'a R, verbose: bool) -> Progress<'a, R> {
        Progress::begun(rt, Counted::Entries, 0, !verbose)
    }

    /// Work on so many files that begins now. With `verbose`, nothing is told of it, and nothing of a single file.
    pub(crate) fn of_files(rt: &'a R, files: usize, verbose: bool) -> Progress<'a, R> {
        Progress::begun(rt, Counted::Files, files, !verbose && files > 1)
    }

    /// Work that begins now. `rt` is the runtime, `counted` says what is counted, and `total` how many there are, or is 0.
    /// `wanted` says whether anything is told of it.
    fn begun(rt: &'a R, counted: Counted, total: usize, wanted: bool) -> Progress<'a, R> {
        let start = if wanted && rt.is_error_terminal() {
            Instant::now(rt).ok()
        } else {
            None
        };
        Progress {
            rt,
            counted,
            start,
            done: AtomicUsize::new(0),
            total: AtomicUsize::new(total),
            line: Mutex::new(Line {
                due: UNTOLD,
                stands: false,
                gave_way: false,
            }),
        }
    }

    /// The runtime.
    pub(crate) fn runtime(&self) -> &'a R {
        self.rt
    }

    /// Whether anything is told.
    pub(crate) fn is_told(&self) -> bool {
        self.start.is_some()
    }

    /// There are so many of what is counted.
    pub(crate) fn expect(&self, total: usize) {
        self.total.store(total, Ordering::SeqCst);
    }

    /// So many more are done. The line is written if it is due.
    pub(crate) fn add(&self, more: usize) {
        if let Some(start) = self.start {
            self.done.fetch_add(more, Ordering::SeqCst);
            if let (Ok(passed), Some(mut line)) = (start.elapsed(self.rt), self.line.try_lock()) {
                let millis = u32::try_from(passed.as_millis()).unwrap_or(u32::MAX);
                if line.gave_way || millis >= line.due {
                    *line = self.line_at(millis);
                }
            }
        }
    }

    /// Writes the line, after so many milliseconds, if it is known how many there are.
    fn line_at(&self, millis: u32) -> Line {
        let total = capped(self.total.load(Ordering::SeqCst));
        let far = HowFar {
            counted: self.counted,
            done: capped(self.done.load(Ordering::SeqCst)).min(total),
            total,
            millis,
        };
        Line {
            due: millis.saturating_add(BETWEEN),
            stands: total > 0 && self.is_written(&far),
            gave_way: false,
        }
    }

    /// Writes the line over the one that stands there, and returns whether it was written.
    fn is_written(&self, far: &HowFar) -> bool {
        let mut text = Vec::new(self.rt.alloc());
        if put_progress(&mut text, far).is_err() {
            return false;
        }
        match str::from_utf8(&text) {
            Ok(text) => eprint!(self.rt; "\r{text}\x1b[K").is_ok(),
            Err(_) => false,
        }
    }

    /// Clears the line, if it stands there.
    pub(crate) fn clear(&self) {
        if self.is_told() {
            if let Some(mut line) = self.line.try_lock() {
                if line.stands {
                    let _ = eprint!(self.rt; "\r\x1b[K");
                    line.stands = false;
                    line.gave_way = true;
                }
            }
        }
    }

    /// The runtime, on whose terminal the line does not stand now.
    pub(crate) fn cleared(&self) -> &'a R {
        self.clear();
        self.rt
    }
}

/// A number, or the greatest one of its type in place of a greater.
fn capped(number: usize) -> u32 {
    u32::try_from(number).unwrap_or(u32::MAX)
}
