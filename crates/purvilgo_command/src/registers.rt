//! Registers that lie in files.

ghost use Rattle.std.specs.Prelude.{◌≡◌, ◌≤◌, false, true, length, IfErr, IfOk, IfSome, OnOk};
ghost use Rattle.register_store.specs.Auditing.{IsUnaudited};
ghost use Rattle.work_registry.specs.Numbers.{max_entries};
ghost use Rattle.work_registry.specs.Register.{IsAudited};
ghost use Rattle.work_registry.specs.Replay.{is_opening};

use crate::arguments::{Argument, CommandWords};
use crate::error_terminal::ErrorTerminal;
use crate::file_names::has_draft;
use crate::files::{InputFile, Reading};
use crate::help::AUDIT_HELP;
use crate::messages::print_reason;
use crate::printing::{StandardOutput, is_printed};
use crate::progress::Progress;
use crate::status::{no_memory, status_of};
use crate::watched_register::{WatchedRegister, read_register};
use atomic_file::{CallFailed, Exclusive, FileNames, lock};
use byte_streams::Source;
use clap::ArgMatches;
pub use register_store::MAX_REGISTER_BYTES;
use register_store::{REGISTER_WINDOW, ReadBookError, audit_source, new_book, read_book};
use register_tables::{Audited, audit_json};
use std::alloc::Global;
use std::fs::File;
use std::io::Write;
use std::process::ExitCode;
use std::rt::Files;
use work_registry::{Book, RegisterRefusal};

/// `audit [--json] [--verbose] REGISTER`.
pub(crate) const AUDIT: CommandWords = CommandWords {
    name: "audit",
    about: "Decides on every entry of a register again, and compares",
    arguments: &[
        REGISTER,
        Argument::Flag("json", "print the same as one JSON object, on one line"),
        Argument::Verbose,
    ],
    more: AUDIT_HELP,
};

/// The register that a command reads.
pub(crate) const REGISTER: Argument = Argument::Word(
    "REGISTER",
    "a register, or - for standard input",
);

/// The book that a run begins with: an empty one, or that of a register. A refused register is reported on standard
/// error.
pub(crate) fn opening_book<R: AllocGlobal + ErrorTerminal + Files>(
    rt: &R,
    from: Option<&str>,
    verbose: bool,
) -> Option<Book>
    ensures opening { IfSome result (λ book. is_opening book.history ≡ true) }
    ensures limit { IfSome result (λ book. book.limit ≡ max_entries) }
{
    match from {
        None => Some(new_book(rt.alloc())),
        Some(path) => book_in(rt, path, verbose),
    }
}

/// The book of a register. A refused register is reported on standard error.
fn book_in<R: AllocGlobal + ErrorTerminal + Files>(
    rt: &R,
    path: &str,
    verbose: bool,
) -> Option<Book>
    ensures opening { IfSome result (λ book. is_opening book.history ≡ true) }
    ensures limit { IfSome result (λ book. book.limit ≡ max_entries) }
{
    match book_of_file(rt, path, verbose) {
        Ok(book) => {
            print_read(rt, path, &book, verbose);
            Some(book)
        }
        Err(refusal) => {
            let _ = eprintln!(rt; "register: {refusal}");
            None
        }
    }
}

/// The book of the register in the file of this name.
fn book_of_file<R: AllocGlobal + ErrorTerminal + Files>(
    rt: &R,
    path: &str,
    verbose: bool,
) -> Result<Book, ReadBookError>
    ensures opening { IfOk result (λ book. is_opening book.history ≡ true) }
    ensures limit { IfOk result (λ book. book.limit ≡ max_entries) }
{
    let progress = Progress::of_register(rt, verbose);
    let file = InputFile::new(rt, path, verbose);
    let book = read_book(rt.alloc(), &mut WatchedRegister::new(file, &progress));
    progress.clear();
    book
}

/// Prints on standard error the number of entries of a register that was read, if that is asked for.
fn print_read<R: Eprint>(rt: &R, path: &str, book: &Book, verbose: bool) {
    if verbose {
        let _ = eprintln!(rt; "{path}: register read, {} entries", book.len());
    }
}

/// A lock that keeps other runs from a register: a locked file beside it, since the register itself is replaced by
/// another file.
#[derive(Drop)]
pub(crate) struct RegisterLock<F: Drop> {
    file: Option<F>,
}

/// Locks the register that a run is to write, if any, until the lock is dropped or the run is killed. If another run
/// has it, or it cannot be locked, that is reported on standard error. So is a register under whose name no file can be
/// written: that one is not locked.
pub(crate) fn locked_register<R: AllocGlobal + Eprint + Files>(
    rt: &R,
    to: Option<&FileNames>,
    verbose: bool,
) -> Option<RegisterLock<R::File>>
where
    R::File: Exclusive,
{
    let Some(names) = to else {
        return Some(RegisterLock { file: None });
    };
    match has_draft(rt, names) {
        Ok(true) => file_lock(rt, names.lock(), verbose),
        Ok(false) => Some(RegisterLock { file: None }),
        Err(error) => {
            if verbose {
                print_reason(rt, names.word(), &error);
            }
            print_unkept(rt);
            None
        }
    }
}

/// The lock of this name, which is held until it is dropped.
fn file_lock<R: AllocGlobal + Eprint + Files>(
    rt: &R,
    name: &str,
    verbose: bool,
) -> Option<RegisterLock<R::File>>
where
    R::File: Exclusive,
{
    match lock(rt, name) {
        Ok(Some(file)) => Some(RegisterLock { file: Some(file) }),
        Ok(None) => {
            let _ = eprintln!(rt; "register: in use");
            None
        }
        Err(CallFailed) => {
            if verbose {
                print_lock_error(rt, name);
            }
            print_unkept(rt);
            None
        }
    }
}

/// Prints on standard error that no byte of the register was written.
fn print_unkept<R: Eprint>(rt: &R) {
    let _ = eprintln!(rt; "register: stopped: write after 0 bytes");
}

/// Prints on standard error why the system does not open a lock. It tries once more; if the lock opens then, nothing is
/// printed.
fn print_lock_error<R: AllocGlobal + Eprint + Files>(rt: &R, name: &str) {
    if let Err(error) = File::options().write(true).create(true).open(rt, name) {
        print_reason(rt, name, &error);
    }
}

/// Prints on standard output the number of entries of a register, or its first fault. The register `-` is standard
/// input.
pub(crate) fn audit_file<R: AllocGlobal + Input + Print + ErrorTerminal + Files>(
    rt: &R,
    path: &str,
    given: &ArgMatches,
) -> ExitCode {
    let as_json = given.get_flag("json");
    let audit = Audit { alloc: rt.alloc() };
    match read_register(rt, path, given.get_flag("verbose"), audit) {
        Ok(entries) => print_entries(rt, entries, as_json),
        Err(why) => print_no_book(rt, why, as_json),
    }
}

/// Prints the number of entries of a register. The status is that of a register without a fault only if that was
/// printed.
fn print_entries<R: AllocGlobal + Print + Eprint>(rt: &R, entries: u64, as_json: bool) -> ExitCode {
    if as_json {
        return print_audited(rt, Audited::Entries(entries), ExitCode::SUCCESS);
    }
    status_of(write!(StandardOutput::of(rt), "{entries} entries\n").is_ok())
}

/// The book of a register; `-` is standard input. If there is none, the reason is printed as an audit prints it.
pub(crate) fn audited_book<R: AllocGlobal + Input + Print + ErrorTerminal + Files>(
    rt: &R,
    path: &str,
    verbose: bool,
    as_json: bool,
) -> Result<Book, ExitCode> {
    match named_book(rt, path, verbose) {
        Ok(book) => Ok(book),
        Err(why) => Err(print_no_book(rt, why, as_json)),
    }
}

/// The book of a register; `-` is standard input.
pub(crate) fn named_book<R: AllocGlobal + Input + ErrorTerminal + Files>(
    rt: &R,
    path: &str,
    verbose: bool,
) -> Result<Book, ReadBookError> {
    read_register(rt, path, verbose, Opening { alloc: rt.alloc() })
}

/// Prints why a register has no book: on standard output its first fault, as JSON if that is asked for, and on standard
/// error all else.
fn print_no_book<R: AllocGlobal + Print + Eprint>(
    rt: &R,
    why: ReadBookError,
    as_json: bool,
) -> ExitCode {
    match why {
        ReadBookError::Memory | ReadBookError::Refused(RegisterRefusal::Memory) => no_memory(rt),
        ReadBookError::Refused(RegisterRefusal::Fault { number, line }) if as_json => {
            print_audited(rt, Audited::Fault { number, line }, ExitCode::FAILURE)
        }
        ReadBookError::Refused(refusal) => {
            let _ = write!(StandardOutput::of(rt), "{refusal}\n");
            ExitCode::FAILURE
        }
        ReadBookError::Read | ReadBookError::TooLong => {
            let _ = eprintln!(rt; "{why}");
            ExitCode::FAILURE
        }
    }
}

/// Prints what an audit found as a JSON object, and returns this status if that was printed.
fn print_audited<R: AllocGlobal + Print + Eprint>(
    rt: &R,
    audited: Audited,
    status: ExitCode,
) -> ExitCode {
    match audit_json(rt.alloc(), audited) {
        Ok(text) if is_printed(rt, &text) => status,
        Ok(_) => ExitCode::FAILURE,
        Err(_) => no_memory(rt),
    }
}

/// A register is audited as it is read, and the number of its entries is kept.
#[derive(Clone, Copy)]
struct Audit {
    alloc: Global,
}

impl Reading for Audit {
    type Made = Result<u64, ReadBookError>;

    fn read<S: Source>(self, reader: &mut S) -> Result<u64, ReadBookError> {
        audited_entries(self.alloc, reader)
    }
}

/// The number of entries of the register of a reader, of at most 68,719,476,736 bytes, or why it is no register.
fn audited_entries<S: Source>(alloc: Global, reader: &mut S) -> Result<u64, ReadBookError>
    requires { S.has_failed reader.old ≡ false }
    ensures entries { IfOk result (λ count. IfSome (S.left reader.old) (λ bytes. IsAudited bytes count)) }
    ensures fits { OnOk result (IfSome (S.left reader.old) (λ bytes. length bytes ≤ 68719476736)) }
    ensures unaudited { IfErr result (IsUnaudited 68719476736 (S.left reader.old) (S.has_failed reader.new)) }
{
    audit_source(alloc, reader, MAX_REGISTER_BYTES, REGISTER_WINDOW)
}

/// A register's book is kept, and not its text.
#[derive(Clone, Copy)]
struct Opening {
    alloc: Global,
}

impl Reading for Opening {
    type Made = Result<Book, ReadBookError>;

    fn read<S: Source>(self, reader: &mut S) -> Result<Book, ReadBookError> {
        read_book(self.alloc, reader)
    }
}
