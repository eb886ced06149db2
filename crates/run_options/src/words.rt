ghost use Rattle.std.specs.Prelude.{◌≡◌, ◌++◌, map, option_map};
ghost use Rattle.std.specs.List.{list_all, list_any};
ghost use Rattle.std.specs.Char.{is_ascii_digit};
ghost use Rattle.std.specs.Str.{bytes_eq};
ghost use Rattle.run_options.specs.RunFault.{is_society, is_name, is_date, is_time, is_same_file, is_named_twice, run_fault, run_fault_text};
ghost use Rattle.run_options.specs.WordsFault.{is_written_for, is_beside_register, is_of_file, is_file_lost, is_read_lost, is_kept_over, is_read_taken, words_fault, words_fault_text};

use cwr_field::{cut, date, is_printable, time};
use cwr_record::Header;

/// The greatest number of files of one run: a seat for each beside the opening one.
const MAX_FILES: usize = 63;

/// What is wrong with the options of a run.
#[derive(Clone, Copy, Debug, PartialEq, Eq, Hash)]
pub enum RunFault {
    /// The society is not three digits.
    Society,
    /// The society's name is empty, has more than 45 bytes, or has a byte below 32.
    Name,
    /// The date is not a day as `YYYYMMDD`.
    Date,
    /// The time is not a time of a day as `HHMMSS`.
    Time,
    /// There are more than 63 files.
    TooMany,
    /// Two of the files have one name, or one has that of another with `.ack` behind it.
    Twice,
}

impl RunFault {
    /// The text that reports it, as `bad --society`.
    pub fn text(self) -> &'static str
        ensures { result.now ≡ run_fault_text self }
    {
        match self {
            RunFault::Society => "bad --society",
            RunFault::Name => "bad --name",
            RunFault::Date => "bad --date",
            RunFault::Time => "bad --time",
            RunFault::TooMany => "too many files",
            RunFault::Twice => "file named twice",
        }
    }
}

/// What is wrong with the options of a run and its files, or with the names that it would read and write.
#[derive(Clone, Copy, Debug, PartialEq, Eq, Hash)]
pub enum WordsFault {
    /// What [`run_fault`] says.
    Run(RunFault),
    /// A file would be written that is also read, or that is written for another purpose.
    UsedTwice,
}

impl WordsFault {
    /// The text that reports it, as `bad --society`.
    pub fn text(self) -> &'static str
        ensures { result.now ≡ words_fault_text self }
    {
        match self {
            WordsFault::Run(fault) => fault.text(),
            WordsFault::UsedTwice => "file used twice",
        }
    }
}

/// What is wrong with the options of a run and its files: the first fault in the order of [`RunFault`], or `None`.
///
/// `society`, `name`, `date` and `time` are the values of the options with these names, and `files` the names of the
/// files. Files are compared by their names. Nothing is allocated.
pub fn run_fault(
    society: &str,
    name: &str,
    date: &str,
    time: &str,
    files: &[&str],
) -> Option<RunFault>
    ensures { result ≡ run_fault society.now name.now date.now time.now (map (λ file. file.now) files.now) }
{
    if !is_society(society.as_bytes()) {
        return Some(RunFault::Society);
    }
    if !is_name(name.as_bytes()) {
        return Some(RunFault::Name);
    }
    if !is_date(date.as_bytes()) {
        return Some(RunFault::Date);
    }
    if !is_time(time.as_bytes()) {
        return Some(RunFault::Time);
    }
    if files.len() > MAX_FILES {
        return Some(RunFault::TooMany);
    }
    if is_named_twice(files) {
        return Some(RunFault::Twice);
    }
    None
}

/// What is wrong with the words of a run that may begin with the register `from` and write its own to `to`. The others,
/// `society`, `name`, `date`, `time` and `files`, are those of [`run_fault`], whose fault comes first. Else it is
/// `UsedTwice` if
/// - a file has the name of the draft of another's acknowledgement (that one's name with `.ack.new` behind it),
/// - `to` names one of the files, or the acknowledgement of one or its draft,
/// - `from` names the acknowledgement of one of the files or its draft,
/// - the draft of `to` (`.new` behind it) or its lock (`.lock`) has the name of one of the files or of `from`.
///
/// `from` and `to` may be one name, and `from` one of the files: nothing is written over either before it is read. A
/// draft or a lock never has the name of an acknowledgement, as these end otherwise.
pub fn words_fault(
    society: &str,
    name: &str,
    date: &str,
    time: &str,
    files: &[&str],
    from: Option<&str>,
    to: Option<&str>,
) -> Option<WordsFault>
    ensures { result ≡ words_fault society.now name.now date.now time.now (map (λ file. file.now) files.now)
        (option_map (λ word. word.now) from.entry) (option_map (λ word. word.now) to.entry) }
{
    if let Some(fault) = run_fault(society, name, date, time, files) {
        return Some(WordsFault::Run(fault));
    }
    if is_file_lost(files)
        || is_read_lost(from, files)
        || is_kept_over(to, files)
        || is_read_taken(from, to)
    {
        return Some(WordsFault::UsedTwice);
    }
    None
}

fn is_society(word: &[u8]) -> bool
    ensures { result ≡ is_society word.now }
{
    word.len() == 3 && are_digits(word)
}

fn is_name(word: &[u8]) -> bool
    ensures { result ≡ is_name word.now }
{
    (1 <= word.len() && word.len() <= Header::NAME.width) && is_printable(word)
}

fn is_date(word: &[u8]) -> bool
    ensures { result ≡ is_date word.now }
{
    word.len() == 8 && date(cut(word, 1, 8)).is_some()
}

fn is_time(word: &[u8]) -> bool
    ensures { result ≡ is_time word.now }
{
    word.len() == 6 && time(cut(word, 1, 6)).is_some()
}

fn are_digits(word: &[u8]) -> bool
    ensures { result ≡ list_all is_ascii_digit word.now }
{
    word.iter().all(|byte| byte.is_ascii_digit())
}

/// Whether two of the files have one name, or one is the acknowledgement of another.
fn is_named_twice(files: &[&str]) -> bool
    ensures { result ≡ is_named_twice (map (λ file. file.now) files.now) }
{
    for (index, file) in files.iter().enumerate() {
        if is_among(file.as_bytes(), &files[index + 1..]) {
            return true;
        }
    }
    false
}

/// Whether a file has the name of one of the others, or of its acknowledgement, or one of them that of the file's.
fn is_among(file: &[u8], others: &[&str]) -> bool
    ensures { result ≡ list_any (is_same_file file.now) (map (λ other. other.now) others.now) }
{
    for other in others {
        if is_same_file(file, other.as_bytes()) {
            return true;
        }
    }
    false
}

#[tactic(auto, unfolding(crate::specs::RunFault::is_same_file))]
fn is_same_file(file: &[u8], other: &[u8]) -> bool
    ensures { result ≡ is_same_file file.now other.now }
{
    file == other || is_with(file, b".ack", other) || is_with(other, b".ack", file)
}

/// Whether the other's name is that of the acknowledgement of a file, or of its draft.
#[tactic(auto, unfolding(crate::specs::WordsFault::is_written_for))]
fn is_written_for(file: &[u8], other: &[u8]) -> bool
    ensures { result ≡ is_written_for file.now other.now }
{
    is_with(file, b".ack", other) || is_with(file, b".ack.new", other)
}

/// Whether the other's name is that of a register's draft, or of its lock.
#[tactic(auto, unfolding(crate::specs::WordsFault::is_beside_register))]
fn is_beside_register(register: &[u8], other: &[u8]) -> bool
    ensures { result ≡ is_beside_register register.now other.now }
{
    is_with(register, b".new", other) || is_with(register, b".lock", other)
}

/// Whether the other's name is this one with an end behind it.
fn is_with(name: &[u8], end: &[u8], other: &[u8]) -> bool
    ensures { result ≡ bytes_eq other.now (name.now ++ end.now) }
{
    match other.strip_suffix(end) {
        Some(front) => front == name,
        None => false,
    }
}

/// Whether a file has the name of the acknowledgement of one of the files, or of its draft.
fn is_file_lost(files: &[&str]) -> bool
    ensures { result ≡ is_file_lost (map (λ file. file.now) files.now) }
{
    for file in files {
        if is_written_for_any(file.as_bytes(), files) {
            return true;
        }
    }
    false
}

/// Whether the name of the register that a run begins with is that of an acknowledgement of one of the files, or of its
/// draft.
pub(crate) fn is_read_lost(from: Option<&str>, files: &[&str]) -> bool
    ensures { result ≡ is_read_lost (option_map (λ word. word.now) from.entry) (map (λ file. file.now) files.now) }
{
    match from {
        Some(word) => is_written_for_any(word.as_bytes(), files),
        None => false,
    }
}

/// Whether the name of the register that a run writes, of its draft or its lock is that of one of the files, or of its
/// acknowledgement or draft.
pub(crate) fn is_kept_over(to: Option<&str>, files: &[&str]) -> bool
    ensures { result ≡ is_kept_over (option_map (λ word. word.now) to.entry) (map (λ file. file.now) files.now) }
{
    match to {
        Some(word) => is_of_any(word.as_bytes(), files),
        None => false,
    }
}

/// Whether the name of the register that a run begins with is that of the draft or the lock of the other.
pub(crate) fn is_read_taken(from: Option<&str>, to: Option<&str>) -> bool
    ensures { result ≡ is_read_taken (option_map (λ word. word.now) from.entry) (option_map (λ word. word.now) to.entry) }
{
    match (from, to) {
        (Some(from), Some(to)) => is_beside_register(to.as_bytes(), from.as_bytes()),
        (None, _) | (Some(_), None) => false,
    }
}

/// Whether a word names the acknowledgement of one of the files, or its draft.
fn is_written_for_any(word: &[u8], files: &[&str]) -> bool
    ensures { result ≡ list_any (λ file. is_written_for file word.now) (map (λ file. file.now) files.now) }
{
    for file in files {
        if is_written_for(file.as_bytes(), word) {
            return true;
        }
    }
    false
}

/// Whether a register and one of the files may not be in one run.
fn is_of_any(register: &[u8], files: &[&str]) -> bool
    ensures { result ≡ list_any (is_of_file register.now) (map (λ file. file.now) files.now) }
{
    for file in files {
        if is_of_file(register, file.as_bytes()) {
            return true;
        }
    }
    false
}

/// Whether a register has the name of a file, of its acknowledgement or of the draft of that, or the file that of the
/// register's draft or lock.
#[tactic(auto, unfolding(crate::specs::WordsFault::is_of_file))]
fn is_of_file(register: &[u8], file: &[u8]) -> bool
    ensures { result ≡ is_of_file register.now file.now }
{
    register == file || is_written_for(file, register) || is_beside_register(register, file)
}
