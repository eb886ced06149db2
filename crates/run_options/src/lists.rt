//! What is wrong with the files of a run, however many they are.

ghost use Rattle.std.specs.Prelude.{◌≡◌, ◌||◌, ◌++◌, true, false, codes, map, option_map, IfOk, MatchOption};
ghost use Rattle.std.specs.List.{list_any};
ghost use Rattle.std.specs.Str.{bytes_eq};
ghost use Rattle.run_options.specs.WordsFault.{is_read_lost, is_kept_over, is_read_taken};
ghost use Rattle.run_options.specs.ListFault.{is_repeated, has_one_with, files_fault, HasSame};

use crate::words::{RunFault, WordsFault, is_kept_over, is_read_lost, is_read_taken};
use cwr_field::Memory;
use indexmap::IndexSet;
use std::alloc::Global;
use std::hash::{BuildHasherDefault, FoldHasher};

/// Names, each once.
type NameSet<'a> = IndexSet<&'a [u8], BuildHasherDefault<FoldHasher>, Global>;

/// What is wrong with the files of a run that may begin with the register `from` and write its own to `to`, as
/// [`words_fault`](crate::words_fault) finds it, but with any number of files. The time that it takes grows as the
/// number of files does.
///
/// It ends with an error only out of memory.
pub fn files_fault(
    alloc: Global,
    files: &[&str],
    from: Option<&str>,
    to: Option<&str>,
) -> Result<Option<WordsFault>, Memory>
    ensures { IfOk result (λ fault. fault ≡ files_fault (map (λ file. file.now) files.now)
        (option_map (λ word. word.now) from.entry) (option_map (λ word. word.now) to.entry)) }
{
    let Some(names) = set_of(alloc, files)? else {
        return Ok(Some(WordsFault::Run(RunFault::Twice)));
    };
    if has_one_with(&names, files, b".ack") {
        return Ok(Some(WordsFault::Run(RunFault::Twice)));
    }
    if is_used_twice(&names, files, from, to) {
        return Ok(Some(WordsFault::UsedTwice));
    }
    Ok(None)
}

/// Whether one of the files has the name of the draft of an acknowledgement, or a register may not be in a run with
/// them. `names` are those of the files.
fn is_used_twice(names: &NameSet, files: &[&str], from: Option<&str>, to: Option<&str>) -> bool
    requires { HasSame names.now.keys (map (λ file. file.now) files.now) }
    ensures { result ≡ (has_one_with (codes ".ack.new") (map (λ file. file.now) files.now)
        || is_read_lost (option_map (λ word. word.now) from.entry) (map (λ file. file.now) files.now)
        || is_kept_over (option_map (λ word. word.now) to.entry) (map (λ file. file.now) files.now)
        || is_read_taken (option_map (λ word. word.now) from.entry) (option_map (λ word. word.now) to.entry)) }
{
    has_one_with(names, files, b".ack.new")
        || is_read_lost(from, files)
        || is_kept_over(to, files)
        || is_read_taken(from, to)
}

/// The names of these files, or `None` where two of them are one.
fn set_of<'a>(alloc: Global, files: &[&'a str]) -> Result<Option<NameSet<'a>>, Memory>
    ensures { IfOk result (λ found. MatchOption found
        (is_repeated (map (λ file. file.now) files.now) ≡ true)
        (λ names. (is_repeated (map (λ file. file.now) files.now) ≡ false) × HasSame names.keys (map (λ file. file.now) files.now))) }
{
    let mut names = IndexSet::with_capacity(alloc, files.len())?;
    for index in (0..files.len()).rev() {
        if !names.insert(files[index].as_bytes())? {
            return Ok(None);
        }
    }
    Ok(Some(names))
}

/// Whether one of the files has the name of one of them with this end behind it. `names` are those of the files.
fn has_one_with(names: &NameSet, files: &[&str], end: &[u8]) -> bool
    requires { HasSame names.now.keys (map (λ file. file.now) files.now) }
    ensures { result ≡ has_one_with end.now (map (λ file. file.now) files.now) }
{
    for file in files {
        if is_one_with(names, file.as_bytes(), end) {
            return true;
        }
    }
    false
}

/// Whether a word is one of the names with this end behind it.
fn is_one_with(names: &NameSet, word: &[u8], end: &[u8]) -> bool
    ensures { result ≡ list_any (λ key. bytes_eq word.now (key.now ++ end.now)) names.now.keys }
{
    match word.strip_suffix(end) {
        Some(front) => names.contains(&front),
        None => false,
    }
}
