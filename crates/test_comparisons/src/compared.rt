//! What a test found, beside what it wanted.

ghost use Rattle.std.specs.Prelude.{◌≡◌, ◌↔◌, true, IsOk};
ghost use Rattle.std.specs.Cmp.Lexicographic.{pointwise};

use std::fmt::Debug;
use std::str;
use std::test::Fail;

/// The number of bytes of two texts that are printed, from the position where they differ.
const TOLD: usize = 90;

/// Two values must be the same.
pub fn same<T: PartialEq + Debug>(what: &str, found: &T, wanted: &T) -> Result<(), Fail>
    ensures { IsOk result ↔ (T.eq found.now wanted.now ≡ true) }
{
    if *found == *wanted {
        Ok(())
    } else {
        Err(Fail::new(format_args!("{what}: {found:?}, and not {wanted:?}")))
    }
}

/// Two byte strings must be the same. Else both are printed from the first position where they differ.
pub fn same_bytes(what: &str, found: &[u8], wanted: &[u8]) -> Result<(), Fail>
    ensures { IsOk result ↔ (found.now ≡ wanted.now) }
{
    if found == wanted {
        return Ok(());
    }
    let place = common(found, wanted);
    let here = piece(found, place);
    let there = piece(wanted, place);
    Err(Fail::new(format_args!("{what}: from byte {place} on {here:?}, and not {there:?}")))
}

/// Two texts must be the same. Else both are printed from the first position where they differ.
pub fn same_text(what: &str, found: &str, wanted: &str) -> Result<(), Fail>
    ensures { IsOk result ↔ (found.now ≡ wanted.now) }
{
    same_bytes(what, found.as_bytes(), wanted.as_bytes())
}

/// The number of bytes that two byte strings begin with in common.
fn common(one: &[u8], other: &[u8]) -> usize {
    let mut count: usize = 0;
    for (mine, theirs) in one.iter().zip(other) {
        if *mine != *theirs {
            return count;
        }
        count = count.saturating_add(1);
    }
    count
}

/// The next bytes from a position on.
fn piece(bytes: &[u8], place: usize) -> &str {
    let rest = bytes.get(place..).unwrap_or(&[]);
    let short = rest.get(..TOLD).unwrap_or(rest);
    str::from_utf8(short).unwrap_or("bytes that are no text")
}

/// Two lists must be the same. Else the first element that differs is printed, or the two lengths.
pub fn same_lists<T: PartialEq + Debug>(what: &str, found: &[T], wanted: &[T]) -> Result<(), Fail>
    ensures { IsOk result ↔ (pointwise T.eq found.now wanted.now ≡ true) }
{
    if found == wanted {
        return Ok(());
    }
    Err(difference(what, found, wanted))
}

/// The failure for two lists that differ.
fn difference<T: PartialEq + Debug>(what: &str, found: &[T], wanted: &[T]) -> Fail {
    for (one, other) in found.iter().zip(wanted) {
        if *one != *other {
            return Fail::new(format_args!("{what}: {one:?}, and not {other:?}"));
        }
    }
    let (one, other) = (found.len(), wanted.len());
    Fail::new(format_args!("{what}: {one} of them, and not {other}"))
}
