ghost use Rattle.std.specs.Prelude.{◌≡◌, ◌++◌, ◌<◌, OnOk, IsTrue};
ghost use Rattle.progress_text.specs.Progress.{counted_text, grouped, is_foreseen, left_text, progress_text, seconds_left, time_text};

use cwr_field::{Memory, put_decimal, put_digits};
use std::alloc::Allocator;

/// What is counted of long work.
#[derive(Clone, Copy, Debug, PartialEq, Eq, Hash)]
pub enum Counted {
    /// The entries of a register that is read.
    Entries,
    /// Files.
    Files,
}

/// How far long work is.
#[derive(Clone, Copy, Debug, PartialEq, Eq, Hash)]
pub struct HowFar {
    /// What is counted.
    pub counted: Counted,
    /// How many of them are done.
    pub done: u32,
    /// How many there are.
    pub total: u32,
    /// The milliseconds that the work took so far.
    pub millis: u32,
}

/// Appends how far long work is, as `1,200,000 of 10,000,000 entries, 12 seconds left`.
///
/// The time that is left is reckoned from what is done and the time that it took. It is left out while less than a
/// hundredth is done, and once all is.
pub fn put_progress<A: Allocator>(out: &mut Vec<u8, A>, far: &HowFar) -> Result<(), Memory>
    ensures { OnOk result (out.new.items ≡ out.old.items ++ progress_text far.now) }
{
    put_grouped(out, far.done)?;
    out.extend_from_slice(b" of ")?;
    put_grouped(out, far.total)?;
    out.extend_from_slice(counted_text(far.counted))?;
    put_left(out, far)
}

/// What is counted, behind a blank.
fn counted_text(counted: Counted) -> &'static [u8]
    ensures { result.now ≡ counted_text counted }
{
    match counted {
        Counted::Entries => b" entries",
        Counted::Files => b" files",
    }
}

/// Appends a number with commas between its thousands.
fn put_grouped<A: Allocator>(out: &mut Vec<u8, A>, number: u32) -> Result<(), Memory>
    ensures { OnOk result (out.new.items ≡ out.old.items ++ grouped number) }
{
    let number = number as u64;
    if number < 1000 {
        put_decimal(out, number)?;
    } else if number < 1_000_000 {
        put_decimal(out, number / 1000)?;
        out.extend_from_slice(b",")?;
        put_digits(out, number % 1000, 3)?;
    } else {
        put_decimal(out, number / 1_000_000)?;
        out.extend_from_slice(b",")?;
        put_digits(out, number / 1000 % 1000, 3)?;
        out.extend_from_slice(b",")?;
        put_digits(out, number % 1000, 3)?;
    }
    Ok(())
}

/// Appends the time that is left, if enough is known.
fn put_left<A: Allocator>(out: &mut Vec<u8, A>, far: &HowFar) -> Result<(), Memory>
    ensures { OnOk result (out.new.items ≡ out.old.items ++ left_text far.now) }
{
    if is_foreseen(far) {
        out.extend_from_slice(b", ")?;
        put_time(out, seconds_left(far))?;
        out.extend_from_slice(b" left")?;
    }
    Ok(())
}

/// Whether enough is known of how long the work takes: a hundredth of it is done, and not all of it.
fn is_foreseen(far: &HowFar) -> bool
    ensures { result ≡ is_foreseen far.now }
{
    far.done < far.total && far.total as u64 <= 100 * far.done as u64
}

/// The seconds that are left, a begun one whole, where all that is left takes as long as what is done did.
fn seconds_left(far: &HowFar) -> u64
    requires { IsTrue (is_foreseen far.now) }
    ensures value { result ≡ seconds_left far.now }
    ensures fits { result < 18446744073709551556 }
{
    let left = (far.total - far.done) as u64;
    far.millis as u64 * left / (1000 * far.done as u64) + 1
}

/// Appends a time of so many seconds.
fn put_time<A: Allocator>(out: &mut Vec<u8, A>, seconds: u64) -> Result<(), Memory>
    requires { seconds < 18446744073709551556 }
    ensures { OnOk result (out.new.items ≡ out.old.items ++ time_text seconds) }
{
    if seconds == 1 {
        out.extend_from_slice(b"1 second")?;
    } else if seconds < 120 {
        put_decimal(out, seconds)?;
        out.extend_from_slice(b" seconds")?;
    } else {
        put_decimal(out, (seconds + 59) / 60)?;
        out.extend_from_slice(b" minutes")?;
    }
    Ok(())
}
