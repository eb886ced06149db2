//! The first ten of what is ranked.

ghost use Rattle.std.specs.Prelude.{◌≡◌, ◌≤◌, Bool, insert, length, take, OnOk};
ghost use Rattle.register_tables.specs.Summary.{placed};

use std::alloc::{AllocError, Allocator};

/// What is ranked.
pub(crate) trait Ranked {
    ghost ahead: { Self → Self → Bool };

    /// Whether it comes before the other.
    fn is_ahead(self, other: Self) -> bool
        ensures { result ≡ ahead self other };
}

/// Places one among the first ten.
pub(crate) fn place<T: Ranked + Copy + Drop, A: Allocator + Copy + Drop>(
    top: &mut Vec<T, A>,
    one: T,
) -> Result<(), AllocError>
    ensures { OnOk result (top.new.items ≡ take 10 (placed T.ahead one top.old.items)) }
{
    let at = place_of(top, one);
    match top.insert(at, one) {
        Ok(()) => {}
        Err(_) => return Err(AllocError),
    }
    top.truncate(10);
    Ok(())
}

/// Where one is placed: before the first that it is ahead of.
fn place_of<T: Ranked + Copy + Drop>(top: &[T], one: T) -> usize
    ensures within { result ≤ length top.now }
    ensures placed { insert top.now result one ≡ placed T.ahead one top.now }
{
    for at in 0..top.len() {
        if one.is_ahead(top[at]) {
            return at;
        }
    }
    top.len()
}
