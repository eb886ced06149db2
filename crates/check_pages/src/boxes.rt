//! Lines in their boxes, with fields marked.

ghost use Rattle.std.specs.Prelude.{◌≡◌, ◌+◌, ◌-◌, ◌^◌, ◌<◌, ◌≤◌, ◌++◌, ◌⊎◌, length, take, drop, min, replicate, OnOk};
ghost use Rattle.html_text.specs.Pieces.{page_text, Fixed};
ghost use Rattle.check_pages.specs.Boxes.{is_before, is_closed, is_inside, is_opened, is_start, is_within, line_shown, marked, place_shown, places, run_shown, where_so, IsRun};

use cwr_field::Memory;
use cwr_record::Column;
use html_text::{Fragment, put, put_beyond, put_field_shown, put_shown};
use std::alloc::Allocator;

/// The most places that are shown of a line.
pub(crate) const MOST_PLACES: usize = 4096;

/// Appends a line, with its fields between marks. `spots` are the fields' columns, in any order.
pub(crate) fn put_line<A: Allocator>(
    out: &mut Vec<u8, A>,
    line: &[u8],
    spots: &[Column],
    mark: Fragment,
) -> Result<(), Memory>
    ensures { OnOk result (out.new.items ≡ out.old.items ++ page_text (line_shown line.now spots.now mark)) }
{
    let last = places(line.len(), spots);
    let mut at = 1;
    while at <= last {
        let end = run_end(line.len(), spots, at, last);
        put_run(out, line, spots, mark, last, at, end)?;
        at = end;
    }
    Ok(())
}

/// The number of places that are shown of a line of this size.
pub(crate) fn places(size: usize, spots: &[Column]) -> usize
    requires { size < 2 ^ 63 }
    ensures value { result ≡ places size spots.now }
    ensures most { result ≤ 4096 }
{
    let mut last = at_most(size + 1);
    for spot in spots {
        last = last.max(at_most(spot.start.saturating_add(spot.width).saturating_sub(1)));
    }
    last
}

/// A number, or the most places if it is greater.
fn at_most(number: usize) -> usize
    ensures value { result ≡ min 4096 number }
    ensures most { result ≤ 4096 }
{
    number.min(MOST_PLACES)
}

/// Appends the places of a run. `last` is the last place that is shown, and the run is the places from `at` on, before
/// `end`.
#[tactic(auto, using(html_text::proofs::lemmas::Pages::page_append))]
fn put_run<A: Allocator>(
    out: &mut Vec<u8, A>,
    line: &[u8],
    spots: &[Column],
    mark: Fragment,
    last: usize,
    at: usize,
    end: usize,
) -> Result<(), Memory>
    requires run { IsRun spots.now at end }
    requires first { 1 ≤ at }
    requires last { (end ≤ last + 1) × (last ≤ 4096) }
    requires whole { (end ≤ length line.now + 1) ⊎ (length line.now < at) }
    ensures { OnOk result (out.new.items ≡ out.old.items ++ page_text (marked (is_opened spots.now) (is_closed spots.now last) (place_shown line.now spots.now) mark at (end - at))) }
{
    put_where(out, is_opened(spots, at), mark)?;
    put_places(out, line, is_inside(spots, at), at, end)?;
    put_where(out, is_closed(spots, last, end - 1), Fragment::MarkEnd)
}

/// Appends what the places of a run show.
fn put_places<A: Allocator>(
    out: &mut Vec<u8, A>,
    line: &[u8],
    inside: bool,
    at: usize,
    end: usize,
) -> Result<(), Memory>
    requires some { (1 ≤ at) × (at < end) }
    requires whole { (end ≤ length line.now + 1) ⊎ (length line.now < at) }
    ensures { OnOk result (out.new.items ≡ out.old.items ++ page_text (run_shown line.now inside at end)) }
{
    if line.len() < at {
        put_beyond(out, end - at)
    } else if inside {
        put_field_shown(out, piece(line, at, end))
    } else {
        put_shown(out, piece(line, at, end))
    }
}

/// The bytes at places of a line.
fn piece(line: &[u8], at: usize, end: usize) -> &[u8]
    requires { (1 ≤ at) × (at < end) × (end ≤ length line.now + 1) }
    ensures { result.now ≡ take (end - at) (drop (at - 1) line.now) }
{
    &line[at - 1..end - 1]
}

/// Appends a fragment, if it is to stand.
pub(crate) fn put_where<A: Allocator>(
    out: &mut Vec<u8, A>,
    so: bool,
    fragment: Fragment,
) -> Result<(), Memory>
    ensures { OnOk result (out.new.items ≡ out.old.items ++ page_text (where_so so fragment)) }
{
    if so {
        return put(out, fragment);
    }
    Ok(())
}

/// The end of the run that begins at a place: the place behind its last.
fn run_end(size: usize, spots: &[Column], at: usize, last: usize) -> usize
    requires size { size < 2 ^ 63 }
    requires within { (at ≤ last) × (last ≤ 4096) }
    ensures run { IsRun spots.now at result }
    ensures last { result ≤ last + 1 }
    ensures whole { (result ≤ size + 1) ⊎ (size < at) }
{
    if at <= size && size < last {
        edge(spots, at, size + 1)
    } else {
        edge(spots, at, last + 1)
    }
}

/// The first place behind another at which a field begins, or before which one ends; `most` if there is none before
/// that.
fn edge(spots: &[Column], at: usize, most: usize) -> usize
    requires { (at < most) × (most ≤ 4097) }
    ensures run { IsRun spots.now at result }
    ensures most { result ≤ most }
{
    let mut end = most;
    for spot in spots {
        end = nearer(at, end, spot.start);
        end = nearer(at, end, spot.start.saturating_add(spot.width));
    }
    end
}

/// A place, if it is behind `at` and before `end`; else `end`.
fn nearer(at: usize, end: usize, place: usize) -> usize
    requires { at < end }
    ensures after { at < result }
    ensures least { (result ≤ end) × (at < place → result ≤ place) }
    ensures one { (result ≡ end) ⊎ (result ≡ place) }
{
    if at < place && place < end {
        place
    } else {
        end
    }
}

/// Whether a mark begins at a place.
fn is_opened(spots: &[Column], place: usize) -> bool
    requires { (1 ≤ place) × (place ≤ 4097) }
    ensures { result ≡ is_opened spots.now place }
{
    is_inside(spots, place) && (is_start(spots, place) || !is_before(spots, place))
}

/// Whether there is a place before this one, and it is one of these fields'.
fn is_before(spots: &[Column], place: usize) -> bool
    requires { (1 ≤ place) × (place ≤ 4097) }
    ensures { result ≡ is_before spots.now place }
{
    place > 1 && is_inside(spots, place - 1)
}

/// Whether a mark ends at a place. `last` is the last place that is shown.
fn is_closed(spots: &[Column], last: usize, place: usize) -> bool
    requires { place ≤ 4096 }
    ensures { result ≡ is_closed spots.now last place }
{
    is_inside(spots, place)
        && (place == last || is_start(spots, place + 1) || !is_inside(spots, place + 1))
}

/// Whether a place is one of these fields'.
fn is_inside(spots: &[Column], place: usize) -> bool
    requires { place ≤ 4097 }
    ensures { result ≡ is_inside spots.now place }
{
    for spot in spots {
        if is_within(place, *spot) {
            return true;
        }
    }
    false
}

/// Whether one of these fields begins at a place.
fn is_start(spots: &[Column], place: usize) -> bool
    ensures { result ≡ is_start spots.now place }
{
    for spot in spots {
        if spot.start == place && spot.width > 0 {
            return true;
        }
    }
    false
}

/// Whether a place is one of the field's.
fn is_within(place: usize, spot: Column) -> bool
    requires { place ≤ 4097 }
    ensures { result ≡ is_within place spot }
{
    spot.start <= place && place < spot.start.saturating_add(spot.width)
}
