//! What HDR says of a file.

ghost use Rattle.std.specs.Prelude.{◌≡◌, ◌≤◌, ◌++◌, OnOk};
ghost use Rattle.cwr_field.specs.Layout.{field};
ghost use Rattle.cwr_record.specs.Columns.{field_at, header_name};
ghost use Rattle.cwr_record.specs.Territory.{without_trailing};
ghost use Rattle.html_text.specs.Pieces.{page_text, shown};
ghost use Rattle.check_pages.specs.Facts.{day_pieces, header_pieces, submitter_pieces, time_pieces};

use cwr_field::{Memory, cut};
use cwr_record::{Header, field_at};
use html_text::{Fragment, put, put_shown, without_trailing};
use std::alloc::Allocator;

/// Appends what HDR says. `line` has its bytes.
#[tactic(auto, using(html_text::proofs::lemmas::Pages::page_append), unfolding(crate::specs::Facts::header_pieces))]
pub(crate) fn put_header<A: Allocator>(out: &mut Vec<u8, A>, line: &[u8]) -> Result<(), Memory>
    ensures { OnOk result (out.new.items ≡ out.old.items ++ page_text (header_pieces line.now)) }
{
    put_submitter(out, line)?;
    put(out, Fragment::Created)?;
    put_day(out, line)?;
    put(out, Fragment::Space)?;
    put_time(out, line)?;
    put(out, Fragment::Dd)
}

/// Appends the submitter that HDR names.
#[tactic(auto, using(html_text::proofs::lemmas::Pages::page_append), unfolding(crate::specs::Facts::submitter_pieces))]
fn put_submitter<A: Allocator>(out: &mut Vec<u8, A>, line: &[u8]) -> Result<(), Memory>
    ensures { OnOk result (out.new.items ≡ out.old.items ++ page_text (submitter_pieces line.now)) }
{
    put(out, Fragment::Submitter)?;
    put_part::<2, A>(out, line, 4)?;
    put(out, Fragment::Space)?;
    put_part::<9, A>(out, line, 6)?;
    put(out, Fragment::Space)?;
    put_name(out, line)?;
    put(out, Fragment::SubmitterEnd)
}

/// Appends the submitter's name, without the blanks behind it.
fn put_name<A: Allocator>(out: &mut Vec<u8, A>, line: &[u8]) -> Result<(), Memory>
    ensures { OnOk result (out.new.items ≡ out.old.items ++ page_text (shown (without_trailing (field_at line.now header_name)))) }
{
    let name = field_at(line, Header::NAME).bytes::<45>();
    put_shown(out, without_trailing(&name))
}

/// Appends the day on which the file was made.
#[tactic(auto, using(html_text::proofs::lemmas::Pages::page_append), unfolding(crate::specs::Facts::day_pieces))]
fn put_day<A: Allocator>(out: &mut Vec<u8, A>, line: &[u8]) -> Result<(), Memory>
    ensures { OnOk result (out.new.items ≡ out.old.items ++ page_text (day_pieces line.now)) }
{
    put_part::<4, A>(out, line, 65)?;
    put(out, Fragment::Dash)?;
    put_part::<2, A>(out, line, 69)?;
    put(out, Fragment::Dash)?;
    put_part::<2, A>(out, line, 71)
}

/// Appends the time of that day.
#[tactic(auto, using(html_text::proofs::lemmas::Pages::page_append), unfolding(crate::specs::Facts::time_pieces))]
fn put_time<A: Allocator>(out: &mut Vec<u8, A>, line: &[u8]) -> Result<(), Memory>
    ensures { OnOk result (out.new.items ≡ out.old.items ++ page_text (time_pieces line.now)) }
{
    put_part::<2, A>(out, line, 73)?;
    put(out, Fragment::TimeColon)?;
    put_part::<2, A>(out, line, 75)?;
    put(out, Fragment::TimeColon)?;
    put_part::<2, A>(out, line, 77)
}

/// Appends `N` bytes of a line, from a position on.
fn put_part<const N: usize, A: Allocator>(
    out: &mut Vec<u8, A>,
    line: &[u8],
    start: usize,
) -> Result<(), Memory>
    requires start { (1 ≤ start) × (start ≤ 4096) }
    requires width { (1 ≤ N) × (N ≤ 150) }
    ensures { OnOk result (out.new.items ≡ out.old.items ++ page_text (shown (field line.now start N))) }
{
    let bytes = cut(line, start, N).bytes::<N>();
    put_shown(out, &bytes)
}
