ghost use Rattle.std.specs.Prelude.{◌≡◌, ◌+◌, ◌++◌, ◌<◌, OnOk};
ghost use Rattle.html_text.specs.Pieces.{page_text};
ghost use Rattle.check_pages.specs.Rulers.{dots, ruler, ruler_row, ruler_ten};

use cwr_field::Memory;
use html_text::{Fragment, put, put_number};
use std::alloc::Allocator;

/// The columns of a row.
const ROW: u64 = 80;

/// Appends the ruler of the rows up to this one, of which the first is 0.
#[tactic(auto, using(html_text::proofs::lemmas::Pages::page_append), unfolding(crate::specs::Rulers::ruler))]
pub(crate) fn put_ruler<A: Allocator>(out: &mut Vec<u8, A>, last: u64) -> Result<(), Memory>
    requires { last < 100 }
    ensures { OnOk result (out.new.items ≡ out.old.items ++ page_text (ruler last)) }
{
    put_row(out, 0)?;
    for row in 0..last {
        put(out, Fragment::RulerRow)?;
        put_row(out, ROW * (row + 1))?;
    }
    Ok(())
}

/// Appends the ruler of a row behind so many columns.
#[tactic(auto, using(html_text::proofs::lemmas::Pages::page_append))]
fn put_row<A: Allocator>(out: &mut Vec<u8, A>, before: u64) -> Result<(), Memory>
    requires { before < 10_000 }
    ensures { OnOk result (out.new.items ≡ out.old.items ++ page_text (ruler_row before)) }
{
    for ten in [10, 20, 30, 40, 50, 60, 70, 80] {
        put_ten(out, before + ten)?;
    }
    Ok(())
}

/// Appends the ruler of ten columns, the last of which has this number.
#[tactic(auto, using(html_text::proofs::lemmas::Pages::page_append))]
fn put_ten<A: Allocator>(out: &mut Vec<u8, A>, number: u64) -> Result<(), Memory>
    ensures { OnOk result (out.new.items ≡ out.old.items ++ page_text (ruler_ten number)) }
{
    put(out, Fragment::RulerTen)?;
    put_dots(out, number)?;
    put_number(out, number)
}

/// Appends what stands before a number, so that it ends in the fifth place.
fn put_dots<A: Allocator>(out: &mut Vec<u8, A>, number: u64) -> Result<(), Memory>
    ensures { OnOk result (out.new.items ≡ out.old.items ++ page_text (dots number)) }
{
    if number < 1000 {
        put(out, Fragment::Dot)?;
    }
    if number < 100 {
        put(out, Fragment::Dot)?;
    }
    put(out, Fragment::Dot)
}
