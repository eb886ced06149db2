//! Pages that are written.

ghost use Rattle.std.specs.Prelude.{◌≡◌, OnOk};
ghost use Rattle.std.specs.Io.KnownBytes.{Appends};
ghost use Rattle.html_text.specs.declared.page.PageError.TheVariants.{Memory as refused};

use cwr_field::Memory;
use std::io::Write;

/// Why a page was not written completely.
#[derive(Clone, Copy, Debug, PartialEq, Eq)]
pub enum PageError {
    /// An allocation failed. What was written before it stays, so the page may have no end; a page that is made whole
    /// before it is written has then written nothing.
    Memory,
    /// A write failed or took nothing. What was written before it stays, so the page has no end.
    Write,
}

impl From<Memory> for PageError {
    ghost from_gives = { λ _ e. e ≡ refused };

    fn from(_error: Memory) -> PageError {
        PageError::Memory
    }
}

/// Writes a block of a page.
///
/// # Errors
///
/// `PageError::Write` where a write failed or took nothing; what was written before it stays.
pub fn write_block<W: Write>(to: &mut W, block: &[u8]) -> Result<(), PageError>
    ensures { OnOk result (Appends (W.contents to.old) (W.contents to.new) block.now) }
{
    match to.write_all(block) {
        Ok(()) => Ok(()),
        Err(_) => Err(PageError::Write),
    }
}
