//! The name of a file.

ghost use Rattle.std.specs.Prelude.{◌≡◌, ◌++◌, OnOk};
ghost use Rattle.html_text.specs.FileNames.{file_name, name_byte};
ghost use Rattle.html_text.specs.Pieces.{page_text};

use crate::pieces::{put_byte, put_hex};
use cwr_field::{MIN_PRINTABLE, Memory};
use std::alloc::Allocator;

/// Appends the name of a file.
#[tactic(auto, using(crate::proofs::lemmas::Pages::page_append))]
pub fn put_name<A: Allocator>(out: &mut Vec<u8, A>, name: &[u8]) -> Result<(), Memory>
    ensures { OnOk result (out.new.items ≡ out.old.items ++ page_text (file_name name.now)) }
{
    for byte in name {
        put_name_byte(out, *byte)?;
    }
    Ok(())
}

/// Appends a byte of a file's name.
#[tactic(auto, unfolding(crate::specs::FileNames::name_byte))]
fn put_name_byte<A: Allocator>(out: &mut Vec<u8, A>, byte: u8) -> Result<(), Memory>
    ensures { OnOk result (out.new.items ≡ out.old.items ++ page_text (name_byte byte)) }
{
    if byte < MIN_PRINTABLE || byte == 127 {
        put_byte(out, b'\\')?;
        put_byte(out, b'x')?;
        return put_hex(out, byte);
    }
    put_byte(out, byte)
}
