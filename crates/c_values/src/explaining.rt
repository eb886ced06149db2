ghost use Rattle.std.specs.Prelude.{◌≡◌, ◌≢◌};
ghost use Rattle.rule_pages.specs.Texts.{texts_of_pages};
ghost use Rattle.c_values.specs.Answers.{no_memory, IsGiven};

use crate::handing::hand_out;
use crate::status::NO_MEMORY;
use rule_pages::{Page, texts_of_pages};
use std::alloc::Global;

/// Hands out pages.
pub fn write_pages(alloc: Global, pages: &[Page], out: &mut [u8], length: &mut usize) -> u32
    ensures told { result ≢ no_memory → IsGiven (texts_of_pages pages.now) out.old out.new length.new result }
    ensures same { result ≡ no_memory → (out.new ≡ out.old) × (length.new ≡ length.old) }
{
    match texts_of_pages(alloc, pages) {
        Ok(text) => hand_out(&text, out, length),
        Err(_) => NO_MEMORY,
    }
}
