ghost use Rattle.std.specs.Prelude.{◌≡◌, ◌≢◌, MatchOption};
ghost use Rattle.rule_pages.specs.Texts.{texts_of_pages};
ghost use Rattle.c_values.specs.Answers.{no_memory, no_rule, IsGiven};
ghost use Rattle.purvilgo_c.specs.Explained.{pages_for};

use c_values::status::NO_RULE;
use c_values::write_pages;
use rule_pages::{every_page, page_named};
use std::alloc::Global;

/// Explains what a word names, a rule such as `F9` or an answer such as `CO`, or all of them for a word of no bytes:
/// its page goes to the front of `out`.
///
/// `NO_RULE` for any other word, and `NO_MEMORY`, leave `out` and `length` as they were. `NO_ROOM` if the text does not
/// fit: then `length` is set, and `out` stays as it was.
#[unsafe(no_mangle)]
pub extern "C" fn purvilgo_explain(
    alloc: Global,
    word: &[u8],
    out: &mut [u8],
    length: &mut usize,
) -> u32
    ensures told { MatchOption (pages_for word.now) (result ≡ no_rule) (λ pages. result ≢ no_memory → IsGiven (texts_of_pages pages) out.old out.new length.new result) }
    ensures no_rule { result ≡ no_rule → (out.new ≡ out.old) × (length.new ≡ length.old) }
    ensures no_memory { result ≡ no_memory → (out.new ≡ out.old) × (length.new ≡ length.old) }
{
    if word.is_empty() {
        return write_pages(alloc, every_page(), out, length);
    }
    match page_named(word) {
        Some(page) => write_pages(alloc, &[page], out, length),
        None => NO_RULE,
    }
}
