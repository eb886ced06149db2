ghost use Rattle.std.specs.Prelude.{◌≡◌, ◌<◌, ◌≤◌, ◌==◌, ◌∷◌, ◌++◌, ◌⊎◌, ℕ, List, [], None, true, false, length, take, drop, IfSome, IfNone};
ghost use Rattle.std.specs.Iterator.{YieldsFirstRef, item_count};
ghost use Rattle.std.specs.List.{position, position_or_len};
ghost use Rattle.std.specs.Str.Lines.{lines, strip_carriage_return};
ghost use Rattle.cwr_field.specs.Layout.{is_control};
ghost use Rattle.cwr_grammar.specs.FaultTests.{has_control};

use crate::control_bytes::first_control_near;
use std::iter::FusedIterator;
use std::marker::Model;

/// The lines of a text that are still to come, in order. They borrow the text.
///
/// LF ends a line, and one CR before it is no part of the line. The last line may lack its LF, and then keeps a CR at
/// its end. The empty text has no lines. A contract sees this iterator as the list of the lines.
#[derive(Clone, Debug, Drop)]
pub struct Lines<'a> {
    rest: &'a [u8],
}

impl<'a> Model for Lines<'a> {
    ghost use Rattle.std.specs.Prelude.{List, ℕ};
    ghost use Rattle.std.specs.Str.Lines.{lines};

    ghost Value = { List (List ℕ) };

    ghost view = { λ l. lines l.rest.now };
}

impl<'a> Lines<'a> {
    /// The lines of a text.
    pub fn of(text: &'a [u8]) -> Lines<'a>
        ensures { result ≡ lines text.now }
    {
        Lines { rest: text }
    }
}

impl<'a> Iterator for Lines<'a> {
    type Item = &'a [u8];

    ghost next_gives = { YieldsFirstRef (λ l. l) };

    ghost remaining = { item_count (λ l. l) };

    fn next(&mut self) -> Option<&'a [u8]> {
        let line = first_line_near(self.rest, 0)?;
        self.rest = &self.rest[line.size..];
        Some(line.bytes)
    }
}

impl FusedIterator for Lines<'_> {}

/// The first line of a text.
#[derive(Clone, Copy)]
pub(crate) struct FirstLine<'a> {
    pub(crate) bytes: &'a [u8],
    /// How many bytes it has with its end.
    pub(crate) size: usize,
    /// No byte of it is below 32. Where this is false, one may be.
    pub(crate) is_clean: bool,
    /// An LF ends it.
    pub(crate) is_whole: bool,
}

/// The first line of a text. `guess` is how many bytes it probably has without its end.
#[inline(always)]
pub(crate) fn first_line_near(text: &[u8], guess: usize) -> Option<FirstLine<'_>>
    ensures none { IfNone result (text.now ≡ []) }
    ensures line { IfSome result (λ x. lines text.now ≡ x.bytes.now ∷ lines (drop x.size text.now)) }
    ensures some { IfSome result (λ x. 0 < x.size) }
    ensures inside { IfSome result (λ x. x.size ≤ length text.now) }
    ensures clean { IfSome result (λ x. x.is_clean ≡ true → has_control x.bytes.now ≡ false) }

    // Its bytes are the whole text, or are a line with its end before any other bytes too.
    ensures whole { IfSome result (λ x. (length text.now ≤ x.size) ⊎ ((more : List ℕ) → lines (take x.size text.now ++ more) ≡ x.bytes.now ∷ lines more)) }
    ensures ended { IfSome result (λ x. x.is_whole ≡ true → (more : List ℕ) → lines (take x.size text.now ++ more) ≡ x.bytes.now ∷ lines more) }
    ensures unended { IfSome result (λ x. x.is_whole ≡ false → position (λ b. b == 10) text.now ≡ None) }
{
    if text.is_empty() {
        return None;
    }
    // The first byte below 32 is mostly the line's end.
    let end = first_control_near(text, guess);
    match line_end(text, end) {
        Some(size) => Some(FirstLine {
            bytes: &text[..end],
            size,
            is_clean: true,
            is_whole: true,
        }),
        None => Some(other_line(text)),
    }
}

/// How many bytes the first line has with its end, where the first byte below 32, at `end`, begins a line end; `None`
/// where it does not.
fn line_end(text: &[u8], end: usize) -> Option<usize>
    requires { end ≡ position_or_len is_control text.now }
    ensures some { IfSome result (λ size. end < size) }
    ensures inside { IfSome result (λ size. size ≤ length text.now) }
    ensures line { IfSome result (λ size. lines text.now ≡ take end text.now ∷ lines (drop size text.now)) }
    ensures whole { IfSome result (λ size. (more : List ℕ) → lines (take size text.now ++ more) ≡ take end text.now ∷ lines more) }
    ensures clean { IfSome result (λ size. has_control (take end text.now) ≡ false) }
{
    if end < text.len() && text[end] == b'\n' {
        return Some(end + 1);
    }
    if end < text.len() && text[end] == b'\r' && end + 1 < text.len() && text[end + 1] == b'\n' {
        return Some(end + 2);
    }
    None
}

/// The first line of a text that is not empty, whatever bytes the line has: only its LF is looked for.
fn other_line(text: &[u8]) -> FirstLine<'_>
    requires { 0 < length text.now }
    ensures line { lines text.now ≡ result.bytes.now ∷ lines (drop result.size text.now) }
    ensures some { 0 < result.size }
    ensures inside { result.size ≤ length text.now }
    ensures clean { result.is_clean ≡ true → has_control result.bytes.now ≡ false }

    // Its bytes are the whole text, or are a line with its end before any other bytes too.
    ensures whole { (length text.now ≤ result.size) ⊎ ((more : List ℕ) → lines (take result.size text.now ++ more) ≡ result.bytes.now ∷ lines more) }
    ensures ended { result.is_whole ≡ true → (more : List ℕ) → lines (take result.size text.now ++ more) ≡ result.bytes.now ∷ lines more }
    ensures unended { result.is_whole ≡ false → position (λ b. b == 10) text.now ≡ None }
{
    match cwr_field::line_end(text) {
        Some(end) => FirstLine {
            bytes: without_return(&text[..end]),
            size: end + 1,
            is_clean: false,
            is_whole: true,
        },
        None => FirstLine {
            bytes: text,
            size: text.len(),
            is_clean: false,
            is_whole: false,
        },
    }
}

/// The bytes of a line that an LF ended, without one CR at their end.
fn without_return(line: &[u8]) -> &[u8]
    ensures { result.now ≡ strip_carriage_return line.now }
{
    match line {
        [front @ .., b'\r'] => front,
        _ => line,
    }
}
