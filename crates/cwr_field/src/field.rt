ghost use Rattle.std.specs.Prelude.{◌≡◌, ◌≤◌, ◌<◌, ◌==◌, true, length, slice_index, IfSome, IfNone};
ghost use Rattle.std.specs.List.{list_any};
ghost use Rattle.cwr_field.specs.Layout.{field, is_blank, party_of};

use crate::text::filled;
use std::marker::Model;

/// A field of a line: the bytes that the line has there, and blanks up to the field's width.
///
/// It borrows the line. A contract sees it as the list of its bytes, the blanks included.
#[derive(Drop)]
pub struct Field<'a> {
    bytes: &'a [u8],
    width: usize,
}

impl<'a> Model for Field<'a> {
    ghost use Rattle.std.specs.Prelude.{List, ℕ, ◌≤◌, length, ◌-◌};
    ghost use Rattle.cwr_field.specs.Layout.{padded};

    ghost Value = { List ℕ };

    ghost view = { λ f. padded f.width f.bytes.now };

    ghost invariant = { λ f. (length f.bytes.now ≤ f.width) × (f.width ≤ 150) };
}

/// The field of a line that starts at a position, counted from 1, and is `width` bytes wide.
///
/// The position is at most 4096, the longest line of a file. The width is from 1 to 150. A line that is too short for
/// the field reads as if it went on in blanks without end.
pub fn cut(line: &[u8], start: usize, width: usize) -> Field<'_>
    requires start { (1 ≤ start) × (start ≤ 4096) }
    requires width { (1 ≤ width) × (width ≤ 150) }
    ensures value { result ≡ field line.now start width }
    ensures width { length result ≡ width }
{
    let rest = line.get(start - 1..).unwrap_or(&[]);
    let bytes = rest.get(..width).unwrap_or(rest);
    Field { bytes, width }
}

impl Field<'_> {
    /// How many bytes it has, the blanks past the line's end included.
    pub fn width(&self) -> usize
        ensures value { result ≡ length self.now }
        ensures small { result ≤ 150 }
    {
        self.width
    }

    /// The byte at an index, counted from 0.
    pub fn byte(&self, index: usize) -> u8
        requires { index < length self.now }
        ensures { result ≡ slice_index self.now index }
    {
        self.bytes.get(index).copied().unwrap_or(b' ')
    }

    /// The bytes of a field that is `N` bytes wide.
    pub fn bytes<const N: usize>(&self) -> [u8; N]
        requires { length self.now ≡ N }
        ensures { result ≡ self.now }
    {
        match self.bytes.first_chunk::<N>() {
            Some(bytes) => *bytes,
            None => filled(self.bytes),
        }
    }

    /// Whether each byte is a blank.
    pub fn is_blank(&self) -> bool
        ensures { result ≡ is_blank self.now }
    {
        are_blank(self.bytes)
    }

    /// The bytes of the field as they lie in the line. `None` where the line ends before the field does.
    pub(crate) fn whole(&self) -> Option<&[u8]>
        ensures some { IfSome result (λ bytes. bytes.now ≡ self.now) }
        ensures none { IfNone result (list_any (λ b. b == 32) self.now ≡ true) }
    {
        (self.bytes.len() == self.width).then_some(self.bytes)
    }

    /// The bytes of a field that is `N` bytes wide, as they lie in the line. `None` where the line ends before the
    /// field does.
    #[inline(always)]
    pub(crate) fn whole_bytes<const N: usize>(&self) -> Option<[u8; N]>
        requires { length self.now ≡ N }
        ensures some { IfSome result (λ bytes. bytes ≡ self.now) }
        ensures none { IfNone result (list_any (λ b. b == 32) self.now ≡ true) }
    {
        match self.whole()?.first_chunk::<N>() {
            Some(bytes) => Some(*bytes),
            None => unreachable!(),
        }
    }
}

/// Whether each byte is a blank.
pub(crate) fn are_blank(bytes: &[u8]) -> bool
    ensures { result ≡ is_blank bytes.now }
{
    bytes.iter().all(|byte| *byte == b' ')
}

/// Whether each byte of the field is a blank.
pub fn is_blank(text: Field) -> bool
    ensures { result ≡ is_blank text.entry }
{
    text.is_blank()
}

/// The interested party number of a field: its nine bytes, or `None` for nine blanks.
pub fn party(text: Field) -> Option<[u8; 9]>
    requires { length text ≡ 9 }
    ensures { result ≡ party_of text.entry }
{
    if text.is_blank() {
        return None;
    }
    Some(text.bytes::<9>())
}
