//! A line of known length that is put together field by field.

ghost use Rattle.std.specs.Prelude.{◌≡◌, ℕ, List, ◌++◌, [], ◌≤◌, ◌+◌, length};
ghost use Rattle.cwr_record.specs.FieldValues.{field_value_text, field_value_width, FitsField, IsDated};

use crate::field_values::{FieldValue, fill_field_value, width_of};
use std::marker::Model;

/// A line of at most `N` bytes that is put together field by field, in memory of its own.
///
/// A contract sees it as the list of the bytes so far.
#[derive(Drop)]
pub struct LineRoom<const N: usize> {
    bytes: [u8; N],
    end: usize,
}

impl<const N: usize> Model for LineRoom<N> {
    ghost use Rattle.std.specs.Prelude.{ℕ, List, take, ◌≤◌};

    ghost Value = { List ℕ };

    ghost view = { λ line. take line.end line.bytes };

    ghost invariant = { λ line. line.end ≤ N };
}

impl<const N: usize> LineRoom<N> {
    /// A line without a byte.
    #[inline(always)]
    pub fn new() -> Self
        ensures { result ≡ [] }
    {
        LineRoom {
            bytes: [b' '; N],
            end: 0,
        }
    }

    /// Appends a field. There must be room for it.
    #[inline(always)]
    pub fn put(&mut self, field_value: &FieldValue)
        requires fits { FitsField field_value.now }
        requires room { length self.old + field_value_width field_value.now ≤ N }
        ensures text { self.new ≡ self.old ++ field_value_text field_value.now }
        // The same, with any bytes behind it.
        ensures before { (behind : List ℕ) → self.new ++ behind ≡ self.old ++ (field_value_text field_value.now ++ behind) }
        ensures dated { IsDated field_value.now }
    {
        let start = self.end;
        let end = start + width_of(field_value);
        let bytes = &mut self.bytes[..];
        fill_field_value(&mut bytes[start..end], field_value);
        self.end = end;
    }

    /// The line.
    #[inline(always)]
    pub fn bytes(&self) -> &[u8]
        ensures line { result.now ≡ self.now }
        ensures within { length result.now ≤ N }
    {
        &self.bytes[..self.end]
    }
}
