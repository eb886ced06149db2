//! Numbers that are converted to digits line after line.

ghost use Rattle.std.specs.Prelude.{◌≡◌, ◌≤◌};
ghost use Rattle.cwr_field.specs.Number.{number_text};

use cwr_field::last_digits;
use std::marker::Model;

/// The number that was converted last, and its digits.
///
/// The same number is not converted again. The next number is not either, unless its last digit goes from 9 to 0.
#[derive(Drop)]
pub(crate) struct Numeral<const N: usize> {
    number: u32,
    digits: [u8; N],
}

impl<const N: usize> Model for Numeral<N> {
    ghost use Rattle.std.specs.Prelude.{ℕ, ◌≡◌};
    ghost use Rattle.cwr_field.specs.Number.{number_text};

    ghost Value = { ℕ };

    ghost view = { λ n. n.number };

    ghost invariant = { λ n. n.digits ≡ number_text N n.number };
}

impl<const N: usize> Numeral<N> {
    /// A number, with its digits.
    pub(crate) fn of(number: u32) -> Numeral<N>
        ensures { result ≡ number }
    {
        Numeral {
            number,
            digits: last_digits(number as u64),
        }
    }

    /// The last `N` digits of a number.
    #[inline(always)]
    pub(crate) fn spelled(&mut self, number: u32) -> [u8; N]
        requires { 1 ≤ N }
        ensures { result ≡ number_text N number }
    {
        let last = N - 1;
        if self.number as u64 + 1 == number as u64 && self.digits[last] < b'9' {
            self.digits[last] += 1;
            self.number = number;
        } else if self.number != number {
            *self = Numeral::of(number);
        }
        self.digits
    }
}
