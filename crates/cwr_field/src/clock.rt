ghost use Rattle.std.specs.Prelude.{◌≡◌, ◌≤◌, ◌<◌, length, IsTrue};
ghost use Rattle.cwr_field.specs.Calendar.{time_of, is_time};

use crate::field::Field;
use crate::number::number_in;
use std::marker::Model;

/// A time of a day, to the second, from 00:00:00 to 23:59:59.
///
/// A contract sees it as the number that its digits `HHMMSS` spell.
#[derive(Clone, Copy, Debug, PartialEq, Eq, Hash)]
pub struct Clock {
    hour: u8,
    minute: u8,
    second: u8,
}

impl Model for Clock {
    ghost use Rattle.std.specs.Prelude.{ℕ, ◌+◌, ◌*◌, ◌/◌, ◌%◌, ◌<◌};

    ghost Value = { ℕ };

    ghost view = { λ t. t.hour * 10000 + t.minute * 100 + t.second };

    ghost invariant = { λ t. (t.hour < 24) × (t.minute < 60) × (t.second < 60) };

    ghost inverse = { λ n. record { hour = n / 10000; minute = n / 100 % 100; second = n % 100 } };
}

impl Clock {
    /// The six digits of `HHMMSS` as a number.
    pub fn number(self) -> u32
        ensures value { result ≡ self }
        ensures time { IsTrue (is_time self) }
    {
        self.hour as u32 * 10000 + self.minute as u32 * 100 + self.second as u32
    }
}

/// The time that a field of six bytes names as `HHMMSS`.
#[inline(always)]
pub fn time(text: Field) -> Option<Clock>
    requires { length text ≡ 6 }
    ensures { result ≡ time_of text.entry }
{
    let number = number_in(&text.whole_bytes::<6>()?)?;
    let hour = (number / 10000) as u8;
    let minute = (number / 100 % 100) as u8;
    let second = (number % 100) as u8;
    if hour < 24 && minute < 60 && second < 60 {
        Some(Clock {
            hour,
            minute,
            second,
        })
    } else {
        None
    }
}
