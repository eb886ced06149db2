ghost use Rattle.std.specs.Prelude.{◌≡◌, ◌≤◌, ◌<◌, length, IsTrue};
ghost use Rattle.cwr_field.specs.Calendar.{day_of, is_date, is_day};

use crate::field::Field;
use crate::number::number_of_eight;
use jiff_core::civil::Date;
use std::marker::Model;

/// A day of the Gregorian calendar in the years 1 to 9999.
///
/// A contract sees it as the number that its digits `YYYYMMDD` spell.
#[derive(Clone, Copy, Debug, PartialEq, Eq, Hash)]
pub struct Day {
    year: u16,
    month: u8,
    day: u8,
}

impl Model for Day {
    ghost use Rattle.std.specs.Prelude.{ℕ, ◌+◌, ◌*◌, ◌/◌, ◌%◌, ◌<◌, IsTrue};
    ghost use Rattle.cwr_field.specs.Calendar.{is_date};

    ghost Value = { ℕ };

    ghost view = { λ d. d.year * 10000 + d.month * 100 + d.day };

    ghost invariant = { λ d. (d.month < 100) × (d.day < 100) × IsTrue (is_date d.year d.month d.day) };

    ghost inverse = { λ n. record { year = n / 10000; month = n / 100 % 100; day = n % 100 } };
}

impl Day {
    /// The eight digits of `YYYYMMDD` as a number.
    pub fn number(self) -> u32
        ensures value { result ≡ self }
        ensures day { IsTrue (is_day self) }
    {
        self.year as u32 * 10000 + self.month as u32 * 100 + self.day as u32
    }
}

/// The day that a field of eight bytes names as `YYYYMMDD`.
pub fn date(text: Field) -> Option<Day>
    requires { length text ≡ 8 }
    ensures { result ≡ day_of text.entry }
{
    let number = number_of_eight(text.whole_bytes::<8>()?)?;
    let year = (number / 10000) as u16;
    let month = (number / 100 % 100) as u8;
    let day = (number % 100) as u8;
    if !is_date(year, month, day) {
        return None;
    }
    Some(Day { year, month, day })
}

/// Whether the calendar has this day.
fn is_date(year: u16, month: u8, day: u8) -> bool
    requires year { year ≤ 9999 }
    requires month { month < 100 }
    requires day { day < 100 }
    ensures { result ≡ is_date year month day }
{
    1 <= year && Date::new(year as i16, month as i8, day as i8).is_ok()
}
