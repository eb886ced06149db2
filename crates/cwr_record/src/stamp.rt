ghost use Rattle.std.specs.Prelude.{◌≡◌, ◌≤◌, IsTrue};
ghost use Rattle.cwr_field.specs.Layout.{is_printable};
ghost use Rattle.cwr_record.specs.Stamp.{stamp_of};

use cwr_field::{Clock, Day, filled, is_printable};
use std::marker::Model;

/// The bytes of a sender's name.
const NAME_WIDTH: usize = 45;

/// Who acknowledges a file, and when: a society, its name, a date and a time.
#[derive(Clone, Copy, Debug, PartialEq, Eq)]
pub struct Stamp {
    society: u16,
    name: [u8; NAME_WIDTH],
    date: Day,
    time: Clock,
}

impl Model for Stamp {
    ghost use Rattle.std.specs.Prelude.{◌≤◌, IsTrue};
    ghost use Rattle.cwr_field.specs.Layout.{is_printable};
    ghost use Rattle.cwr_record.specs.Stamp.{StampParts};

    ghost Value = { StampParts };

    ghost view = { λ s. record { society = s.society; name = s.name; date = s.date; time = s.time } };

    ghost invariant = { λ s. (s.society ≤ 999) × IsTrue (is_printable s.name) };

    ghost inverse = { λ p. record { society = p.society; name = p.name; date = p.date; time = p.time } };
}

impl Stamp {
    /// A stamp with these parts. The name is filled with blanks to 45 bytes.
    ///
    /// `None` exactly where the society is above 999, or the name is longer than 45 bytes or has a byte below 32.
    pub fn new(society: u16, name: &[u8], date: Day, time: Clock) -> Option<Stamp>
        ensures { result ≡ stamp_of society name.now date time }
    {
        if society <= 999 && name.len() <= NAME_WIDTH && is_printable(name) {
            let name = filled(name);
            Some(Stamp {
                society,
                name,
                date,
                time,
            })
        } else {
            None
        }
    }

    /// The society's number (CISAC), at most 999.
    pub fn society(&self) -> u16
        ensures value { result ≡ self.now.society }
        ensures small { result ≤ 999 }
    {
        self.society
    }

    /// The name, filled with blanks. No byte is below 32.
    pub fn name(&self) -> [u8; 45]
        ensures value { result ≡ self.now.name }
        ensures printable { IsTrue (is_printable result) }
    {
        self.name
    }

    /// The date of the acknowledgement.
    pub fn date(&self) -> Day
        ensures { result ≡ self.now.date }
    {
        self.date
    }

    /// The time of the acknowledgement.
    pub fn time(&self) -> Clock
        ensures { result ≡ self.now.time }
    {
        self.time
    }
}
