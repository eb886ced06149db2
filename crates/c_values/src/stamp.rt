ghost use Rattle.std.specs.Prelude.{◌≡◌};
ghost use Rattle.c_values.specs.Stamps.{stamp_in};

use cwr_field::{cut, date, time};
use cwr_record::Stamp;

/// Who acknowledges, and when, as bytes: a society's number, its name filled with blanks, and a date and a time as
/// `YYYYMMDD` and `HHMMSS`.
#[repr(C)]
#[derive(Drop)]
pub struct StampBytes {
    pub society: u16,
    pub name: [u8; 45],
    pub date: [u8; 8],
    pub time: [u8; 6],
}

/// The stamp that the bytes name.
pub fn stamp_of(bytes: &StampBytes) -> Option<Stamp>
    ensures { result ≡ stamp_in bytes.now }
{
    let date = date(cut(&bytes.date, 1, 8))?;
    let time = time(cut(&bytes.time, 1, 6))?;
    Stamp::new(bytes.society, &bytes.name, date, time)
}
