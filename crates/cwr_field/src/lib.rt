//! Fields of fixed width in a line of bytes, as CWR 2.2 writes them: numbers, shares, days, times, work codes
//! (ISWC), interested party numbers and texts.
//!
//! A line is read by [`cut`], which gives a [`Field`]. Each kind of value has one reader of a field: [`digits`],
//! [`share`], [`date`], [`time`], [`iswc`], [`party`].
//!
//! [`put_digits`] and [`put_text`] append fields, and [`put_decimal`] appends numbers between words. [`last_digits`]
//! gives digits as an array, and [`filled`] gives a text filled up with blanks. [`fill_digits`] and [`fill_text`] write
//! over bytes that are there.
//!
//! [`is_printable`] reports whether a text has no control byte. [`is_free_before`] tests many bytes at once for those
//! below or above a limit. Positions are counted from 1, as in the CWR manual.
#![tactic(auto)]

mod clock;
mod codes;
mod day;
mod field;
mod memory;
mod number;
mod scan;
mod text;
mod work_code;

pub use clock::{Clock, time};
pub use codes::Iswc;
pub use day::{Day, date};
pub use field::{Field, cut, is_blank, party};
pub use memory::Memory;
pub use number::{
    MAX_COUNT, MAX_WHOLE, MIN_WHOLE, WHOLE, digits, fill_digits, last_digits, number_of_four,
    put_decimal, put_digits, put_number, share,
};
pub use scan::{
    BLOCK, CONTROLS, RUN, Sought, has_byte_in_run, has_in_block, has_in_run, is_free_before,
    line_end,
};
pub use text::{MIN_PRINTABLE, fill_text, filled, is_printable, put_text};
pub use work_code::{MAX_CODE, check_digit, iswc, iswc_text};
