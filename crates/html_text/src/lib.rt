//! HTML as text: a page is a list of pieces, of which the fragments are markup, and the others numbers and bytes. What is
//! shown of a file or of a register begins and ends nothing in it.
//!
//! [`put`] appends a [`Fragment`], [`put_number`] a number. [`put_text`] appends a text in UTF-8, [`put_shown`] any bytes,
//! [`put_field_shown`] those of a marked field, and [`put_name`] the name of a file. A refusal of memory may leave a part
//! of it. [`write_block`] writes what was gathered. [`laws`] says what the definition of a page means.
#![tactic(auto)]

mod file_name;
mod fragment;
mod kept;
pub mod laws;
mod page;
mod pieces;
mod signs;

pub use cwr_field::Memory;
pub use file_name::put_name;
pub use fragment::{Fragment, markup};
pub use page::{PageError, write_block};
pub use pieces::{
    put, put_byte, put_field_shown, put_number, put_shown, put_text, without_trailing,
};
pub use signs::put_beyond;
