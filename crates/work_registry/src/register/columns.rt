//! Where each field of a register's lines stands. No other code has these positions.
//!
//! The definitions have them as well, in `specs/RegisterColumns.antt`. Each function that reads or writes a field has a
//! contract in terms of the definitions, so the check refuses it where the two differ.

use cwr_record::Column;

/// A column by its start and its width.
macro_rules! column {
    ($start:literal, $width:literal) => {
        Column { start: $start, width: $width }
    };
}

/// The kind of the line: `REG` or `ENT`.
pub(super) const MARK: Column = column!(1, 3);

/// In the first line: the number of entries.
pub(super) const COUNT: Column = column!(4, 8);
/// How many bytes the fields of the first line take.
pub(super) const COUNT_WIDTH: usize = COUNT.start + COUNT.width - 1;

/// The position of the entry in the register, from 1.
pub(super) const INDEX: Column = column!(4, 8);
/// Sender Type and Sender ID.
pub(super) const SUBMITTER: Column = column!(12, 11);
/// The record type of the registration.
pub(super) const KIND: Column = column!(23, 3);
/// Work Title.
pub(super) const TITLE: Column = column!(26, 60);
/// Submitter Work #.
pub(super) const NUMBER: Column = column!(86, 14);
/// ISWC.
pub(super) const ISWC: Column = column!(100, 11);
/// The control of the performing right.
pub(super) const PERFORMING_CONTROL: Column = column!(111, 12);
/// The control of the mechanical right.
pub(super) const MECHANICAL_CONTROL: Column = column!(123, 12);
/// The control of the synchronization right.
pub(super) const SYNCHRONIZATION_CONTROL: Column = column!(135, 12);
/// Transaction Status.
pub(super) const STATUS: Column = column!(147, 2);
/// The registry's number of the work.
pub(super) const WORK: Column = column!(149, 8);
/// The version of the claim.
pub(super) const VERSION: Column = column!(157, 8);
/// How many faults follow.
pub(super) const FAULTS: Column = column!(165, 9);
/// How many bytes the fields of fixed place take.
pub(super) const HEAD_WIDTH: usize = FAULTS.start + FAULTS.width - 1;

/// In a fault: the record sequence.
pub(super) const FAULT_SEQUENCE: Column = column!(1, 8);
/// In a fault: the number of its rule.
pub(super) const FAULT_NUMBER: Column = column!(9, 2);
/// In a fault: the type of its record.
pub(super) const FAULT_RECORD_TYPE: Column = column!(11, 3);
/// How many bytes a fault takes.
pub(super) const FAULT_WIDTH: usize = FAULT_RECORD_TYPE.start + FAULT_RECORD_TYPE.width - 1;
