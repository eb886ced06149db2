use cwr_field::MAX_COUNT;

/// The greatest number of bytes of a submission file.
pub const MAX_BYTES: usize = 16_777_216;

/// The greatest number of entries of a book: as many as the eight digits of a register can number.
pub const MAX_ENTRIES: u32 = MAX_COUNT;
