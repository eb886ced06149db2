use cwr_record::Column;
use std::alloc::{Allocator, Global};

/// Buffers, of which each block of a page is made.
#[derive(Drop)]
pub(crate) struct Rooms<A: Allocator = Global> {
    /// The block.
    pub(crate) out: Vec<u8, A>,
    /// A text that is to be a part of the block.
    pub(crate) text: Vec<u8, A>,
    /// The fields that are marked in a line.
    pub(crate) spots: Vec<Column, A>,
}
