use crate::reading::ReadText;
use std::alloc::{Allocator, Global};
use std::marker::Model;

/// A file that was sent, and the acknowledgement that is said to answer it.
#[derive(Debug, Drop)]
pub struct SentFile<'a> {
    /// The bytes of the file.
    pub text: &'a [u8],
    /// The bytes of its acknowledgement.
    pub acknowledgement: &'a [u8],
}

impl<'a> Model for SentFile<'a> {
    ghost use Rattle.cwr_verify.specs.Sent.{Sent};

    ghost Value = { Sent };

    ghost view = { λ f. record { text = f.text.now; acknowledgement = f.acknowledgement.now } };
}

/// A file that was sent and read, so that its bytes are not held, and the acknowledgement that is said to answer it.
#[derive(Drop)]
pub struct ReadFile<'a, A: Allocator = Global> {
    /// What the bytes of the file were judged to.
    pub text: ReadText<A>,
    /// The bytes of its acknowledgement.
    pub acknowledgement: &'a [u8],
}
