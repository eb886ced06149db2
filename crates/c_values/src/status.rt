//! What a call from C returns, and what it means.

ghost use Rattle.std.specs.Prelude.{◌≡◌};
ghost use Rattle.c_values.specs.StatusTexts.{status_text};

/// The call was successful.
pub const DONE: u32 = 0;

/// The text is longer than the buffer for it. Its length is set, and nothing else was written.
pub const NO_ROOM: u32 = 1;

/// An allocation failed. Nothing was written.
pub const NO_MEMORY: u32 = 2;

/// The stamp is not valid: its society is above 999, its name has a byte below 32, or its date or its time is not
/// valid.
pub const BAD_STAMP: u32 = 3;

/// The text is no register; its first fault is set.
pub const FAULTY: u32 = 4;

/// No outcome has these numbers.
pub const NO_OUTCOME: u32 = 5;

/// The handle is closed: there is no registry behind it.
pub const SHUT: u32 = 6;

/// The handle is open already: there is a registry behind it.
pub const ALREADY_OPEN: u32 = 7;

/// The word names no rule and no answer.
pub const NO_RULE: u32 = 8;

/// The files and the register do not fit; what does not is set.
pub const UNVERIFIED: u32 = 9;

/// The words for a status.
pub fn text_of(status: u32) -> &'static [u8]
    ensures { result.now ≡ status_text status }
{
    match status {
        DONE => b"done",
        NO_ROOM => b"the room is too small for the text",
        NO_MEMORY => b"memory was refused",
        BAD_STAMP => b"not a stamp",
        FAULTY => b"not a register of one registry",
        NO_OUTCOME => b"not an outcome",
        SHUT => b"the registry is closed",
        ALREADY_OPEN => b"the registry is open already",
        NO_RULE => b"the word names no rule and no answer",
        UNVERIFIED => b"the files and the register do not fit",
        _ => b"not a status",
    }
}
