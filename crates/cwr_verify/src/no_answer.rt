/// Why a file is not acknowledged again. Nothing was written, except where a write failed.
#[derive(Clone, Copy, Debug, PartialEq, Eq)]
pub enum NoAnswer {
    /// Memory was refused.
    Memory,
    /// The file has more bytes than a file may have.
    TooLong,
    /// The file is not well-formed: this is its first fault.
    Refused {
        /// The fault, 1 to 12 for F1 to F12.
        number: u8,
        /// The line that has it, from 1. The one after the last line is the end of the file.
        line: u64,
    },
    /// The register has no entry with the number that was named, or that entry does not have the call of the file's
    /// first transaction.
    OtherEntry,
    /// No run of entries has the calls of the transactions up to this one, the first such one. Where an entry was
    /// named, there is no such run from it on, and else there is none in the register.
    Transaction {
        /// Group id of its group, from 1.
        group: u32,
        /// Its number in its group, from 0.
        sequence: u32,
    },
    /// A write failed, or took nothing.
    Write {
        /// How many bytes of the acknowledgement were written: its first ones.
        sent: u64,
    },
}
