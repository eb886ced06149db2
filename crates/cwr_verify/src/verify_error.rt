/// Why files and a register are not verified. Files are counted from 0, in the order in which they are given.
#[derive(Clone, Copy, Debug, PartialEq, Eq)]
pub enum VerifyError {
    /// Memory was refused.
    Memory,
    /// The file has more bytes than a file may have.
    TooLong {
        /// Which file.
        file: usize,
    },
    /// The file is not well-formed: this is its first fault.
    Refused {
        /// Which file.
        file: usize,
        /// The fault, 1 to 12 for F1 to F12.
        number: u8,
        /// The line that has it, from 1. The one after the last line is the end of the file.
        line: u64,
    },
    /// For this transaction of the file, the first such one, the register has no entry besides those of the
    /// transactions before it. An entry must have its call, and the reply that the acknowledgement contains.
    Transaction {
        /// Which file.
        file: usize,
        /// Group id of its group, from 1.
        group: u32,
        /// Its number in its group, from 0.
        sequence: u32,
    },
    /// The file's transactions are in the register, and their acknowledgement has another line here. Or the first line
    /// of the acknowledgement does not say who acknowledges, and when: this is looked at before anything else of the
    /// file.
    Acknowledgement {
        /// Which file.
        file: usize,
        /// The first line of the acknowledgement that differs, from 1.
        line: usize,
    },
}
