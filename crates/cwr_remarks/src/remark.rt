/// A remark on a line, or on the file itself at one of its lines. It is no fault: nothing is refused or rejected for
/// it.
#[derive(Clone, Copy, Debug, PartialEq, Eq)]
pub struct Remark {
    /// The line of the file, counted from 1.
    pub line: u64,
    /// The first three bytes of the line, which name its record type, filled with blanks if the line has fewer. `None`
    /// if the remark is on no record: a byte order mark, UTF-16 or gzip.
    pub rtype: Option<[u8; 3]>,
    /// What is remarked.
    pub what: Remarked,
}

/// What may be remarked of a line. The first six are on the file itself.
#[derive(Clone, Copy, Debug, PartialEq, Eq)]
pub enum Remarked {
    /// The file begins with the byte order mark of UTF-8, EF BB BF.
    ByteOrderMark,
    /// The file begins with a byte order mark of UTF-16, FF FE or FE FF.
    Utf16,
    /// The file begins as one that is compressed by gzip, with 1F 8B.
    Gzip,
    /// A line with HDR, after TRL.
    SecondFile,
    /// The version of CWR that HDR names, in its bytes 102 to 104: neither blank nor `2.2`.
    CwrVersion([u8; 3]),
    /// The sender type of HDR, its bytes 4 and 5: none of `PB`, `AA`, `SO` and `WR`, and no two digits.
    SenderType([u8; 2]),
    /// Bytes above 126, as those of a letter outside ASCII are.
    HighBytes {
        /// The position of the first of them in the line, counted from 1.
        first: u64,
        /// The number of such bytes.
        count: u64,
    },
    /// The line is longer than the layout of its record.
    PastLayout {
        /// The length of the line, in bytes.
        length: u64,
        /// The position of the layout's last byte.
        layout: u64,
    },
    /// Three capitals that name no record of CWR 2.2.
    UnknownType,
    /// An SPU with an SPT, or an SWR with an SWT, and all of them are exclusions.
    OnlyExcluded,
}
