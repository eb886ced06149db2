//! Lines that stand in many transactions, with what varies in them.

/// A header with the title and the submitter's number of the work, and what follows that number.
macro_rules! work {
    ($rest:literal) => {
        concat!(
            "NWR0000000000000000SONG ONE                                                      W1",
            $rest
        )
    };
}

/// A publisher: its record up to its number, and its shares of the three rights.
macro_rules! publisher {
    ($start:literal, $shares:literal) => {
        concat!(
            $start,
            "PUBLISHER A                                   E                                      ",
            $shares
        )
    };
}

/// A writer: its record up to its number, and its shares of the three rights.
macro_rules! writer {
    ($start:literal, $shares:literal) => {
        concat!(
            $start,
            "DOE                                                                         CA                       ",
            $shares
        )
    };
}

/// A publisher of a writer: its record up to the publisher's number.
macro_rules! link {
    ($start:literal) => {
        concat!(
            $start,
            "PUBLISHER A                                                              000000001"
        )
    };
}

pub(crate) use link;
pub(crate) use publisher;
pub(crate) use work;
pub(crate) use writer;

/// The header of the work, with no ISWC, date or duration.
pub(crate) const WORK: &str = work!("");

/// The one owner of all rights, right after the header.
pub(crate) const WRITER: &str = writer!("SWR0000000000000001000000001", "10000   10000   10000");

/// The same after one more record.
pub(crate) const LATER_WRITER: &str = writer!(
    "SWR0000000000000002000000001",
    "10000   10000   10000"
);

/// A publisher without shares, right after the header.
pub(crate) const PUBLISHER: &str = publisher!(
    "SPU000000000000000101000000002",
    "00000   00000   00000"
);

/// A publisher with half of the performing right and all of the others, right after the header.
pub(crate) const OWNER: &str = publisher!(
    "SPU000000000000000101000000002",
    "05000   10000   10000"
);

/// The writer with the other half, after that publisher.
pub(crate) const HALF_WRITER: &str = writer!(
    "SWR0000000000000002000000001",
    "05000   00000   00000"
);
