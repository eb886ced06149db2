/// The shares of the three rights, in hundredths of one per cent. A share that is not valid is `None`.
#[derive(Clone, Copy)]
pub(crate) struct Shares {
    pub(crate) performing: Option<u16>,
    pub(crate) mechanical: Option<u16>,
    pub(crate) synchronization: Option<u16>,
}

impl Shares {
    /// The shares of a line that ends before its share fields.
    pub(crate) const BLANK: Shares = Shares {
        performing: Some(0),
        mechanical: Some(0),
        synchronization: Some(0),
    };
}

/// Where shares are collected: the inclusion or exclusion indicator, and the TIS code, which is `None` where it is not
/// valid.
#[derive(Clone, Copy)]
pub(crate) struct Territory {
    pub(crate) indicator: u8,
    pub(crate) code: Option<u16>,
}

/// A detail of a transaction, with the fields that the rules read. A party is `None` where its number is blank.
#[derive(Clone, Copy)]
pub(crate) enum Record {
    /// A publisher of the submitter, and what it owns.
    Spu(Option<[u8; 9]>, Shares),
    /// Another publisher, and what it owns.
    Opu(Option<[u8; 9]>, Shares),
    /// What a publisher collects in a territory.
    Spt(Option<[u8; 9]>, Shares, Territory),
    /// A writer of the submitter, and what it owns.
    Swr(Option<[u8; 9]>, Shares),
    /// What another writer owns.
    Owr(Shares),
    /// What a writer collects in a territory.
    Swt(Option<[u8; 9]>, Shares, Territory),
    /// The publisher of a writer.
    Pwr(Option<[u8; 9]>),
    /// An alternate title.
    Alt,
    /// A cross reference.
    Xrf,
    /// Any other record, by the first three bytes of its line. No rule reads it.
    Carried([u8; 3]),
}
