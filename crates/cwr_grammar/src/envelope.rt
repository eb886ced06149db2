use cwr_record::Header;

/// What a well-formed file has beside its transactions.
#[derive(Clone, Copy, Debug)]
pub struct Envelope {
    /// The file's head, HDR.
    pub header: Header,
    /// How many groups the file has.
    pub groups: u32,
    /// How many records the file has, its header and its trailer included.
    pub records: u32,
}
