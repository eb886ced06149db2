/// Which record of which transaction a line is.
#[derive(Clone, Copy, Debug, PartialEq, Eq, Hash)]
pub struct Prefix {
    /// Transaction sequence, at [`Prefix::TRANSACTION`]: 0 for a group's first transaction, and one more for each next
    /// one.
    pub transaction: u32,
    /// Record sequence, at [`Prefix::DETAIL`]: 0 for the transaction's header, and one more for each record after it.
    pub detail: u32,
}
