/// What is registered under a submitter's number of a work: the last call under it that was accepted.
#[derive(Clone, Copy, Debug, PartialEq, Eq, Hash)]
pub struct Claim {
    /// The registry's number of the work.
    pub work: u32,
    /// How often the submitter's number of the work has been accepted.
    pub version: u32,
    /// What the submitter's publishers and writers own of the performing, the mechanical and the synchronization
    /// right, in hundredths of one per cent.
    pub control: [u64; 3],
}
