/// What a field of eleven bytes holds for a musical work's code (ISWC, ISO 15707).
#[derive(Clone, Copy, Debug, PartialEq, Eq, Hash)]
pub enum Iswc {
    /// Eleven blanks.
    Blank,
    /// `T`, nine digits and their check digit. The number is that of the nine digits.
    Valid(u64),
    /// Anything else.
    Wrong,
}
