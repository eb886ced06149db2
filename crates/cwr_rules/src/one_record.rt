ghost use Rattle.std.specs.Prelude.{◌≡◌};
ghost use Rattle.cwr_rules.specs.Rules.{has_wrong_share, is_nameless, is_wrong, has_wrong_territory, name_of};

use crate::record::{Record, Territory};

/// The rules that look at one record alone, and its record type.
impl Record {
    /// Whether a share is not valid (J6).
    #[inline(always)]
    pub(crate) fn has_wrong_share(&self) -> bool
        ensures { result ≡ has_wrong_share self.now }
    {
        match *self {
            Record::Spu(_, shares)
            | Record::Opu(_, shares)
            | Record::Spt(_, shares, _)
            | Record::Swr(_, shares)
            | Record::Owr(shares)
            | Record::Swt(_, shares, _) => {
                shares.performing.is_none()
                    || shares.mechanical.is_none()
                    || shares.synchronization.is_none()
            }
            _ => false,
        }
    }

    /// Whether a publisher or a writer of the submitter has no interested party number (J7).
    #[inline(always)]
    pub(crate) fn is_nameless(&self) -> bool
        ensures { result ≡ is_nameless self.now }
    {
        match *self {
            Record::Spu(party, _) | Record::Swr(party, _) => party.is_none(),
            _ => false,
        }
    }

    /// Whether the indicator or the code of a territory is not valid (J14).
    #[inline(always)]
    pub(crate) fn has_wrong_territory(&self) -> bool
        ensures { result ≡ has_wrong_territory self.now }
    {
        match *self {
            Record::Spt(_, _, territory) | Record::Swt(_, _, territory) => territory.is_wrong(),
            _ => false,
        }
    }

    /// The record type, as the first three bytes of the line.
    pub(crate) fn name(&self) -> [u8; 3]
        ensures { result ≡ name_of self.now }
    {
        match *self {
            Record::Spu(_, _) => *b"SPU",
            Record::Opu(_, _) => *b"OPU",
            Record::Spt(_, _, _) => *b"SPT",
            Record::Swr(_, _) => *b"SWR",
            Record::Owr(_) => *b"OWR",
            Record::Swt(_, _, _) => *b"SWT",
            Record::Pwr(_) => *b"PWR",
            Record::Alt => *b"ALT",
            Record::Xrf => *b"XRF",
            Record::Carried(name) => name,
        }
    }
}

impl Territory {
    /// Whether it is neither included nor excluded, or has no code.
    fn is_wrong(&self) -> bool
        ensures { result ≡ is_wrong self.now }
    {
        (self.indicator != b'I' && self.indicator != b'E') || self.code.is_none()
    }
}
