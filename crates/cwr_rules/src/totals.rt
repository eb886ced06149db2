ghost use Rattle.std.specs.Prelude.{◌≡◌, ◌+◌, ◌<◌, ◌||◌};
ghost use Rattle.cwr_rules.specs.Totals.{valued, is_over, included_in};
ghost use Rattle.cwr_rules.specs.Collected.{AreSmall, with_shares};

use crate::record::{Shares, Territory};
use cwr_field::MAX_WHOLE;

/// Shares of the three rights, added up, in hundredths of one per cent. A share that is not valid counts 0.
#[derive(Clone, Copy, Debug, PartialEq, Eq)]
pub struct Totals {
    /// Of the performing right, PR.
    pub performing: u64,
    /// Of the mechanical right, MR.
    pub mechanical: u64,
    /// Of the synchronization right, SR.
    pub synchronization: u64,
}

/// A share as a number, 0 where it is not valid.
fn valued(share: Option<u16>) -> u64
    ensures value { result ≡ valued share }
    ensures small { result < 65536 }
{
    match share {
        None => 0,
        Some(share) => share as u64,
    }
}

impl Totals {
    pub(crate) const NONE: Totals = Totals {
        performing: 0,
        mechanical: 0,
        synchronization: 0,
    };

    /// These totals with the shares of a record added.
    pub(crate) fn with(self, shares: Shares) -> Totals
        requires { AreSmall self }
        ensures { result ≡ with_shares self shares }
    {
        Totals {
            performing: self.performing + valued(shares.performing),
            mechanical: self.mechanical + valued(shares.mechanical),
            synchronization: self.synchronization + valued(shares.synchronization),
        }
    }

    /// Adds the shares of a record.
    pub(crate) fn add(&mut self, shares: Shares)
        requires { AreSmall self.old }
        ensures performing { self.new.performing ≡ self.old.performing + valued shares.performing }
        ensures mechanical { self.new.mechanical ≡ self.old.mechanical + valued shares.mechanical }
        ensures synchronization { self.new.synchronization ≡ self.old.synchronization + valued shares.synchronization }
    {
        self.performing += valued(shares.performing);
        self.mechanical += valued(shares.mechanical);
        self.synchronization += valued(shares.synchronization);
    }

    /// Whether some right is above the whole by more than the tolerance.
    pub(crate) fn is_over(&self) -> bool
        ensures { result ≡ is_over self.now }
    {
        self.performing > MAX_WHOLE
            || self.mechanical > MAX_WHOLE
            || self.synchronization > MAX_WHOLE
    }

    /// Whether some right is above the whole by more than the tolerance, or `before` is true.
    pub(crate) fn is_over_or(&self, before: bool) -> bool
        ensures { result ≡ (is_over self.now || before) }
    {
        self.is_over() || before
    }
}

impl Territory {
    /// The TIS code of a territory that is included; `None` for any other.
    pub(crate) fn included(&self) -> Option<u16>
        ensures { result ≡ included_in self.now }
    {
        if self.indicator == b'I' {
            self.code
        } else {
            None
        }
    }
}
