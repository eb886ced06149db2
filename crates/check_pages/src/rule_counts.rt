//! How many faults there are of each rule.

ghost use Rattle.std.specs.Prelude.{◌≡◌, ◌+◌, ◌-◌, ◌^◌, ◌<◌, [], get_or, set};
ghost use Rattle.check_pages.specs.Tallies.{IsTally};

use cwr_report::Finding;

/// How many findings there are of each rule.
#[derive(Clone, Copy)]
pub(crate) struct RuleCounts {
    counts: [u64; 256],
}

impl RuleCounts {
    /// Of no finding.
    pub(crate) fn new() -> RuleCounts
        ensures { IsTally result.counts [] }
    {
        RuleCounts { counts: [0; 256] }
    }

    /// Of these findings.
    pub(crate) fn of(findings: &[Finding]) -> RuleCounts
        ensures { IsTally result.counts findings.now }
    {
        let mut tally = RuleCounts::new();
        for finding in findings {
            tally.add(finding.fault.number);
        }
        tally
    }

    /// The number of findings of a rule.
    pub(crate) fn count(&self, number: u8) -> u64
        ensures { result ≡ get_or self.now.counts number 0 }
    {
        self.counts[number as usize]
    }

    /// Counts a finding of a rule.
    pub(crate) fn add(&mut self, number: u8)
        requires { get_or self.old.counts number 0 < 2 ^ 64 - 1 }
        ensures { self.new.counts ≡ set self.old.counts number (get_or self.old.counts number 0 + 1) }
    {
        self.counts[number as usize] += 1;
    }
}
