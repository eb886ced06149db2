ghost use Rattle.std.specs.Prelude.{◌≡◌, [], ◌∷◌, List};
ghost use Rattle.cwr_rules.specs.declared.record.Record.{Record};
ghost use Rattle.cwr_rules.specs.Collected.{sums_of, AreSmallSums};

use crate::record::Record;
use crate::totals::Totals;

/// What is added up over a transaction.
#[derive(Clone, Copy)]
pub(crate) struct Sums {
    /// The ownership shares of all publishers and writers.
    pub(crate) ownership: Totals,
    /// The ownership shares of those of the submitter.
    pub(crate) control: Totals,
    pub(crate) has_writer: bool,
}

impl Sums {
    /// The sums of no records.
    pub(crate) fn new() -> Sums
        ensures { result ≡ sums_of [] }
    {
        Sums {
            ownership: Totals::NONE,
            control: Totals::NONE,
            has_writer: false,
        }
    }

    /// Adds a record.
    #[inline(always)]
    pub(crate) fn add(&mut self, detail: &Record)
        requires { AreSmallSums self.old }
        ensures { (rest : List Record) → self.old ≡ sums_of rest → self.new ≡ sums_of (detail.now ∷ rest) }
    {
        match *detail {
            Record::Spu(_, shares) => {
                self.ownership.add(shares);
                self.control.add(shares);
            }
            Record::Opu(_, shares) => self.ownership.add(shares),
            Record::Swr(_, shares) => {
                self.ownership.add(shares);
                self.control.add(shares);
                self.has_writer = true;
            }
            Record::Owr(shares) => {
                self.ownership.add(shares);
                self.has_writer = true;
            }
            _ => {}
        }
    }
}
