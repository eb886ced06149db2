ghost use Rattle.std.specs.Prelude.{◌≡◌};
ghost use Rattle.cwr_rules.specs.Added.{first_over};
ghost use Rattle.cwr_rules.specs.Collected.{IsCollectedBy};
ghost use Rattle.cwr_rules.specs.Records.{records_of};
ghost use Rattle.cwr_rules.specs.Totals.{included};

use crate::collected::Collected;
use crate::reading::record_of;
use crate::record::Record;
use crate::totals::Totals;
use cwr_grammar::Lines;
use std::alloc::Allocator;

/// What the shares of a transaction add up to, which the rules J11, J12, J13 and J15 test.
#[derive(Clone, Copy, Debug, PartialEq, Eq)]
pub struct AddedShares {
    /// The ownership shares of SPU, OPU, SWR and OWR.
    pub ownership: Totals,
    /// The first territory, in the order of the records, whose collection shares are in some right above 10006.
    pub over: Option<Over>,
}

/// A territory in which more than the whole is collected.
#[derive(Clone, Copy, Debug, PartialEq, Eq)]
pub struct Over {
    /// Its TIS code.
    pub territory: u16,
    /// The collection shares there, of the SPT and SWT with the indicator `I`.
    pub totals: Totals,
}

/// The first territory in which more than the whole is collected, in the order of the lines. Where there is none, no
/// line is read.
pub(crate) fn first_over<A: Allocator + Copy>(
    collected: &Collected<A>,
    lines: Lines,
) -> Option<Over>
    requires { IsCollectedBy collected.now (records_of lines) }
    ensures { result ≡ first_over (records_of lines.entry) }
{
    if !collected.is_over {
        return None;
    }
    for line in lines {
        let Some(territory) = included(&record_of(line)) else {
            continue;
        };
        let totals = collected.at(territory);
        if totals.is_over() {
            return Some(Over { territory, totals });
        }
    }
    None
}

/// The TIS code of a territory that a record includes.
fn included(detail: &Record) -> Option<u16>
    ensures { result ≡ included detail.now }
{
    match *detail {
        Record::Spt(_, _, territory) | Record::Swt(_, _, territory) => territory.included(),
        _ => None,
    }
}
