ghost use Rattle.std.specs.Prelude.{◌≡◌, List, [], ◌∷◌};
ghost use Rattle.cwr_rules.specs.declared.record.Record.{Record};
ghost use Rattle.cwr_rules.specs.Rules.{is_out_of_order, differ, is_other, is_of_another_party};
ghost use Rattle.cwr_rules.specs.Position.{position_of};

use crate::last_block::LastBlock;
use crate::parties::is_same_party;
use crate::record::Record;

/// What the next record is judged by, of the records so far.
#[derive(Clone, Copy)]
pub(crate) struct Position {
    /// The last part of the record order; `None` once the order is broken.
    place: Option<LastBlock>,
    /// The party of the last SPU: `None` where there is no SPU, `Some(None)` where its party is blank.
    publisher: Option<Option<[u8; 9]>>,
    /// The party of the last SWR: `None` where there is no SWR, `Some(None)` where its party is blank.
    writer: Option<Option<[u8; 9]>>,
    /// Whether the last SWR or OWR is an SWR.
    pub(crate) follows_swr: bool,
}

/// Whether two interested party numbers differ. A blank one is `None`.
fn differ(one: Option<[u8; 9]>, other: Option<[u8; 9]>) -> bool
    ensures { result ≡ differ one other }
{
    match (one, other) {
        (None, None) => false,
        (Some(one), Some(other)) => !is_same_party(one, other),
        _ => true,
    }
}

/// Whether there is a last party, and it differs from this one.
fn is_other(last: Option<Option<[u8; 9]>>, party: Option<[u8; 9]>) -> bool
    ensures { result ≡ is_other last party }
{
    match last {
        None => false,
        Some(last) => differ(last, party),
    }
}

impl Position {
    /// Before the first record.
    pub(crate) fn new() -> Position
        ensures { result ≡ position_of [] }
    {
        Position {
            place: Some(LastBlock::Free),
            publisher: None,
            writer: None,
            follows_swr: false,
        }
    }

    /// Whether the order breaks at the record (J1).
    #[inline(always)]
    pub(crate) fn is_out_of_order(&self, detail: &Record) -> bool
        ensures { (before : List Record) → self.now ≡ position_of before → result ≡ is_out_of_order before detail.now }
    {
        match self.place {
            None => false,
            Some(place) => place.next(detail).is_none(),
        }
    }

    /// Whether a territory names another party than the record that it follows (J8).
    #[inline(always)]
    pub(crate) fn is_of_another_party(&self, detail: &Record) -> bool
        ensures { (before : List Record) → self.now ≡ position_of before → result ≡ is_of_another_party before detail.now }
    {
        match *detail {
            Record::Spt(party, _, _) => is_other(self.publisher, party),
            Record::Swt(party, _, _) => is_other(self.writer, party),
            _ => false,
        }
    }

    /// Consumes the record.
    #[inline(always)]
    pub(crate) fn add(&mut self, detail: &Record)
        ensures { (before : List Record) → self.old ≡ position_of before → self.new ≡ position_of (detail.now ∷ before) }
    {
        self.place = match self.place {
            None => None,
            Some(place) => place.next(detail),
        };
        match *detail {
            Record::Spu(party, _) => self.publisher = Some(party),
            Record::Swr(party, _) => {
                self.writer = Some(party);
                self.follows_swr = true;
            }
            Record::Owr(_) => self.follows_swr = false,
            _ => {}
        }
    }
}
