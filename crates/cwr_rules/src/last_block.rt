ghost use Rattle.std.specs.Prelude.{◌≡◌};
ghost use Rattle.cwr_rules.specs.LastBlock.{next_block};

use crate::record::Record;

/// The last part of the record order so far: it determines which records may follow.
#[derive(Clone, Copy)]
pub(crate) enum LastBlock {
    /// Nothing, or another publisher: a block may begin.
    Free,
    /// A publisher of the submitter, or one of its territories.
    AtPublisher,
    /// A writer of the submitter, or one of its territories or publishers.
    AtWriter,
    /// Another writer, or one of its publishers.
    AtOtherWriter,
    /// A title or a reference: no block may begin any more.
    AtTitles,
}

impl LastBlock {
    /// The last part of the record order after a record; `None` where the record may not stand here.
    #[inline(always)]
    pub(crate) fn next(self, detail: &Record) -> Option<LastBlock>
        ensures { result ≡ next_block self detail.now }
    {
        match (*detail, self) {
            (Record::Carried(_), _) => Some(self),
            (Record::Alt | Record::Xrf, _) => Some(LastBlock::AtTitles),
            (_, LastBlock::AtTitles) => None,
            (Record::Spu(_, _), _) => Some(LastBlock::AtPublisher),
            (Record::Opu(_, _), _) => Some(LastBlock::Free),
            (Record::Swr(_, _), _) => Some(LastBlock::AtWriter),
            (Record::Owr(_), _) => Some(LastBlock::AtOtherWriter),
            (Record::Spt(_, _, _), LastBlock::AtPublisher) => Some(LastBlock::AtPublisher),
            (Record::Swt(_, _, _) | Record::Pwr(_), LastBlock::AtWriter) => Some(
                LastBlock::AtWriter,
            ),
            (Record::Pwr(_), LastBlock::AtOtherWriter) => Some(LastBlock::AtOtherWriter),
            _ => None,
        }
    }
}
