ghost use Rattle.std.specs.Prelude.{◌≡◌};
ghost use Rattle.cwr_acknowledgement.specs.AckItem.{reported_faults};

use crate::answers::{Answers, reported_faults};
use cwr_call::Fault;
use cwr_record::{Status, WorkKind};
use std::marker::Model;

/// A transaction of the acknowledged file, and the registry's decision on it, as the acknowledgement reports them. It
/// borrows the faults.
#[derive(Debug, Drop)]
pub struct AckItem<'a> {
    /// Group id of the transaction's group, at most 99999.
    pub group: u32,
    /// Transaction sequence, at most 99999999.
    pub sequence: u32,
    /// The kind of the transaction.
    pub kind: WorkKind,
    /// Title of the work, `Ack::TITLE` of its ACK record.
    pub title: [u8; 60],
    /// The submitter's number of the work, at the front of `Ack::SUBMITTER_NUMBER`.
    pub number: [u8; 14],
    /// The decision.
    pub status: Status,
    /// The registry's number of the work that the decision names, at most 99999999.
    pub work: Option<u32>,
    /// The faults of the transaction. They are reported only where it is rejected.
    pub faults: &'a [Fault],
}

impl<'a> Model for AckItem<'a> {
    ghost use Rattle.cwr_acknowledgement.specs.AckItem.{Item};

    ghost Value = { Item };

    ghost view = { λ i. record {
      group = i.group;
      sequence = i.sequence;
      kind = i.kind;
      title = i.title;
      number = i.number;
      status = i.status;
      work = i.work;
      faults = i.faults.now;
    } };
}

impl<'a> AckItem<'a> {
    /// The faults that the acknowledgement reports: all of a rejected transaction, and none of any other.
    pub(crate) fn reported_faults(&self) -> &[Fault]
        ensures { result.now ≡ reported_faults self.now }
    {
        reported_faults(self.status, self.faults)
    }
}

/// Items in a slice, in order.
#[derive(Drop)]
pub(crate) struct Listed<'a> {
    pub(crate) items: &'a [AckItem<'a>],
}

impl<'a> Answers for Listed<'a> {
    ghost items = { λ l. l.items.now };

    fn len(&self) -> usize {
        self.items.len()
    }

    #[inline]
    fn item(&self, index: usize) -> AckItem<'_> {
        let item = &self.items[index];
        AckItem { ..*item }
    }

    #[inline]
    fn fault_count(&self, index: usize) -> usize {
        self.items[index].reported_faults().len()
    }
}
