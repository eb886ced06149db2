ghost use Rattle.std.specs.Prelude.{◌≡◌, ◌+◌, ◌≤◌, length, vec_len};
ghost use Rattle.std.specs.List.{AllByRecursion};
ghost use Rattle.std.proofs.Props.{props};
ghost use Rattle.cwr_acknowledgement.specs.Acknowledgement.{FitsItem, max_ack_records, reported_fault_count};
ghost use Rattle.cwr_engine.specs.AckItems.{items_with_replies};

use crate::judged::Judged;
use cwr_acknowledgement::{AckItem, Answers, reported_faults};
use cwr_record::Header;
use std::alloc::{Allocator, Global};
use work_registry::Reply;

/// A file whose transactions all got their replies: what its acknowledgement contains, which is still to be written.
#[derive(Drop)]
pub struct AnsweredFile<A: Allocator = Global> {
    pub(crate) header: Header,
    pub(crate) transactions: Vec<Judged<A>, A>,
    pub(crate) replies: Vec<Reply, A>,
    // What the acknowledgement contains fits its lines, and the counts fit their eight digits.
    ghost fit: { AllByRecursion FitsItem (items_with_replies transactions.items replies.items) } by { Prim.hlevel props },
    ghost few: { length (items_with_replies transactions.items replies.items) + reported_fault_count (items_with_replies transactions.items replies.items) ≤ max_ack_records },
}

impl<A: Allocator> AnsweredFile<A> {
    /// How many transactions it has.
    pub fn len(&self) -> usize
        ensures { result ≡ vec_len self.now.transactions }
    {
        self.transactions.len()
    }
}

/// The transactions of a file that got replies, and the replies, as an acknowledgement contains them. Those that got
/// replies are the first ones of the file.
#[derive(Drop)]
pub struct Answered<'a, A: Allocator = Global> {
    /// The transactions, in the order of the file.
    pub transactions: &'a [Judged<A>],
    /// The reply to each of the first of them.
    pub replies: &'a [Reply],
}

impl<'a, A: Allocator> Answers for Answered<'a, A> {
    ghost items = { λ a. items_with_replies a.transactions.now a.replies.now };

    #[inline]
    fn len(&self) -> usize {
        self.transactions.len().min(self.replies.len())
    }

    #[inline]
    fn item(&self, index: usize) -> AckItem<'_> {
        let Judged {
            group,
            sequence,
            call,
        } = &self.transactions[index];
        let reply = self.replies[index];
        AckItem {
            group: *group,
            sequence: *sequence,
            kind: call.kind(),
            title: call.title(),
            number: call.number(),
            status: reply.status(),
            work: reply.work(),
            faults: call.faults(),
        }
    }

    #[inline]
    fn fault_count(&self, index: usize) -> usize {
        let transaction = &self.transactions[index];
        reported_faults(self.replies[index].status(), transaction.call.faults()).len()
    }
}
