//! The transactions of a file, and the replies that they got.
ghost use Rattle.std.specs.Prelude.{◌≡◌, ◌↔◌, Some, [], length, option_map, slice_get, IsTrue, IfOk, OnOk, MatchOption};
ghost use Rattle.std.specs.List.{AllByRecursion};
ghost use Rattle.cwr_acknowledgement.specs.Acknowledgement.{FitsItem};
ghost use Rattle.cwr_engine.specs.AckItems.{items_with_replies};
ghost use Rattle.work_registry.specs.Numbers.{IsNumbered};
ghost use Rattle.cwr_verify.specs.Replied.{AreOfFile, next_call, replied_by};

use crate::same_call::has_call;
use cwr_engine::{Answered, Judged};
use std::alloc::{AllocError, Allocator};
use std::marker::Model;
use work_registry::{Entry, Reply};

/// The transactions of a file, and the replies to the first of them. Each reply is that of an entry with the
/// transaction's call.
#[derive(Drop)]
pub(crate) struct Replied<'t, A: Allocator> {
    transactions: &'t [Judged<A>],
    replies: Vec<Reply, A>,
}

impl<'t, A: Allocator> Model for Replied<'t, A> {
    ghost use Rattle.cwr_verify.specs.Replied.{Replied, AreFitting};

    ghost Value = { Replied };

    ghost view = { λ r. record { transactions = r.transactions.now; replies = r.replies.items } };

    ghost invariant = { λ r. AreFitting r.transactions.now r.replies.items };
}

impl<'t, A: Allocator> Replied<'t, A> {
    /// These transactions, without a reply.
    pub(crate) fn of(alloc: A, transactions: &'t [Judged<A>]) -> Result<Replied<'t, A>, AllocError>
        requires { AreOfFile transactions.now }
        ensures { IfOk result (λ replied. replied ≡ record { transactions = transactions.now; replies = [] }) }
    {
        let replies = Vec::with_capacity(alloc, transactions.len())?;
        Ok(Replied {
            transactions,
            replies,
        })
    }

    /// How many replies there are.
    pub(crate) fn len(&self) -> usize
        ensures { result ≡ length self.now.replies }
    {
        self.replies.len()
    }

    /// The first transaction that has no reply.
    pub(crate) fn next(&self) -> Option<&Judged<A>>
        ensures next { MatchOption result (length self.now.replies ≡ length self.now.transactions) (λ first. slice_get self.now.transactions (length self.now.replies) ≡ Some first.now) }
        ensures call { next_call self.now ≡ option_map (λ first. first.now.call) result }
    {
        self.transactions.get(self.replies.len())
    }

    /// Whether the first transaction that has no reply has the call of an entry.
    pub(crate) fn is_next(&self, entry: &Entry<A>) -> bool
        ensures { IsTrue result ↔ (next_call self.now ≡ Some entry.now.call) }
    {
        has_call(self.transactions, self.replies.len(), entry)
    }

    /// Gives the first transaction that has no reply the reply of this entry.
    pub(crate) fn push(&mut self, entry: &Entry<A>) -> Result<(), AllocError>
        requires call { next_call self.old ≡ Some entry.now.call }
        requires numbered { IsNumbered entry.now.reply }
        ensures { OnOk result (self.new ≡ replied_by entry.now self.old) }
    {
        // Reading them makes known to the check what holds of the faults of every call.
        let _faults = entry.call().faults().len();
        self.replies.push(entry.reply())?;
        Ok(())
    }

    /// What an acknowledgement contains of them, which fits its lines.
    pub(crate) fn answered(&self) -> Answered<'_, A>
        ensures transactions { result.transactions.now ≡ self.now.transactions }
        ensures replies { result.replies.now ≡ self.now.replies }
        ensures fit { AllByRecursion FitsItem (items_with_replies result.transactions.now result.replies.now) }
    {
        Answered {
            transactions: self.transactions,
            replies: &self.replies,
        }
    }
}
