//! One transaction of a file, handed in.
ghost use Rattle.std.specs.Prelude.{◌≡◌, ◌<◌, ◌≤◌, ◌+◌, ℕ, List, IfOk, IfErr, OnOk, OnErr};
ghost use Rattle.cwr_grammar.specs.RawParts.{RawParts, IsPlaced};
ghost use Rattle.cwr_engine.specs.Causes.{IsCause, is_for_full, marked_by, refusal_of};
ghost use Rattle.cwr_engine.specs.Handing.{IsAnswered};
ghost use Rattle.cwr_engine.specs.AckItems.{item_with_reply};
ghost use Rattle.cwr_engine.specs.Judged.{judged_of};

use crate::gates::Gate;
use crate::judged::Judged;
use crate::outcome::Why;
use crate::submit::Submit;
use cwr_call::Call;
use std::alloc::Allocator;
use work_registry::{HandInError, Reply};

/// Which worker hands in which transaction.
#[derive(Clone, Copy)]
pub(crate) struct InHand {
    /// The worker, from 1.
    pub(crate) worker: u32,
    /// How many transactions of the file come before this one.
    pub(crate) index: u32,
}

/// Hands in a copy of the call of a transaction. The transaction itself is kept for the acknowledgement.
///
/// - `alloc` is where the copy gets its memory.
/// - `registry` is where the call is handed in. It comes back with the reply.
/// - `gate` is passed before and after.
/// - `in_hand` is the worker and the position of the transaction in the file.
/// - `transaction` is the transaction, judged.
#[inline(always)]
pub(crate) fn decide<H: Submit<Call<A>>, G: Gate, A: Allocator + Copy + Drop>(
    alloc: A,
    registry: H,
    gate: &G,
    in_hand: InHand,
    transaction: &Judged<A>,
) -> (H, Result<Reply, Why>)
    requires turns { 0 < H.turns_left registry }
    ensures session { H.session result.0 ≡ H.session registry }
    ensures limit { H.limit result.0 ≡ H.limit registry }
    ensures home { H.home result.0 ≡ H.home registry }
    ensures turns { H.turns_left registry ≤ H.turns_left result.0 + 1 }
    ensures answered { IfOk result.1 (λ reply. (submitter : List ℕ) (t : RawParts) → transaction.now ≡ judged_of submitter t → IsPlaced t
        → IsAnswered (H.session registry) submitter t (item_with_reply transaction.now reply) (H.entries registry) (H.entries result.0)) }
    ensures kept { OnErr result.1 (H.entries result.0 ≡ H.entries registry) }
    ensures why { IfErr result.1 (IsCause (H.full result.0) (G.may_shut gate.now)) }
    ensures unmarked { OnOk result.1 (H.mark result.0 ≡ H.mark registry) }
    ensures marked { IfErr result.1 (λ why. H.mark result.0 ≡ marked_by (is_for_full why) (H.mark registry)) }
{
    // Reading them makes known to the check what holds of the faults of every call.
    let _faults = transaction.call.faults().len();
    let Ok(call) = transaction.call.copied(alloc) else {
        return (registry, Err(Why::Memory));
    };
    if gate.before(in_hand.worker, in_hand.index).is_err() {
        return (registry, Err(Why::Gate));
    }
    let (registry, reply) = registry.hand_in(call);
    match reply {
        Ok(reply) => {
            gate.after(in_hand.worker, in_hand.index);
            (registry, Ok(reply))
        }
        Err(why) => (registry, Err(refusal(why))),
    }
}

/// Why a job stops whose call was refused.
fn refusal(why: HandInError) -> Why
    ensures { result ≡ refusal_of why }
{
    match why {
        HandInError::Full => Why::Full,
        HandInError::Memory => Why::Memory,
    }
}
