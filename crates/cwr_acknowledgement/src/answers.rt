ghost use Rattle.std.specs.Prelude.{◌≡◌, ◌<◌, List, [], Some, if◌then◌else◌, length, option_map, slice_get};
ghost use Rattle.cwr_acknowledgement.specs.AckItem.{Item, is_rejected, reported_faults};

use crate::ack_item::AckItem;
use cwr_call::Fault;
use cwr_record::Status;

/// The faults of a transaction that the acknowledgement reports with this decision: all of a rejected one, and none of
/// any other.
#[inline]
pub fn reported_faults(status: Status, faults: &[Fault]) -> &[Fault]
    ensures { result.now ≡ (if is_rejected status then faults.now else []) }
{
    match status {
        Status::Rejected => faults,
        Status::Accepted | Status::Duplicate | Status::Conflict => &[],
    }
}

/// The transactions of a file, in its order, each with the registry's decision on it. They may be kept in any form.
pub trait Answers {
    // What the acknowledgement reports of them.
    ghost items: { Self → List Item };

    /// How many transactions there are.
    fn len(&self) -> usize
        ensures { result ≡ length (items self.now) };

    /// The transaction at an index, counted from 0, and the decision on it.
    fn item(&self, index: usize) -> AckItem<'_>
        requires { index < length (items self.now) }
        ensures { slice_get (items self.now) index ≡ Some result };

    /// How many faults the acknowledgement reports of the transaction at an index, counted from 0.
    fn fault_count(&self, index: usize) -> usize
        requires { index < length (items self.now) }
        ensures { option_map (λ item. length (reported_faults item)) (slice_get (items self.now) index) ≡ Some result };
}
