//! Which files wait for an entry of which transaction.
ghost use Rattle.std.specs.Prelude.{◌≡◌};
ghost use Rattle.cwr_verify.specs.Wanting.{key_of};

use crate::ack_status::AckStatus;
use crate::digest::{digest_of, word_at};
use std::alloc::Allocator;
use std::collections::BTreeSet;
use work_registry::Call;

/// What a transaction is looked up by: its call, and what the acknowledgement says of it.
///
/// It is two numbers, which compare faster than all that they are made of. Files whose next numbers of works are near
/// wait near one another. For all other fields there is the digest.
#[derive(Clone, Copy, PartialEq, Eq, PartialOrd, Ord, Drop)]
pub(crate) struct Key {
    /// The last eight bytes of the submitter's number of the work.
    number_end: u64,
    /// The digest of all the rest, and of what the acknowledgement says.
    digest: u64,
}

impl Key {
    /// The key of a call, and of what the acknowledgement says of it.
    #[tactic(auto, unfolding(crate::specs::Wanting::key_of))]
    pub(crate) fn of<A: Allocator>(told: AckStatus, call: &Call<A>) -> Key
        ensures { result ≡ key_of told call.now }
    {
        Key {
            number_end: word_at(&call.number(), 6),
            digest: digest_of(told, call),
        }
    }
}

/// The files that wait for an entry of their next transaction, sorted by its key, and then by file.
pub(crate) type Waiting<A> = BTreeSet<(Key, usize), A>;
