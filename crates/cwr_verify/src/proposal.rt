//! Which file each entry answers, as the acknowledgements suggest. What they suggest is checked afterwards.
ghost use Rattle.std.specs.Prelude.{◌≡◌, length, map, IfOk};
ghost use Rattle.std.specs.List.{AllByRecursion};
ghost use Rattle.work_registry.specs.Numbers.{IsNumbered};
ghost use Rattle.cwr_verify.specs.Proposed.{AreFirst, wanting_of};

use crate::ack_status::statuses_in;
use crate::sent::ReadFile;
use crate::wanted::{Wanted, owner_of, waiting_of};
use std::alloc::{AllocError, Allocator};
use work_registry::Entry;

/// The owner of each entry, in the order of the history: the first file whose next transaction can have made it. Where
/// there is none, the owner is the number of files.
///
/// That transaction gets the reply of the entry.
pub(crate) fn owners_of<A: Allocator + Copy>(
    alloc: A,
    wanted: &mut [Wanted<A>],
    history: &[Entry<A>],
) -> Result<Vec<usize, A>, AllocError>
    requires { AllByRecursion (λ e. IsNumbered e.reply) history.now }
    ensures each_entry { IfOk result (λ owners. length owners.items ≡ length history.now) }
    ensures first { IfOk result (λ owners. AreFirst wanted.old history.now owners.items wanted.new) }
{
    let mut waiting = waiting_of(alloc, wanted)?;
    let mut owners = Vec::with_capacity(alloc, history.len())?;
    for entry in history {
        let owner = owner_of(wanted, &mut waiting, entry)?;
        owners.push(owner)?;
    }
    Ok(owners)
}

/// What each of the files looks for in a history: its calls, and what its acknowledgement says of them.
pub(crate) fn wanted_of<'r, A: Allocator + Copy>(
    alloc: A,
    files: &'r [ReadFile<A>],
) -> Result<Vec<Wanted<'r, A>, A>, AllocError>
    ensures { IfOk result (λ all. all.items ≡ map wanting_of files.now) }
{
    let mut all = Vec::with_capacity(alloc, files.len())?;
    for file in files {
        let told = statuses_in(alloc, file.acknowledgement)?;
        all.push(Wanted::of(alloc, file.text.transactions(), told)?)?;
    }
    Ok(all)
}
