//! The files that follow.

ghost use Rattle.std.specs.Prelude.{◌≡◌, length, IfSome};
ghost use Rattle.atomic_file.specs.Names.{Names, dropping_followers, HasNoneBeside};
ghost use Rattle.atomic_file.specs.Looking.{Becomes, Stays, GoesOn};
ghost use Rattle.atomic_file.specs.Keeping.{SinceThen, Leads, MayFollow, AreFollowing, AreSynced, AreThere};

use crate::Storage;

/// Puts each follower in place: syncs the drafts to disk together, gives each its name, and syncs the names together.
///
/// The file stays as it is. A follower that could not be put in place is refused, as [`Storage::is_refused`] then
/// reports. The others are in place, and no crash undoes that.
pub fn put_followers<P: Storage>(storage: &mut P)
    // Whoever looks, and whenever, finds the file as it was, and each follower as it was or as its complete draft.
    ensures any_moment { IfSome (P.told storage.old) (λ s. SinceThen (P.found storage.old) (P.found storage.new) (λ c. (d : Names) × P.may_find storage.old d × MayFollow s d c)) }
    ensures after { IfSome (P.told storage.old) (λ s. (c : Names) → P.may_find storage.new c → (d : Names) × P.may_find storage.old d × MayFollow s d c) }
    // Each is in place, or is refused.
    ensures each { Leads (λ s t. AreFollowing (length s.waiting) s t) (P.told storage.old) (P.told storage.new) }
    // No crash removes those that are in place.
    ensures there { Leads (AreThere (P.may_find storage.new)) (P.told storage.old) (P.told storage.new) }
    ensures same { P.has_failed storage.new ≡ P.has_failed storage.old }
{
    storage.sync_followers();
    name_followers(storage);
}

/// Puts each follower in place whose draft is on disk, as [`put_followers`] does.
pub(crate) fn name_followers<P: Storage>(storage: &mut P)
    requires synced { IfSome (P.told storage.old) AreSynced }
    ensures any_moment { IfSome (P.told storage.old) (λ s. SinceThen (P.found storage.old) (P.found storage.new) (λ c. (d : Names) × P.may_find storage.old d × MayFollow s d c)) }
    ensures after { IfSome (P.told storage.old) (λ s. (c : Names) → P.may_find storage.new c → (d : Names) × P.may_find storage.old d × MayFollow s d c) }
    ensures each { Leads (λ s t. AreFollowing (length s.waiting) s t) (P.told storage.old) (P.told storage.new) }
    ensures there { Leads (AreThere (P.may_find storage.new)) (P.told storage.old) (P.told storage.new) }
    ensures same { P.has_failed storage.new ≡ P.has_failed storage.old }
{
    for at in 0..storage.followers() {
        if storage.is_refused(at) {
            continue;
        }
        let _ = storage.put_follower(at);
    }
    storage.sync_follower_names();
}

/// Removes the draft of each follower, where there is one and it can be removed. Nothing changes under the names.
pub fn drop_followers<P: Storage>(storage: &mut P)
    // A storage whose bytes contracts see has none of these drafts then.
    ensures told { Becomes dropping_followers (P.told storage.old) (P.told storage.new) }
    ensures none { Leads (λ _ t. HasNoneBeside t) (P.told storage.old) (P.told storage.new) }
    ensures now { Stays (P.may_find storage.old) (P.may_find storage.new) }
    ensures time { SinceThen (P.found storage.old) (P.found storage.new) (P.may_find storage.old) }
    ensures same { P.has_failed storage.new ≡ P.has_failed storage.old }
{
    for at in 0..storage.followers() {
        storage.drop_follower(at);
    }
}
