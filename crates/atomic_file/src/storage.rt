ghost use Rattle.std.specs.Prelude.{◌≡◌, ◌≤◌, ℕ, Bool, List, Option, false, is_err, length, take, get_or, IfSome, IfOk, OnOk, OnErr};
ghost use Rattle.byte_streams.specs.Bytes.{stalls};
ghost use Rattle.atomic_file.specs.Names.{Names, State, HasEach, with_file, with_follower, waiting_text, beginning, drafting, placing, placing_follower, refusing_follower, dropping_follower, IsSynced};
ghost use Rattle.atomic_file.specs.Looking.{Only, GoesOn, Stays, Renames, Becomes, BecomesBy, MayBecome};
ghost use Rattle.atomic_file.specs.Keeping.{HaveSynced, MayRefuse, AreSettled};

use crate::CallFailed;

/// A name with a file under it or none, a draft of another file beside it, and files that follow it. Each of these has
/// a name too, and a draft that is written.
///
/// A draft takes its name in one step: whoever looks there finds the old file or the complete draft. A crash may lose
/// what was not synced to disk before it. The drafts of the followers are synced together, and so are their names. Each
/// wait for the disk is long, and many waits beside one another are hardly longer than one.
///
/// Once a call failed that concerns the file or its draft, the storage has failed, and its draft can only be dropped.
/// Positions of followers are counted from 0.
pub trait Storage {
    // What lies under the names, and in the drafts; `None` for a type whose bytes contracts do not see.
    ghost told: { Self → Option State };

    // What somebody may find under the names at this moment, and what a crash at this moment may leave there.
    ghost may_find: { Self → Names → Type 0 };

    // What somebody may have found there at some moment so far, after a crash too.
    ghost found: { Self → Names → Type 0 };

    // What the disk may hold of the draft.
    ghost may_have: { Self → List ℕ → Type 0 };

    // A call that concerns the file or its draft failed.
    ghost has_failed: { Self → Bool };

    /// Begins a new draft, with no byte in it. One that is there already is replaced.
    fn begin_draft(&mut self) -> Result<(), CallFailed>
        requires { has_failed self.old ≡ false }
        ensures fails { has_failed self.new ≡ is_err result }
        ensures told { Becomes beginning (told self.old) (told self.new) }
        ensures now { Stays (may_find self.old) (may_find self.new) }
        ensures time { GoesOn (found self.old) (found self.new) (may_find self.new) };

    /// Writes the first of the bytes at the end of the draft, and returns how many.
    ///
    /// A write that returns [`CallFailed`] wrote no byte.
    fn write_some(&mut self, bytes: &[u8]) -> Result<usize, CallFailed>
        requires { has_failed self.old ≡ false }
        ensures bound { IfOk result (λ n. n ≤ length bytes.now) }
        ensures fails { has_failed self.new ≡ stalls result bytes.now }
        ensures wrote { IfOk result (λ n. Becomes (drafting (take n bytes.now)) (told self.old) (told self.new)) }
        ensures none { OnErr result (Becomes (λ s. s) (told self.old) (told self.new)) }
        ensures now { Stays (may_find self.old) (may_find self.new) }
        ensures time { GoesOn (found self.old) (found self.new) (may_find self.new) };

    /// Syncs the draft to disk.
    fn sync_draft(&mut self) -> Result<(), CallFailed>
        requires { has_failed self.old ≡ false }
        ensures fails { has_failed self.new ≡ is_err result }
        ensures durable { OnOk result (IfSome (told self.old) (λ s. Only s.draft (may_have self.new))) }
        ensures told { Becomes (λ s. s) (told self.old) (told self.new) }
        ensures now { Stays (may_find self.old) (may_find self.new) }
        ensures time { GoesOn (found self.old) (found self.new) (may_find self.new) };

    /// Gives the draft the file's name. Until the name is on disk, a crash may undo it.
    fn put_in_place(&mut self) -> Result<(), CallFailed>
        requires { has_failed self.old ≡ false }
        ensures fails { has_failed self.new ≡ is_err result }
        ensures placed { OnOk result (Becomes placing (told self.old) (told self.new)) }
        ensures told { MayBecome placing (told self.old) (told self.new) }
        ensures now { Renames with_file (may_find self.old) (may_have self.old) (may_find self.new) }
        ensures time { GoesOn (found self.old) (found self.new) (may_find self.new) };

    /// Syncs the file's name to disk.
    fn sync_name(&mut self) -> Result<(), CallFailed>
        requires { has_failed self.old ≡ false }
        ensures fails { has_failed self.new ≡ is_err result }
        ensures durable { OnOk result (IfSome (told self.old) (λ s. (c : Names) → may_find self.new c → c.file ≡ s.names.file)) }
        ensures told { Becomes (λ s. s) (told self.old) (told self.new) }
        ensures now { Stays (may_find self.old) (may_find self.new) }
        ensures time { GoesOn (found self.old) (found self.new) (may_find self.new) };

    /// Removes the draft, where there is one and it can be removed.
    fn drop_draft(&mut self)
        ensures fails { has_failed self.new ≡ has_failed self.old }
        ensures told { Becomes (λ s. s) (told self.old) (told self.new) }
        ensures now { Stays (may_find self.old) (may_find self.new) }
        ensures time { GoesOn (found self.old) (found self.new) (may_find self.new) };

    /// How many files follow.
    fn followers(&self) -> usize
        ensures number { IfSome (told self.now) (λ s. result ≡ length s.waiting) }
        ensures each { IfSome (told self.now) HasEach };

    /// Whether that follower could not be put in place.
    fn is_refused(&self, at: usize) -> bool
        ensures { IfSome (told self.now) (λ s. result ≡ get_or s.refused at false) };

    /// Syncs the drafts of all followers to disk. A follower whose draft cannot be synced is refused.
    fn sync_followers(&mut self)
        ensures fails { has_failed self.new ≡ has_failed self.old }
        ensures told { BecomesBy HaveSynced (told self.old) (told self.new) }
        ensures now { Stays (may_find self.old) (may_find self.new) }
        ensures time { GoesOn (found self.old) (found self.new) (may_find self.new) };

    /// Gives the draft of a follower the follower's name. Until the names are on disk, a crash may undo it.
    ///
    /// A follower whose draft could not take the name is refused.
    fn put_follower(&mut self, at: usize) -> Result<(), CallFailed>
        ensures fails { has_failed self.new ≡ has_failed self.old }
        ensures placed { OnOk result (Becomes (placing_follower at) (told self.old) (told self.new)) }
        ensures refused { OnErr result (Becomes (refusing_follower at) (told self.old) (told self.new)) }
        // A draft that is not on disk may be anything after a crash.
        ensures now { IfSome (told self.old) (λ s. Renames (with_follower at) (may_find self.old) (λ text. IsSynced at s → text ≡ waiting_text at s) (may_find self.new)) }
        ensures time { GoesOn (found self.old) (found self.new) (may_find self.new) };

    /// Syncs the names of all followers to disk.
    ///
    /// A follower whose name cannot be synced is refused. It has its name all the same, until a crash may undo it.
    fn sync_follower_names(&mut self)
        ensures fails { has_failed self.new ≡ has_failed self.old }
        ensures told { BecomesBy MayRefuse (told self.old) (told self.new) }
        ensures durable { IfSome (told self.new) (AreSettled (may_find self.new)) }
        ensures now { Stays (may_find self.old) (may_find self.new) }
        ensures time { GoesOn (found self.old) (found self.new) (may_find self.new) };

    /// Removes the draft of a follower, where there is one and it can be removed.
    fn drop_follower(&mut self, at: usize)
        ensures fails { has_failed self.new ≡ has_failed self.old }
        ensures told { Becomes (dropping_follower at) (told self.old) (told self.new) }
        ensures now { Stays (may_find self.old) (may_find self.new) }
        ensures time { GoesOn (found self.old) (found self.new) (may_find self.new) };
}
