ghost use Rattle.std.specs.Prelude.{ℕ, ◌<◌, slice_set, ◌≡◌, ◌⊎◌, ◌↔◌, is_err, ◌++◌, ◌∷◌, [], Some, None, true, false, map, length, get_or, IfSome, MatchOption, IsTrue};
ghost use Rattle.std.specs.List.{list_any};
ghost use Rattle.atomic_file.specs.Names.{Names, State, with_file};
ghost use Rattle.atomic_file.specs.Looking.{Only};
ghost use Rattle.atomic_file.specs.Keeping.{follower};
ghost use Rattle.atomic_file.specs.Memory.{lying, lies, lies_at, draft_of, has_drafts, names_of, state_of, may_be, had_been, AllSettled, Changes, placing_slot, syncing_slot, settling_slot, undoing_slot, refusing_slot, dropping_slot, Crashed};

use crate::{CallFailed, Storage};
use std::alloc::{Allocator, Global};
use std::mem;
use std::snapshot::Snapshot;

/// A name in memory: the file under it, and a draft.
#[derive(Drop)]
pub struct MemoryFile<A: Allocator = Global> {
    /// What lies under the name until the draft has it.
    earlier: Option<Vec<u8, A>>,
    /// The bytes of the draft, also once it has the name, and once it was removed.
    draft: Vec<u8, A>,
    has_draft: bool,
    /// Whether the draft is on disk.
    is_synced: bool,
    /// Whether the draft has the name.
    is_placed: bool,
    /// Whether what lies under the name is on disk.
    is_settled: bool,
    /// Whether the draft could not be put in place.
    is_refused: bool,
}

impl<A: Allocator> MemoryFile<A> {
    /// A name with this file under it, or none, and a draft of these bytes.
    pub fn new(file: Option<Vec<u8, A>>, draft: Vec<u8, A>) -> MemoryFile<A>
        ensures file { lies result ≡ lying file }
        ensures draft { draft_of result ≡ draft.items }
        ensures waits { result.is_refused ≡ false }
        ensures beside { result.has_draft ≡ true }
        ensures not_synced { result.is_synced ≡ false }
        ensures settled { result.is_settled ≡ true }
    {
        MemoryFile {
            earlier: file,
            draft,
            has_draft: true,
            is_synced: false,
            is_placed: false,
            is_settled: true,
            is_refused: false,
        }
    }

    /// The file under the name.
    fn bytes(&self) -> Option<&[u8]>
        ensures { MatchOption result (lies self.now ≡ None) (λ bytes. lies self.now ≡ Some bytes.now) }
    {
        if self.is_placed {
            return Some(self.draft.as_slice());
        }
        match &self.earlier {
            Some(earlier) => Some(earlier.as_slice()),
            None => None,
        }
    }

    /// Begins a new draft, with no byte in it.
    fn begin(&mut self, alloc: A)
        ensures file { lies self.new ≡ lies self.old }
        ensures kept { lying self.new.earlier ≡ lies self.old }
        ensures draft { self.new.draft.items ≡ [] }
        ensures free { self.new.is_placed ≡ false }
        ensures unsynced { self.new.is_synced ≡ false }
    {
        let draft = mem::replace(&mut self.draft, Vec::new(alloc));
        if self.is_placed {
            self.earlier = Some(draft);
            self.is_placed = false;
        }
        self.has_draft = true;
        self.is_synced = false;
    }

    /// Gives the draft the name.
    fn place(&mut self)
        ensures { self.new ≡ placing_slot self.old }
    {
        if !self.is_placed {
            self.is_placed = true;
            self.is_settled = false;
        }
        self.has_draft = false;
    }

    /// Undoes the name, unless it is on disk.
    fn undo(&mut self)
        ensures { self.new ≡ undoing_slot self.old }
    {
        if !self.is_settled {
            self.is_placed = false;
            self.is_settled = true;
        }
    }
}

/// Whether `stayed` says of that follower that its name stayed.
fn has_stayed(stayed: &[bool], at: usize) -> bool
    ensures { result ≡ get_or stayed.now at false }
{
    match stayed.get(at) {
        Some(told) => *told,
        None => false,
    }
}

/// Whether a draft lies beside one of the names.
fn has_any_draft<A: Allocator>(slots: &[MemoryFile<A>]) -> bool
    ensures { result ≡ list_any (λ slot. slot.has_draft) slots.now }
{
    for at in 0..slots.len() {
        if slots[at].has_draft {
            return true;
        }
    }
    false
}

/// What can be found: a file, and those that follow it.
#[derive(Drop)]
struct Shelf<A: Allocator> {
    file: MemoryFile<A>,
    followers: Vec<MemoryFile<A>, A>,
}

impl<A: Allocator> Shelf<A> {
    /// Gives the draft of a follower its name.
    fn place_follower(&mut self, at: usize)
        requires { at < length self.old.followers.items }
        ensures { Changes placing_slot at self.old self.new }
    {
        self.followers[at].place();
    }

    /// Syncs the draft of a follower to disk.
    fn sync_follower(&mut self, at: usize)
        requires { at < length self.old.followers.items }
        ensures { Changes syncing_slot at self.old self.new }
    {
        self.followers[at].is_synced = true;
    }

    /// Syncs the name of a follower to disk.
    fn settle_follower(&mut self, at: usize)
        requires { at < length self.old.followers.items }
        ensures { Changes settling_slot at self.old self.new }
    {
        self.followers[at].is_settled = true;
    }

    /// Undoes the name of a follower, unless it is on disk.
    fn undo_follower(&mut self, at: usize)
        requires { at < length self.old.followers.items }
        ensures { Changes undoing_slot at self.old self.new }
    {
        self.followers[at].undo();
    }

    /// Records that the draft of a follower could not be put in place.
    fn refuse_follower(&mut self, at: usize)
        requires { at < length self.old.followers.items }
        ensures { Changes refusing_slot at self.old self.new }
    {
        self.followers[at].is_refused = true;
    }

    /// Removes the draft of a follower.
    fn drop_follower(&mut self, at: usize)
        requires { at < length self.old.followers.items }
        ensures { Changes dropping_slot at self.old self.new }
    {
        self.followers[at].has_draft = false;
    }

    /// Everything that lies there is on disk from here on.
    fn settle(&mut self)
        ensures all { AllSettled self.new }
        ensures told { state_of self.new ≡ state_of self.old }
    {
        self.file.is_settled = true;
        for at in 0..self.followers.len() {
            self.settle_follower(at);
        }
    }
}

/// What could be found at earlier moments, for contracts alone.
#[derive(Drop)]
enum Past<A: Allocator> {
    Begun,
    After(Snapshot<Shelf<A>>, Snapshot<Past<A>>),
}

/// A storage in memory, whose bytes contracts see. It fails at one of its calls, where that is asked for.
///
/// A crash may undo a name that is not on disk. It leaves all else as it is.
#[derive(Drop)]
pub struct MemoryStorage<A: Allocator + Copy = Global> {
    alloc: A,
    shelf: Shelf<A>,
    /// How many bytes a write takes at most.
    chunk: usize,
    /// How many calls succeed before one fails.
    good_calls: Option<u64>,
    failed: bool,
    past: Past<A>,
}

impl<A: Allocator + Copy> MemoryStorage<A> {
    /// A storage of a file and its followers.
    ///
    /// - `alloc` is where drafts get their memory.
    /// - `file` is the file under the name, or `None`.
    /// - `followers` are the files that follow.
    /// - `chunk` is the greatest number of bytes that one write takes.
    /// - `good_calls` is how many calls succeed before one fails; `None` for no failure.
    pub fn new(
        alloc: A,
        file: Option<Vec<u8, A>>,
        followers: Vec<MemoryFile<A>, A>,
        chunk: usize,
        good_calls: Option<u64>,
    ) -> MemoryStorage<A>
        ensures told { ⟦<MemoryStorage<A> as Storage>⟧.told result ≡ Some (record {
          names = record { file = lying file; followers = map lies followers.items };
          draft = [];
          waiting = map draft_of followers.items;
          synced = map (λ follower. follower.is_synced) followers.items;
          refused = map (λ follower. follower.is_refused) followers.items;
          beside = map (λ follower. follower.has_draft) followers.items;
        }) }
        ensures settled { Only (record { file = lying file; followers = map lies followers.items }) (⟦<MemoryStorage<A> as Storage>⟧.may_find result) }
        ensures begun { Only (record { file = lying file; followers = map lies followers.items }) (⟦<MemoryStorage<A> as Storage>⟧.found result) }
        ensures works { ⟦<MemoryStorage<A> as Storage>⟧.has_failed result ≡ false }
    {
        let mut file = MemoryFile::new(file, Vec::new(alloc));
        file.has_draft = false;
        let mut shelf = Shelf { file, followers };
        shelf.settle();
        MemoryStorage {
            alloc,
            shelf,
            chunk,
            good_calls,
            failed: false,
            past: Past::Begun,
        }
    }

    /// What a crash leaves: names that are not on disk are undone. A follower whose entry in `stayed` is true keeps its
    /// name, as if the name had been on disk.
    pub fn crash(&mut self, stayed: &[bool])
        ensures fails { ⟦<MemoryStorage<A> as Storage>⟧.has_failed self.new ≡ ⟦<MemoryStorage<A> as Storage>⟧.has_failed self.old }
        ensures left { IfSome (⟦<MemoryStorage<A> as Storage>⟧.told self.new) (λ s. ⟦<MemoryStorage<A> as Storage>⟧.may_find self.old s.names) }
        ensures stays { IfSome (⟦<MemoryStorage<A> as Storage>⟧.told self.new) (λ s. Only s.names (⟦<MemoryStorage<A> as Storage>⟧.may_find self.new)) }
        ensures stayed { (k : ℕ) → get_or stayed.now k false ≡ true → lies_at k self.new.shelf ≡ lies_at k self.old.shelf }
        ensures undone { Crashed stayed.now self.old.shelf self.new.shelf }
    {
        self.remember();
        self.shelf.file.undo();
        for at in 0..self.shelf.followers.len() {
            if has_stayed(stayed, at) {
                self.shelf.settle_follower(at)
            } else {
                self.shelf.undo_follower(at)
            }
        }
    }

    /// The file under the name.
    pub fn file(&self) -> Option<&[u8]>
        ensures { IfSome (⟦<MemoryStorage<A> as Storage>⟧.told self.now) (λ s. MatchOption result (s.names.file ≡ None) (λ bytes. s.names.file ≡ Some bytes.now)) }
    {
        self.shelf.file.bytes()
    }

    /// The file under the name of a follower, counted from 0.
    pub fn follower(&self, at: usize) -> Option<&[u8]>
        ensures { IfSome (⟦<MemoryStorage<A> as Storage>⟧.told self.now) (λ s. MatchOption result (follower at s.names ≡ None) (λ bytes. follower at s.names ≡ Some bytes.now)) }
    {
        self.shelf.followers.get(at)?.bytes()
    }

    /// Whether a draft lies beside the file or beside a follower.
    pub fn has_drafts(&self) -> bool
        ensures { result ≡ has_drafts self.now.shelf }
    {
        self.shelf.file.has_draft || has_any_draft(&self.shelf.followers)
    }

    /// Records what can be found now.
    fn remember(&mut self)
        ensures same { self.new ≡ record self.old { past = self.new.past } }
        ensures past { (c : Names) → had_been self.new.past c ↔ (may_be self.old.shelf c ⊎ had_been self.old.past c) }
    {
        self.past = Past::After(Snapshot::of(&self.shelf), Snapshot::of(&self.past));
    }

    /// Begins a call, and returns whether it is the one that fails.
    fn fails(&mut self) -> bool
        ensures same { self.new ≡ record self.old { good_calls = self.new.good_calls } }
        ensures fails { IsTrue result ↔ (self.old.good_calls ≡ Some 0) }
    {
        match self.good_calls {
            None => false,
            Some(0) => {
                self.good_calls = None;
                true
            }
            Some(calls) => {
                self.good_calls = Some(calls - 1);
                false
            }
        }
    }

    /// A call that fails where its turn has come, and otherwise does nothing.
    fn try_call(&mut self) -> Result<(), CallFailed>
        ensures same { self.new ≡ record self.old { good_calls = self.new.good_calls; failed = self.new.failed } }
        ensures fails { self.new.failed ≡ is_err result }
    {
        self.failed = self.fails();
        if self.failed { Err(CallFailed) } else { Ok(()) }
    }
}

impl<A: Allocator + Copy> Storage for MemoryStorage<A> {
    ghost told = { λ m. Some (state_of m.shelf) };

    ghost may_find = { λ m c. may_be m.shelf c };

    ghost found = { λ m c. may_be m.shelf c ⊎ had_been m.past c };

    // A draft that was not synced may be anything.
    ghost may_have = { λ m text. m.shelf.file.is_synced ≡ true → text ≡ m.shelf.file.draft.items };

    ghost has_failed = { λ m. m.failed };

    fn begin_draft(&mut self) -> Result<(), CallFailed> {
        self.remember();
        self.shelf.file.begin(self.alloc);
        self.try_call()
    }

    fn write_some(&mut self, bytes: &[u8]) -> Result<usize, CallFailed> {
        self.remember();
        self.shelf.file.is_synced = false;
        let n = bytes.len().min(self.chunk);
        if self.fails()
            || self.shelf.file.is_placed
            || self
                .shelf
                .file
                .draft
                .extend_from_slice(&bytes[..n])
                .is_err()
        {
            self.failed = true;
            return Err(CallFailed);
        }
        self.failed = n == 0 && !bytes.is_empty();
        Ok(n)
    }

    fn sync_draft(&mut self) -> Result<(), CallFailed> {
        self.remember();
        self.try_call()?;
        self.shelf.file.is_synced = true;
        Ok(())
    }

    fn put_in_place(&mut self) -> Result<(), CallFailed> {
        self.remember();
        self.try_call()?;
        self.shelf.file.place();
        Ok(())
    }

    fn sync_name(&mut self) -> Result<(), CallFailed> {
        self.remember();
        self.try_call()?;
        self.shelf.file.is_settled = true;
        Ok(())
    }

    fn drop_draft(&mut self) {
        self.remember();
        self.shelf.file.has_draft = false;
    }

    fn followers(&self) -> usize {
        self.shelf.followers.len()
    }

    fn is_refused(&self, at: usize) -> bool {
        match self.shelf.followers.get(at) {
            Some(slot) => slot.is_refused,
            None => false,
        }
    }

    fn sync_followers(&mut self) {
        self.remember();
        for at in 0..self.shelf.followers.len() {
            if self.fails() {
                self.shelf.refuse_follower(at);
            } else {
                self.shelf.sync_follower(at);
            }
        }
    }

    fn put_follower(&mut self, at: usize) -> Result<(), CallFailed> {
        self.remember();
        let fails = self.fails();
        if at >= self.shelf.followers.len() {
            return Err(CallFailed);
        }
        if fails {
            self.shelf.refuse_follower(at);
            return Err(CallFailed);
        }
        self.shelf.place_follower(at);
        Ok(())
    }

    /// Each name is synced by a call of its own, as if each follower lay in a folder of its own.
    fn sync_follower_names(&mut self) {
        self.remember();
        for at in 0..self.shelf.followers.len() {
            if self.fails() {
                self.shelf.refuse_follower(at);
            } else {
                self.shelf.settle_follower(at);
            }
        }
    }

    fn drop_follower(&mut self, at: usize) {
        self.remember();
        if at < self.shelf.followers.len() {
            self.shelf.drop_follower(at);
        }
    }
}
