//! Entries that are not kept.

ghost use Rattle.std.specs.Prelude.{◌≡◌, ◌++◌, ◌∷◌, []};
ghost use Rattle.work_registry.specs.EntryValue.{entry_of};

use crate::entry::Entry;
use crate::reply::Reply;
use cwr_call::Call;
use std::alloc::Allocator;
use std::marker::Model;
use std::snapshot::Snapshot;

/// All entries so far, for contracts alone: it takes no memory.
#[derive(Drop)]
pub(crate) struct Past<A: Allocator> {
    entries: Entries<A>,
}

#[derive(Drop)]
enum Entries<A: Allocator> {
    /// The entries of a list.
    Listed(Snapshot<Vec<Entry<A>, A>>),
    /// Those entries and one more, of the opening.
    After(Snapshot<Entries<A>>, Snapshot<Call<A>>, Snapshot<Reply>),
}

impl<A: Allocator> Model for Past<A> {
    ghost use Rattle.std.specs.Prelude.{List};
    ghost use Rattle.work_registry.specs.EntryValue.{EntryValue};
    ghost use Rattle.work_registry.specs.Past.{entries_of};

    ghost Value = { List EntryValue };

    ghost view = { λ p. entries_of p.entries };
}

impl<A: Allocator> Past<A> {
    /// The entries of a list.
    pub(crate) fn of(entries: &Vec<Entry<A>, A>) -> Past<A>
        ensures { result ≡ entries.now.items }
    {
        Past {
            entries: Entries::Listed(Snapshot::of(entries)),
        }
    }

    /// Adds an entry of the opening.
    pub(crate) fn push(&mut self, call: &Call<A>, reply: Reply)
        ensures { self.new ≡ self.old ++ entry_of 0 call.now reply ∷ [] }
    {
        self.entries = Entries::After(
            Snapshot::of(&self.entries),
            Snapshot::of(call),
            Snapshot::of(&reply),
        );
    }
}
