ghost use Rattle.std.specs.Prelude.{◌≡◌};

use crate::reply::Reply;
use cwr_call::Call;
use std::alloc::{Allocator, Global};
use std::marker::Model;

/// A call that the registry answered, with its reply. A contract sees the record of its parts.
#[derive_where(Debug)]
#[derive(Drop)]
pub struct Entry<A: Allocator = Global> {
    pub(crate) session: u32,
    pub(crate) call: Call<A>,
    pub(crate) reply: Reply,
}

impl<A: Allocator> Model for Entry<A> {
    ghost use Rattle.work_registry.specs.EntryValue.{EntryValue, entry_of};

    ghost Value = { EntryValue };

    ghost view = { λ e. entry_of e.session e.call e.reply };
}

impl<A: Allocator> Entry<A> {
    /// Who handed the call in: 0 is the opening.
    pub fn session(&self) -> u32
        ensures { result ≡ self.now.session }
    {
        self.session
    }

    /// What was handed in.
    pub fn call(&self) -> &Call<A>
        ensures { result.now ≡ self.now.call }
    {
        &self.call
    }

    /// What the registry decided.
    pub fn reply(&self) -> Reply
        ensures { result ≡ self.now.reply }
    {
        self.reply
    }
}
