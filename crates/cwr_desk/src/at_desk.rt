//! The running desk as a registry where calls are handed in.
ghost use Rattle.std.specs.Prelude.{◌≡◌, ◌≢◌, ◌≤◌, ◌↔◌, ◌+◌, ◌-◌, ◌∷◌, [], Some, true, IfOk, IfErr, OnOk, OnErr};
ghost use Rattle.registry_desk.specs.Standing.{DeskId};
ghost use Rattle.registry_desk.specs.Views.{max_turns};
ghost use Rattle.work_registry.specs.EntryValue.{entry_of};
ghost use Rattle.work_registry.specs.Numbers.{IsNumbered};
ghost use Rattle.work_registry.specs.Refusals.{is_for_limit};
ghost use Rattle.work_registry.specs.declared.refused.HandInError.TheVariants.{Full};
ghost use Rattle.cwr_engine.specs.Causes.{marked_by};
ghost use Rattle.cwr_engine.specs.Handing.{HasGained};
ghost use Rattle.cwr_desk.specs.Sights.{entries_of, saw_full};

use cwr_engine::Submit;
use registry_desk::{Desk, Seat};
use std::alloc::Allocator;
use std::sync::Wait;
use work_registry::{Call, HandInError, Reply};

/// A seat at a desk that other seats share.
#[derive(Drop)]
pub(crate) struct AtDesk<'a, T: Wait, A: Allocator + Copy + Drop> {
    pub(crate) rt: &'a T,
    pub(crate) desk: &'a Desk<A>,
    pub(crate) seat: Seat<A>,
    ghost ours: { seat.desk ≡ desk.now },
    ghost guest: { seat.view.session ≢ 0 },
}

impl<'a, T: Wait, A: Allocator + Copy + Drop> Submit<Call<A>> for AtDesk<'a, T, A> {
    ghost session = { λ s. s.seat.view.session };

    ghost turns_left = { λ s. max_turns - s.seat.view.turns };

    ghost entries = { λ s. entries_of s.seat.view };

    ghost full = { λ s. saw_full s.seat.view.limit s.seat.view.front };

    ghost mark = { λ s. Some s.seat.view.marked };

    ghost limit = { λ s. s.seat.view.limit };

    ghost Home = { DeskId };

    ghost home = { λ s. s.seat.desk };

    fn hand_in(self, call: Call<A>) -> (AtDesk<'a, T, A>, Result<Reply, HandInError>) {
        let AtDesk { rt, desk, seat } = self;
        let (seat, reply) = desk.hand_in(rt, seat, call);
        match reply {
            Ok(reply) => (AtDesk { rt, desk, seat }, Ok(reply)),
            Err(refused) => (AtDesk { rt, desk, seat }, Err(refused.why)),
        }
    }
}
