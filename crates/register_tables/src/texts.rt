//! Buffers for the fields of a row that are put together.

ghost use Rattle.std.specs.Prelude.{◌≡◌, OnOk};
ghost use Rattle.register_tables.specs.RowTexts.{HasCall, HasControl};

use crate::form::{Form, set_share, set_text};
use crate::rows::set_iswc;
use cwr_field::Memory;
use std::alloc::Allocator;
use work_registry::Call;

/// Buffers for the fields of a row that are put together.
#[derive(Drop)]
pub(crate) struct Texts<A: Allocator + Drop> {
    pub(crate) submitter: Vec<u8, A>,
    pub(crate) number: Vec<u8, A>,
    pub(crate) title: Vec<u8, A>,
    pub(crate) iswc: Vec<u8, A>,
    pub(crate) performing: Vec<u8, A>,
    pub(crate) mechanical: Vec<u8, A>,
    pub(crate) synchronization: Vec<u8, A>,
    pub(crate) faults: Vec<u8, A>,
}

impl<A: Allocator + Copy + Drop> Texts<A> {
    /// Empty buffers. Nothing is allocated.
    pub(crate) fn new(alloc: A) -> Texts<A> {
        Texts {
            submitter: Vec::new(alloc),
            number: Vec::new(alloc),
            title: Vec::new(alloc),
            iswc: Vec::new(alloc),
            performing: Vec::new(alloc),
            mechanical: Vec::new(alloc),
            synchronization: Vec::new(alloc),
            faults: Vec::new(alloc),
        }
    }

    /// Sets the fields to those of a call. The faults stay.
    pub(crate) fn set_call(&mut self, form: Form, call: &Call<A>) -> Result<(), Memory>
        ensures call { OnOk result (HasCall form call.now self.new) }
        ensures faults { self.new.faults ≡ self.old.faults }
    {
        set_text(&mut self.submitter, form, &call.submitter())?;
        set_text(&mut self.number, form, &call.number())?;
        set_text(&mut self.title, form, &call.title())?;
        set_iswc(&mut self.iswc, call.iswc())?;
        self.set_control(form, call.control())
    }

    /// Sets the control to that of a call or of a work. The other fields stay.
    pub(crate) fn set_control(&mut self, form: Form, control: [u64; 3]) -> Result<(), Memory>
        ensures submitter { self.new.submitter ≡ self.old.submitter }
        ensures number { self.new.number ≡ self.old.number }
        ensures title { self.new.title ≡ self.old.title }
        ensures iswc { self.new.iswc ≡ self.old.iswc }
        ensures faults { self.new.faults ≡ self.old.faults }
        ensures control { OnOk result (HasControl form control self.new) }
    {
        set_share(&mut self.performing, form, control[0])?;
        set_share(&mut self.mechanical, form, control[1])?;
        set_share(&mut self.synchronization, form, control[2])
    }
}
