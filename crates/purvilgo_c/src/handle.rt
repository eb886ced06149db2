ghost use Rattle.std.specs.Prelude.{◌≡◌, Option, Some, None, is_some};
ghost use Rattle.std.specs.Option.{option_map};
ghost use Rattle.purvilgo_c.specs.Ownership.{owns_held, held_coded};
ghost use Rattle.c_values.specs.RegistryValue.{RegistryValue};

use crate::bare::Bare;
use c_values::Registry;
use std::alloc::Global;
use std::marker::Model;
use std::{mem, ptr};

/// What C holds of a registry: a pointer to it, or null if the handle is closed.
///
/// A contract sees what it holds. It cannot be dropped, so the check ensures that no call loses a registry.
#[repr(C)]
pub struct Handle {
    at: *mut u8,
    ghost held: { Option RegistryValue } by { held_coded },
}

impl Model for Handle {
    ghost also_owns = { λ h. owns_held h.at h.held };
}

impl Handle {
    /// A closed handle.
    pub(crate) fn shut() -> Handle
        ensures { result.held ≡ None }
    {
        Handle {
            at: ptr::null_mut(),
        }
    }

    /// A handle of this registry.
    fn of(registry: Bare<Registry>) -> Handle
        ensures { result.held ≡ Some registry.value }
    {
        let Bare { at } = registry;
        Handle { at: at as *mut u8 }
    }

    /// What the handle holds.
    pub(crate) fn into_bare(self) -> Option<Bare<Registry>>
        ensures { option_map (λ b. b.value) result ≡ self.held }
    {
        let Handle { at } = self;
        if at.is_null() {
            return None;
        }
        Some(Bare {
            at: at as *mut Registry,
        })
    }

    /// Takes out what the handle holds, and leaves it closed.
    pub(crate) fn take(&mut self, alloc: Global) -> Option<Box<Registry>>
        ensures taken { option_map (λ b. b.value) result ≡ self.old.held }
        ensures shut { self.new.held ≡ None }
    {
        match mem::replace(self, Handle::shut()).into_bare() {
            Some(bare) => Some(bare.into_box(alloc)),
            None => None,
        }
    }

    /// Whether the handle holds a registry.
    pub(crate) fn is_open(&mut self, alloc: Global) -> bool
        ensures open { result ≡ is_some self.old.held }
        ensures same { self.new.held ≡ self.old.held }
    {
        match self.take(alloc) {
            Some(registry) => {
                self.put(registry);
                true
            }
            None => false,
        }
    }

    /// Puts a registry into a closed handle.
    pub(crate) fn put(&mut self, registry: Box<Registry>)
        requires { self.old.held ≡ None }
        ensures { self.new.held ≡ Some registry.value }
    {
        match mem::replace(self, Handle::of(Bare::of(registry))).into_bare() {
            None => {}
            Some(_) => unreachable!(),
        }
    }
}

// SAFETY: what it owns any thread may have, and give back to the heap.
unsafe impl Send for Handle {}
