ghost use Rattle.std.specs.Prelude.{◌≡◌};
ghost use Rattle.purvilgo_c.specs.Ownership.{owns_boxed};

use std::alloc::Global;
use std::marker::Model;

/// A box as its pointer alone, with all that it owns. Making a box of it again needs the allocator.
///
/// It cannot be dropped, so the check ensures that it is made a box or put into a handle.
pub(crate) struct Bare<T> {
    pub(crate) at: *mut T,
    pub(crate) ghost value: { T },
}

impl<T> Model for Bare<T> {
    ghost also_owns = { λ b. owns_boxed T.row b.at b.value };
}

impl<T> Bare<T> {
    /// The box without its allocator.
    pub(crate) fn of(boxed: Box<T>) -> Bare<T>
    where
        T: Drop,
        ensures { result.value ≡ boxed.value }
    {
        Bare {
            at: Box::into_raw(boxed),
        }
    }

    /// The box again.
    pub(crate) fn into_box(self, alloc: Global) -> Box<T>
        ensures { result.value ≡ self.value }
    {
        let Bare { at } = self;
        unsafe { Box::from_raw(alloc, at) }
    }
}
