ghost use Rattle.std.specs.Prelude.{◌≡◌, IfOk};

use cwr_field::Memory;
use std::alloc::{Allocator, Global};
use std::marker::Model;

/// A fault of a transaction: a rule that one of its records breaks.
#[derive(Clone, Copy, Debug, PartialEq, Eq, Hash)]
pub struct Fault {
    /// Record sequence of the faulty record in its transaction: 0 for the transaction's header, and for the transaction
    /// as a whole.
    pub sequence: u32,
    /// The number of the rule, from 1 to 15, which is the validation number of the fault's MSG record.
    pub number: u8,
    /// The type of the faulty record: the first three bytes of its line.
    pub rtype: [u8; 3],
}

/// The faults of a transaction, which contracts see as a list.
#[derive_where(Debug)]
#[derive(Drop)]
pub struct Faults<A: Allocator = Global> {
    faults: Vec<Fault, A>,
}

impl<A: Allocator> Model for Faults<A> {
    ghost use Rattle.std.specs.Prelude.{List};
    ghost use Rattle.cwr_call.specs.declared.transaction_fault.Fault.{Fault};

    ghost Value = { List Fault };

    ghost view = { λ f. f.faults.items };
}

impl<A: Allocator> Faults<A> {
    /// These faults. No memory is asked for.
    pub fn new(faults: Vec<Fault, A>) -> Faults<A>
        ensures { result ≡ faults.items }
    {
        Faults { faults }
    }

    /// The faults, in order.
    pub fn as_slice(&self) -> &[Fault]
        ensures { result.now ≡ self.now }
    {
        self.faults.as_slice()
    }

    /// A copy of the faults. For no faults no memory is asked for.
    #[inline]
    pub(crate) fn copied(&self, alloc: A) -> Result<Faults<A>, Memory>
        ensures { IfOk result (λ faults. faults ≡ self.now) }
    {
        if self.faults.is_empty() {
            return Ok(Faults::new(Vec::new(alloc)));
        }
        Ok(Faults::new(Vec::from_slice(alloc, &self.faults)?))
    }

    /// The faults as a `Vec` again. No memory is asked for.
    pub fn into_vec(self) -> Vec<Fault, A>
        ensures { result.items ≡ self }
    {
        let Faults { faults } = self;
        faults
    }
}
