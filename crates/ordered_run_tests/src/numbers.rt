//! Numbers that look like chance and are the same each time.
ghost use Rattle.std.specs.Prelude.{◌<◌};

use std::test::Fail;

/// A linear congruential generator.
#[derive(Drop)]
pub(crate) struct Numbers {
    state: u64,
}

impl Numbers {
    /// The numbers of a seed.
    pub(crate) fn of(seed: u64) -> Numbers {
        Numbers { state: seed }
    }

    /// The next number, which is below this one.
    pub(crate) fn below(&mut self, most: usize) -> usize
        requires { 0 < most }
        ensures { result < most }
    {
        self.state = self
            .state
            .wrapping_mul(6_364_136_223_846_793_005)
            .wrapping_add(1_442_695_040_888_963_407);
        (self.state >> 33) as usize % most
    }

    /// One of these.
    pub(crate) fn one_of<'a, T>(&mut self, all: &'a [T]) -> Result<&'a T, Fail> {
        if all.is_empty() {
            return Err(Fail::new("none of nothing"));
        }
        Ok(&all[self.below(all.len())])
    }
}
