ghost use Rattle.std.specs.Prelude.{Some, []};

use byte_streams::{Failed, Sink};

/// A sink that takes nothing. A text that goes there must fit into the buffer in front of it.
#[derive(Drop)]
pub(crate) struct Nowhere {
    pub(crate) failed: bool,
}

impl Sink for Nowhere {
    ghost taken = { λ _. Some [] };

    ghost has_failed = { λ s. s.failed };

    fn failed(&self) -> bool {
        self.failed
    }

    fn write_some(&mut self, _: &[u8]) -> Result<usize, Failed> {
        self.failed = true;
        Err(Failed)
    }
}
