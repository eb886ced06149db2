ghost use Rattle.std.specs.Prelude.{◌≡◌, Bool, true, false, OnErr};

/// The gate is closed: a worker may not go on.
#[derive(Clone, Copy, Debug, PartialEq, Eq)]
pub struct Shut;

/// What a worker passes before and after each transaction that it hands in.
///
/// All workers share one gate. Workers are counted from 1, and a file's transactions from 0.
pub trait Gate {
    // Whether `before` may find it closed, which never changes.
    ghost may_shut: { Self → Bool };

    /// Lets a worker hand in a transaction, or stops its job.
    fn before(&self, worker: u32, index: u32) -> Result<(), Shut>
        ensures { OnErr result (may_shut self.now ≡ true) };

    /// Is called once a worker's transaction got its reply.
    fn after(&self, worker: u32, index: u32);
}

/// A gate that lets everyone pass.
#[derive(Clone, Copy, Debug, PartialEq, Eq)]
pub struct OpenGate;

impl Gate for OpenGate {
    ghost may_shut = { λ _. false };

    fn before(&self, _worker: u32, _index: u32) -> Result<(), Shut> {
        Ok(())
    }

    fn after(&self, _worker: u32, _index: u32) {}
}
