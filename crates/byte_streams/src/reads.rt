use std::fmt;
use std::marker::Model;
use std::snapshot::Snapshot;

/// How often a source was read, for contracts alone: a number without an upper bound, which takes no memory.
///
/// A source keeps one and counts each of its reads. A contract sees it as the number.
#[derive(Drop)]
pub struct ReadCount {
    steps: Steps,
}

#[derive(Drop)]
enum Steps {
    Zero,
    After(Snapshot<Steps>),
}

impl Model for ReadCount {
    ghost use Rattle.std.specs.Prelude.{ℕ};
    ghost use Rattle.byte_streams.specs.Reads.{steps_made};

    ghost Value = { ℕ };

    ghost view = { λ c. steps_made c.steps };
}

impl ReadCount {
    ghost use Rattle.std.specs.Prelude.{◌≡◌, ◌+◌};

    /// No read so far.
    pub fn zero() -> Self
        ensures { result ≡ 0 }
    {
        ReadCount { steps: Steps::Zero }
    }

    /// Counts one read more.
    pub fn count(&mut self)
        ensures { self.new ≡ self.old + 1 }
    {
        self.steps = Steps::After(Snapshot::of(&self.steps));
    }
}

impl fmt::Debug for ReadCount {
    fn fmt<W: fmt::Write>(&self, f: &mut fmt::Formatter<W>) -> fmt::Result {
        f.write_str("ReadCount")
    }
}
