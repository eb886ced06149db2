use cwr_engine::FileOutcome;

/// Is told how a run of many jobs gets on.
pub trait RunListener {
    /// A group of jobs has ended, with these outcomes. The first of them is the job with the index `first`, counted
    /// from 0.
    fn ended(&self, first: usize, outcomes: &[FileOutcome]);
}

/// A listener that is told and does nothing.
#[derive(Clone, Copy, Debug)]
pub struct NoListener;

impl RunListener for NoListener {
    fn ended(&self, _first: usize, _outcomes: &[FileOutcome]) {}
}
