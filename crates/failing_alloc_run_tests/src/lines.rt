//! The line of an outcome.

use cwr_desk::{FileOutcome, outcome_line};
use failing_alloc::{Ended, FailingAlloc, Sweep, answered, refuse_each};
use std::test::Fail;
use test_comparisons::same_bytes;

struct OutcomeLine;

impl Sweep for OutcomeLine {
    fn ends(&self, memory: &FailingAlloc) -> Ended {
        let outcome = FileOutcome::Refused { number: 9, line: 5 };
        match outcome_line(memory, b"a.v22", &outcome) {
            Ok(line) => answered(same_bytes("line", &line, b"a.v22: refused F9 at line 5\n")),
            Err(_) => Ok(true),
        }
    }
}

#[test]
fn outcome_lines(rt: HostRuntime) -> Result<(), Fail> {
    refuse_each(rt.alloc(), &OutcomeLine)
}
