//! The sweep itself: which calls it must find wrong.

use failing_alloc::{Ended, FailingAlloc, Sweep, refuse_each};
use std::alloc::AllocError;
use std::process::{ExitCode, Termination};
use std::test::Fail;
use test_comparisons::same;

/// Allocates `times` times, up to a refusal.
fn ask(memory: &FailingAlloc, times: u64) -> Result<(), AllocError> {
    for _ in 0..times {
        let _ = Vec::<u8, &FailingAlloc>::with_capacity(memory, 10)?;
    }
    Ok(())
}

/// A sweep of this call must end with this status. If it fails, its message goes to standard error, since a failure
/// cannot be dropped.
fn expect<S: Sweep, R: AllocGlobal + Eprint>(
    rt: &R,
    what: &str,
    call: &S,
    wanted: ExitCode,
) -> Result<(), Fail> {
    same(what, &refuse_each(rt.alloc(), call).report(rt), &wanted)
}

/// Allocates a number of times, and reports a refusal.
struct Asks {
    times: u64,
}

impl Sweep for Asks {
    fn ends(&self, memory: &FailingAlloc) -> Ended {
        Ok(ask(memory, self.times).is_err())
    }
}

#[test]
fn passes_what_tells_each_refusal(rt: HostRuntime) -> Result<(), Fail> {
    expect(&rt, "one request", &Asks { times: 1 }, ExitCode::SUCCESS)?;
    expect(&rt, "nine requests", &Asks { times: 9 }, ExitCode::SUCCESS)
}

#[test]
fn fails_for_what_asks_for_nothing(rt: HostRuntime) -> Result<(), Fail> {
    expect(&rt, "no request", &Asks { times: 0 }, ExitCode::FAILURE)
}

/// Each of its requests is refused in turn, and there are more of them than any call makes.
#[test]
fn fails_for_what_asks_without_end(rt: HostRuntime) -> Result<(), Fail> {
    expect(&rt, "without end", &Asks { times: 1000 }, ExitCode::FAILURE)
}

/// Allocates a number of times, and says that it was refused, whether it was or not.
struct SaysRefused {
    times: u64,
}

impl Sweep for SaysRefused {
    fn ends(&self, memory: &FailingAlloc) -> Ended {
        let _ = ask(memory, self.times);
        Ok(true)
    }
}

#[test]
fn fails_for_what_is_always_refused(rt: HostRuntime) -> Result<(), Fail> {
    expect(&rt, "unasked", &SaysRefused { times: 0 }, ExitCode::FAILURE)?;
    expect(
        &rt,
        "asked once",
        &SaysRefused { times: 1 },
        ExitCode::FAILURE,
    )?;
    expect(
        &rt,
        "asked twice",
        &SaysRefused { times: 2 },
        ExitCode::FAILURE,
    )
}

/// Allocates twice, reports a refusal of one of the two requests, and hides one of the other.
struct Hides {
    first: bool,
}

impl Sweep for Hides {
    fn ends(&self, memory: &FailingAlloc) -> Ended {
        let first = ask(memory, 1).is_err();
        let second = ask(memory, 1).is_err();
        Ok(if self.first { second } else { first })
    }
}

#[test]
fn fails_for_what_hides_a_refusal(rt: HostRuntime) -> Result<(), Fail> {
    expect(&rt, "the first", &Hides { first: true }, ExitCode::FAILURE)?;
    expect(
        &rt,
        "the second",
        &Hides { first: false },
        ExitCode::FAILURE,
    )
}

/// Reports each refusal, and leaves something wrong after it.
struct LeavesSomethingWrong;

impl Sweep for LeavesSomethingWrong {
    fn ends(&self, memory: &FailingAlloc) -> Ended {
        match ask(memory, 1) {
            Ok(()) => Ok(false),
            Err(_) => Err(Fail::new("something is wrong")),
        }
    }
}

#[test]
fn fails_for_what_leaves_something_wrong(rt: HostRuntime) -> Result<(), Fail> {
    expect(&rt, "wrong", &LeavesSomethingWrong, ExitCode::FAILURE)
}
