//! How a job ended, as numbers for C.

ghost use Rattle.std.specs.Prelude.{◌≡◌, ◌<◌, ◌^◌, Some, IfSome};
ghost use Rattle.cwr_engine.specs.declared.outcome.FileOutcome.{FileOutcome};
ghost use Rattle.cwr_engine.specs.declared.outcome.Why.{Why};
ghost use Rattle.c_values.specs.Outcomes.{numbers_of, cause_of, bytes_sent};

use cwr_engine::{FileOutcome, Why};

const ACKNOWLEDGED: u32 = 0;

const REFUSED: u32 = 1;

const STOPPED: u32 = 2;

/// How a job ended, as numbers. A number that a kind does not have is 0.
#[repr(C)]
#[derive(Clone, Copy, PartialEq, Eq)]
pub struct Outcome {
    /// 0: acknowledged. 1: refused. 2: stopped.
    pub kind: u32,
    /// Refused: the fault, 1 to 12 for F1 to F12.
    pub fault: u32,
    /// Refused: the line that has it, from 1.
    pub line: u64,
    /// Acknowledged: the number of transactions of the file. Stopped: the number of those that were decided.
    pub transactions: u32,
    /// Stopped: 1 memory, 2 full, 3 read, 4 too long, 5 gate, 6 write.
    pub cause: u32,
    /// Stopped for a write: the number of bytes of the acknowledgement that were written.
    pub sent: u64,
}

/// The numbers of an outcome.
pub fn numbers_of(outcome: &FileOutcome) -> Outcome
    ensures { result ≡ numbers_of outcome.now }
{
    let none = Outcome {
        kind: ACKNOWLEDGED,
        fault: 0,
        line: 0,
        transactions: 0,
        cause: 0,
        sent: 0,
    };
    match *outcome {
        FileOutcome::Acked { transactions } => Outcome {
            transactions,
            ..none
        },
        FileOutcome::Refused { number, line } => Outcome {
            kind: REFUSED,
            fault: number as u32,
            line,
            ..none
        },
        FileOutcome::Stopped { handed, why } => Outcome {
            kind: STOPPED,
            transactions: handed,
            cause: cause_of(why),
            sent: bytes_sent(why),
            ..none
        },
    }
}

/// The number of a cause, as `Outcome` lists them.
fn cause_of(why: Why) -> u32
    ensures { result ≡ cause_of why }
{
    match why {
        Why::Memory => 1,
        Why::Full => 2,
        Why::Read => 3,
        Why::TooLong => 4,
        Why::Gate => 5,
        Why::Write { sent: _ } => 6,
    }
}

/// How many bytes of the acknowledgement were written, if a write failed; 0 for any other cause.
fn bytes_sent(why: Why) -> u64
    ensures { result ≡ bytes_sent why }
{
    match why {
        Why::Write { sent } => sent,
        Why::Memory | Why::Full | Why::Read | Why::TooLong | Why::Gate => 0,
    }
}

/// The cause with this number; `None` where no cause has it. `sent` is used only for a failed write.
fn why_of(cause: u32, sent: u64) -> Option<Why>
    ensures { (w : Why) → cause ≡ cause_of w → sent ≡ bytes_sent w → result ≡ Some w }
{
    match cause {
        1 => Some(Why::Memory),
        2 => Some(Why::Full),
        3 => Some(Why::Read),
        4 => Some(Why::TooLong),
        5 => Some(Why::Gate),
        6 => Some(Why::Write { sent }),
        _ => None,
    }
}

/// The only outcome that could have these numbers. Whether it has them, `outcome_of` tests.
fn likely(numbers: &Outcome) -> Option<FileOutcome>
    ensures { (o : FileOutcome) → numbers.now ≡ numbers_of o → numbers.now.fault < 2 ^ 8 → result ≡ Some o }
{
    match numbers.kind {
        ACKNOWLEDGED => Some(FileOutcome::Acked {
            transactions: numbers.transactions,
        }),
        REFUSED => {
            if numbers.fault > 255 {
                return None;
            }
            Some(FileOutcome::Refused {
                number: numbers.fault as u8,
                line: numbers.line,
            })
        }
        STOPPED => {
            let why = why_of(numbers.cause, numbers.sent)?;
            Some(FileOutcome::Stopped {
                handed: numbers.transactions,
                why,
            })
        }
        _ => None,
    }
}

/// The outcome that has these numbers.
pub fn outcome_of(numbers: &Outcome) -> Option<FileOutcome>
    ensures is { IfSome result (λ o. numbers.now ≡ numbers_of o) }
    ensures found { (o : FileOutcome) → numbers.now ≡ numbers_of o → numbers.now.fault < 2 ^ 8 → result ≡ Some o }
{
    let outcome = likely(numbers)?;
    if numbers_of(&outcome) == *numbers {
        Some(outcome)
    } else {
        None
    }
}
