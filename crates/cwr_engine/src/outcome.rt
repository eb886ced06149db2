use std::fmt;

/// Why a job was stopped.
#[derive(Clone, Copy, Debug, PartialEq, Eq, Hash)]
pub enum Why {
    /// Memory was refused.
    Memory,
    /// The history holds its limit of entries.
    Full,
    /// A read failed.
    Read,
    /// The file has more bytes than a file may have.
    TooLong,
    /// The gate was closed.
    Gate,
    /// A write failed, or took nothing.
    Write {
        /// How many bytes of the acknowledgement were written: its first ones.
        sent: u64,
    },
}

/// How a job ended: what became of one file.
#[derive(Clone, Copy, Debug, PartialEq, Eq, Hash)]
pub enum FileOutcome {
    /// Each of the file's transactions was decided, and the acknowledgement was written completely.
    Acked {
        /// How many transactions the file has.
        transactions: u32,
    },
    /// The file is not well-formed: this is its first fault. Nothing was decided and nothing written.
    Refused {
        /// The fault, 1 to 12 for F1 to F12.
        number: u8,
        /// The line that has it, from 1. The one after the last line is the end of the file.
        line: u64,
    },
    /// The job was stopped after the first `handed` of its transactions were decided, in file order.
    Stopped {
        /// How many transactions were decided. Their entries stay in the book.
        handed: u32,
        /// What stopped the job.
        why: Why,
    },
}

impl fmt::Display for Why {
    ghost use Rattle.std.specs.Prelude.{Some};
    ghost use Rattle.cwr_engine.specs.OutcomeText.{why_text};

    ghost output = { λ why. Some (why_text why) };

    fn fmt<W: fmt::Write>(&self, f: &mut fmt::Formatter<W>) -> fmt::Result {
        match self {
            Why::Memory => f.write_str("memory"),
            Why::Full => f.write_str("full"),
            Why::Read => f.write_str("read"),
            Why::TooLong => f.write_str("too long"),
            Why::Gate => f.write_str("gate"),
            Why::Write { sent } => write!(f, "write after {sent} bytes"),
        }
    }
}

impl fmt::Display for FileOutcome {
    ghost use Rattle.std.specs.Prelude.{Some};
    ghost use Rattle.cwr_engine.specs.OutcomeText.{outcome_text};

    ghost output = { λ outcome. Some (outcome_text outcome) };

    fn fmt<W: fmt::Write>(&self, f: &mut fmt::Formatter<W>) -> fmt::Result {
        match self {
            FileOutcome::Acked { transactions } => write!(f, "acknowledged {transactions}"),
            FileOutcome::Refused { number, line } => write!(f, "refused F{number} at line {line}"),
            FileOutcome::Stopped { handed, why } => write!(f, "stopped after {handed}: {why}"),
        }
    }
}
