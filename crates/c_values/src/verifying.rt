ghost use Rattle.std.specs.Prelude.{◌≡◌, IfOk, MatchOption, count_by, nat_lt};
ghost use Rattle.c_values.specs.Answers.{no_memory, unverified};
ghost use Rattle.c_values.specs.Verified.{misfit_of, sent_in};

use crate::status::{NO_MEMORY, UNVERIFIED};
use cwr_verify::{SentFile, VerifyError};
use std::alloc::{AllocError, Global};

const TOO_LONG: u32 = 1;

const REFUSED: u32 = 2;

const TRANSACTION: u32 = 3;

const ACKNOWLEDGEMENT: u32 = 4;

/// A file that was sent, and the acknowledgement that is to answer it: in C, two pointers, each with its length behind
/// it.
#[repr(C)]
#[derive(Drop)]
pub struct SentBytes<'a> {
    /// The bytes of the file.
    pub file: &'a [u8],
    /// The bytes of its acknowledgement.
    pub acknowledgement: &'a [u8],
}

/// What does not fit between files and a register, as numbers. A number that a kind does not have is 0.
#[repr(C)]
#[derive(Clone, Copy, PartialEq, Eq)]
pub struct Misfit {
    /// 1: the file is too long. 2: the file is refused. 3: a transaction is not in the register, as its acknowledgement
    /// has it. 4: the acknowledgement has another line.
    pub kind: u32,
    /// Refused: the fault, 1 to 12 for F1 to F12.
    pub fault: u32,
    /// Which file, from 0.
    pub file: u64,
    /// Refused: the line of the file that has it, from 1. Another line: the first such line of the acknowledgement,
    /// from 1.
    pub line: u64,
    /// A transaction: group id of its group, from 1.
    pub group: u32,
    /// A transaction: its number in its group, from 0.
    pub transaction: u32,
}

/// The files, each with its acknowledgement.
pub fn sent_files<'a>(
    alloc: Global,
    files: &[SentBytes<'a>],
) -> Result<Vec<SentFile<'a>>, AllocError>
    ensures { IfOk result (λ sent. sent.items ≡ sent_in files.now) }
{
    let mut sent = Vec::new(alloc);
    for given in files {
        sent.push(SentFile {
            text: given.file,
            acknowledgement: given.acknowledgement,
        })?;
    }
    Ok(sent)
}

/// The number of these owners that are one of `files` files.
pub fn owned_count(owners: &[usize], files: usize) -> u64
    ensures { result ≡ count_by (λ owner. nat_lt owner files) owners.now }
{
    let mut count: u64 = 0;
    for owner in owners {
        if *owner < files {
            count += 1;
        }
    }
    count
}

/// Sets `misfit` to what does not fit, and returns the status. If an allocation failed, `misfit` stays as it was.
pub fn fill_misfit(told: VerifyError, misfit: &mut Misfit) -> u32
    ensures { MatchOption (misfit_of told) ((result ≡ no_memory) × (misfit.new ≡ misfit.old)) (λ numbers. (result ≡ unverified) × (misfit.new ≡ numbers)) }
{
    match misfit_of(told) {
        Some(numbers) => {
            *misfit = numbers;
            UNVERIFIED
        }
        None => NO_MEMORY,
    }
}

/// The numbers of what does not fit; none if an allocation failed.
fn misfit_of(told: VerifyError) -> Option<Misfit>
    ensures { result ≡ misfit_of told }
{
    let none = Misfit {
        kind: 0,
        fault: 0,
        file: 0,
        line: 0,
        group: 0,
        transaction: 0,
    };
    match told {
        VerifyError::Memory => None,
        VerifyError::TooLong { file } => Some(Misfit {
            kind: TOO_LONG,
            file: file as u64,
            ..none
        }),
        VerifyError::Refused { file, number, line } => Some(Misfit {
            kind: REFUSED,
            file: file as u64,
            fault: number as u32,
            line,
            ..none
        }),
        VerifyError::Transaction {
            file,
            group,
            sequence,
        } => Some(Misfit {
            kind: TRANSACTION,
            file: file as u64,
            group,
            transaction: sequence,
            ..none
        }),
        VerifyError::Acknowledgement { file, line } => Some(Misfit {
            kind: ACKNOWLEDGEMENT,
            file: file as u64,
            line: line as u64,
            ..none
        }),
    }
}
