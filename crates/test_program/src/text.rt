//! Texts that files hold before a command, or must hold after it.

use std::alloc::Global;
use std::test::Fail;
use test_files::{file_of_lines, miscounted, one_answer, one_writer, plain_file, rival_claims};

/// A text, by what it is.
#[derive(Clone, Copy)]
pub enum Text<'a> {
    /// These bytes.
    Bytes(&'a [u8]),
    /// A file of these lines behind its header.
    Lines(&'a [&'a str]),
    /// A file of one new work.
    Plain,
    /// The same, whose one writer has these shares of the three rights.
    Writer(&'a str, &'a str, &'a str),
    /// The same, whose group has another count of records.
    Miscounted,
    /// The first of two files that claim one work.
    FirstClaim,
    /// The second of them.
    SecondClaim,
    /// The acknowledgement of the plain file, with this status.
    Answer(&'a str),
    /// The first bytes of it, as many as the number says.
    Front(&'a str, usize),
    /// The register of this number of runs on the plain file.
    Register(u32),
}

impl Text<'_> {
    /// Its bytes.
    pub fn bytes(self, alloc: Global) -> Result<Vec<u8>, Fail> {
        match self {
            Text::Bytes(bytes) => Ok(Vec::from_slice(alloc, bytes)?),
            Text::Lines(lines) => file_of_lines(alloc, lines),
            Text::Plain => plain_file(alloc),
            Text::Writer(performing, mechanical, synchronization) => {
                one_writer(alloc, [performing, mechanical, synchronization])
            }
            Text::Miscounted => miscounted(alloc),
            Text::FirstClaim => {
                let [first, _] = rival_claims(alloc)?;
                Ok(first)
            }
            Text::SecondClaim => {
                let [_, second] = rival_claims(alloc)?;
                Ok(second)
            }
            Text::Answer(status) => one_answer(alloc, status),
            Text::Front(status, length) => {
                let mut answer = one_answer(alloc, status)?;
                answer.truncate(length);
                Ok(answer)
            }
            Text::Register(runs) => Ok(register(alloc, runs)?.into_bytes()),
        }
    }
}

/// The register of `runs` runs on the plain file: its first entry is accepted, and the others are duplicates.
pub fn register(alloc: Global, runs: u32) -> Result<String, Fail> {
    let mut text = format!(in alloc; "REG{runs:08}\n")?;
    for index in 0..runs {
        let index = index.saturating_add(1);
        let reply = if index == 1 {
            "AS0000000100000001000000000"
        } else {
            "DU0000000100000000000000000"
        };
        let line = format!(in alloc;
            "ENT{index:08}PB000000123NWRSONG ONE{:52}W1{:23}000000010000000000010000000000010000{reply}\n",
            "", ""
        )?;
        text.push_str(line.as_str())?;
    }
    Ok(text)
}
