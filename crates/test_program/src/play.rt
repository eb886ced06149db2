//! Plays: commands over files, one after the other, with what each must print and leave.

use crate::fake_files::{FakeFile, KeptFile};
use crate::runs::{expect_fed, expect_held, keeping};
use crate::step::Step;
use crate::text::Text;
use std::alloc::Global;
use std::process::ExitCode;
use std::sync::Wait;
use std::test::Fail;
use std::thread::Threads;

/// What a file that can only be read gives.
#[derive(Clone, Copy)]
pub enum Given<'a> {
    /// A text.
    Holds(Text<'a>),
    /// The first 100 bytes of a text, then an error once, and then the others.
    Breaks(Text<'a>),
    /// The byte `A` for ever.
    Endless,
    /// An error.
    Broken,
}

/// A file that can be written: its name, what it holds before, and the number of bytes that it takes.
#[derive(Clone, Copy)]
pub struct Kept<'a> {
    pub name: &'a str,
    pub held: Text<'a>,
    pub room: usize,
}

impl<'a> Given<'a> {
    /// The text that it holds, if any.
    fn bytes(self, alloc: Global) -> Result<Vec<u8>, Fail> {
        match self {
            Given::Holds(text) | Given::Breaks(text) => text.bytes(alloc),
            Given::Endless | Given::Broken => Ok(Vec::new(alloc)),
        }
    }

    /// The file of this name that holds this text.
    fn file<'f>(self, name: &'f str, text: &'f [u8]) -> (&'f str, FakeFile<'f>) {
        let file = match self {
            Given::Holds(_) => FakeFile::Holds(text),
            Given::Breaks(_) => breaking(text),
            Given::Endless => FakeFile::Endless,
            Given::Broken => FakeFile::Broken,
        };
        (name, file)
    }
}

/// A file of a text, whose read fails once after 100 bytes.
fn breaking(text: &[u8]) -> FakeFile<'_> {
    let (first, rest) = text.split_at(text.len().min(100));
    FakeFile::Breaks {
        first,
        rest,
        broken: false,
    }
}

impl<'a> Kept<'a> {
    /// A file that takes 1,000 bytes.
    pub fn new(name: &'a str, held: Text<'a>) -> Kept<'a> {
        Kept {
            name,
            held,
            room: 1000,
        }
    }
}

/// Plays each step in its order. How it ends, what it prints and what it leaves must be as the step says.
pub fn expect_play<'a, T: AllocGlobal + Threads + Wait + Sync>(
    rt: &T,
    given: &'a [(&'a str, Given<'a>)],
    writable: &'a [Kept<'a>],
    steps: &[Step],
) -> Result<(), Fail> {
    let alloc = rt.alloc();
    let mut texts = Vec::new(alloc);
    for (_, file) in given {
        texts.push(file.bytes(alloc)?)?;
    }
    let files = files_of(alloc, given, &texts)?;
    let kept = kept_of(alloc, writable)?;
    for step in steps {
        expect_step(rt, &files, &kept, step)?;
    }
    Ok(())
}

/// The files that can only be read, with the texts that they hold.
fn files_of<'f>(
    alloc: Global,
    given: &'f [(&'f str, Given<'f>)],
    texts: &'f [Vec<u8>],
) -> Result<Vec<(&'f str, FakeFile<'f>)>, Fail> {
    let mut files = Vec::new(alloc);
    for ((name, file), text) in given.iter().zip(texts) {
        files.push(file.file(name, text.as_slice()))?;
    }
    Ok(files)
}

/// The files that can be written.
fn kept_of<'f>(alloc: Global, writable: &'f [Kept<'f>]) -> Result<Vec<KeptFile<'f>>, Fail> {
    let mut kept = Vec::new(alloc);
    for file in writable {
        let held = file.held.bytes(alloc)?;
        kept.push(keeping(alloc, file.name, &held, file.room)?)?;
    }
    Ok(kept)
}

/// Plays one step.
fn expect_step<T: AllocGlobal + Threads + Wait + Sync>(
    rt: &T,
    files: &[(&str, FakeFile)],
    kept: &[KeptFile],
    step: &Step,
) -> Result<(), Fail> {
    let alloc = rt.alloc();
    let words = step.line(alloc)?;
    let input = step.input.bytes(alloc)?;
    let printed = step.printed.bytes(alloc)?;
    let status = ExitCode::from(step.status);
    expect_fed(
        rt,
        &words,
        &input,
        files,
        kept,
        step.takes,
        status,
        &printed,
        step.complained,
    )?;
    for (name, text) in step.held {
        expect_text(alloc, kept, name, *text)?;
    }
    Ok(())
}

/// The file of this name must hold this text.
fn expect_text(alloc: Global, kept: &[KeptFile], name: &str, text: Text) -> Result<(), Fail> {
    for file in kept {
        if file.name == name {
            return expect_held(file, &text.bytes(alloc)?);
        }
    }
    Err("a file of this name".into())
}
