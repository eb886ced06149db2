//! Commands, with their required outcomes.

use crate::runs::stamped_words;
use crate::text::Text;
use std::alloc::Global;
use std::test::Fail;

/// A command, how it ends, what it prints on standard output and on standard error, and what files hold then.
#[derive(Clone, Copy)]
pub struct Step<'a> {
    words: &'a [&'a str],
    /// The command, if the words stand behind it and the stamp of all acknowledgements.
    command: Option<&'a str>,
    pub(crate) input: Text<'a>,
    /// The number of bytes that standard output takes.
    pub(crate) takes: usize,
    pub(crate) status: u8,
    pub(crate) printed: Text<'a>,
    pub(crate) complained: &'a str,
    pub(crate) held: &'a [(&'a str, Text<'a>)],
}

impl<'a> Step<'a> {
    /// The command of these words behind `purvilgo`. It finds no standard input, and must end with status 0 and print
    /// nothing, on standard error neither.
    pub fn of(words: &'a [&'a str]) -> Step<'a> {
        Step {
            words,
            command: None,
            input: Text::Bytes(b""),
            takes: usize::MAX,
            status: 0,
            printed: Text::Bytes(b""),
            complained: "",
            held: &[],
        }
    }

    /// A run with these words behind the stamp's.
    pub fn run(more: &'a [&'a str]) -> Step<'a> {
        Step::stamped("run", more)
    }

    /// A command with these words behind those of the stamp of all acknowledgements.
    pub fn stamped(command: &'a str, more: &'a [&'a str]) -> Step<'a> {
        let mut step = Step::of(more);
        step.command = Some(command);
        step
    }

    /// The same with this standard input.
    pub fn reads(self, input: Text<'a>) -> Step<'a> {
        let mut step = self;
        step.input = input;
        step
    }

    /// The same, whose standard output takes at most `most` bytes.
    pub fn taking(self, most: usize) -> Step<'a> {
        let mut step = self;
        step.takes = most;
        step
    }

    /// The same, which must end with this status.
    pub fn ends(self, status: u8) -> Step<'a> {
        let mut step = self;
        step.status = status;
        step
    }

    /// The same, which must print this.
    pub fn prints(self, text: &'a str) -> Step<'a> {
        self.gives(Text::Bytes(text.as_bytes()))
    }

    /// The same, which must print this text.
    pub fn gives(self, text: Text<'a>) -> Step<'a> {
        let mut step = self;
        step.printed = text;
        step
    }

    /// The same, which must print this on standard error.
    pub fn complains(self, text: &'a str) -> Step<'a> {
        let mut step = self;
        step.complained = text;
        step
    }

    /// The same, after which these files must hold these texts.
    pub fn leaves(self, held: &'a [(&'a str, Text<'a>)]) -> Step<'a> {
        let Step {
            words,
            command,
            input,
            takes,
            status,
            printed,
            complained,
            held: _,
        } = self;
        Step {
            words,
            command,
            input,
            takes,
            status,
            printed,
            complained,
            held,
        }
    }

    /// The complete command line.
    pub(crate) fn line(&self, alloc: Global) -> Result<Vec<&'a str>, Fail> {
        if let Some(command) = self.command {
            return stamped_words(alloc, command, self.words);
        }
        let mut line = Vec::new(alloc);
        line.push("purvilgo")?;
        line.extend_from_slice(self.words)?;
        Ok(line)
    }
}
