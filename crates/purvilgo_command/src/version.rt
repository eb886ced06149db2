//! The version of the program.

use crate::arguments::CommandWords;
use crate::printing::StandardOutput;
use crate::status::status_of;
use std::io::Write;
use std::process::ExitCode;

/// CHANGELOG.md, at the top of the repository, lists the other places that have it, and what each version changed.
pub(crate) const VERSION: &str = "0.2.0";

/// `version`, the same as `--version`.
pub(crate) const VERSION_WORD: CommandWords = CommandWords {
    name: "version",
    about: "Prints the version, as --version does",
    arguments: &[],
    more: "",
};

/// Prints the version on standard output.
pub(crate) fn print_version<R: Print + Eprint>(rt: &R) -> ExitCode {
    status_of(write!(StandardOutput::of(rt), "purvilgo {VERSION}\n").is_ok())
}
