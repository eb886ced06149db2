//! The commands of the program `purvilgo`: [`run_program`] takes its words, reads and writes its files, and returns its
//! exit status. What it does with their bytes is in the libraries below.
#![tactic(auto)]

mod answered_file;
mod arguments;
mod checking;
mod command_line;
mod error_terminal;
mod explain;
mod file_names;
mod files;
mod given_words;
mod help;
mod keeping;
mod listed_files;
mod messages;
mod output;
mod page_of_check;
mod printing;
mod program;
mod progress;
mod registers;
mod run_command;
mod running;
mod same_files;
mod status;
mod tables;
mod targets;
mod told_outcomes;
mod verified_files;
mod version;
mod wanted_rows;
mod watched_register;

pub use error_terminal::ErrorTerminal;
pub use program::run_program;
pub use registers::MAX_REGISTER_BYTES;
