//! Tests of the program's commands, options and texts, over a runtime of the tests' own, and of the options of a run.
#![tactic(auto)]

#[cfg(test)]
mod commands;
#[cfg(test)]
mod given_words;
#[cfg(test)]
mod help_pages;
#[cfg(test)]
mod listed_files;
#[cfg(test)]
mod option_runs;
#[cfg(test)]
mod other_words;
#[cfg(test)]
mod progress;
#[cfg(test)]
mod refused_words;
#[cfg(test)]
mod same_files;
#[cfg(test)]
mod standard_output;
#[cfg(test)]
mod steps;
#[cfg(test)]
mod words;
