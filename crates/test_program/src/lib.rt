//! The program run over a runtime of the tests' own: its words, its files, what the system refuses, and the required
//! outcomes.
#![tactic(auto)]

mod calls;
mod fake;
mod fake_files;
mod fake_system;
mod meeting;
mod play;
mod runs;
mod step;
mod text;

pub use calls::{Calls, Disk};
pub use fake::{Fake, expect_program};
pub use fake_files::{FakeFile, KeptFile, Opened};
pub use meeting::Meeting;
pub use play::{Given, Kept, expect_play};
pub use runs::{expect, expect_held, keeping, run_with};
pub use step::Step;
pub use text::{Text, register};
