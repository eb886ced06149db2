//! Files of the profile and the acknowledgements that answer them, line by line, for tests of the crates that read the
//! one and write the other.
#![tactic(auto)]

mod answers;
mod fields;
mod files;
mod large_files;

pub use answers::{Answer, FaultMessage, acknowledgement, decision, one_answer};
pub use files::{
    ALL, OTHER_SENDER, SENDER, file, file_of_lines, header, miscounted, one_work, one_writer,
    plain_file, rival_claims, stamp, three_works, with_newlines, work, work_twice, writer,
};
pub use large_files::{
    crowded_faults, crowded_work, many_answers, many_checked, many_entries, many_groups, many_works,
};
