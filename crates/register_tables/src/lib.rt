//! The register as tables in CSV, for spreadsheets and scripts: the current claims, the works, and every entry; a
//! summary of it, as a page or number by number; and its entries, the summary and what an audit found as JSON.
#![tactic(auto)]

mod audit_object;
mod claims;
mod conflicts;
mod form;
mod history;
mod history_objects;
mod json_values;
mod ranking;
mod rows;
mod shares;
mod submitters;
mod summary;
mod summary_object;
mod tally;
mod texts;
mod wanted;
mod works;

pub use audit_object::{Audited, audit_json};
pub use claims::{claims_table, claims_text};
pub use conflicts::{Conflicted, largest};
pub use form::Form;
pub use history::{history_table, history_text};
pub use history_objects::history_json;
pub use rows::{TableError, WrittenTable};
pub use shares::{Bands, bands_of};
pub use submitters::{SubmitterEntries, most_entries};
pub use summary::summary_text;
pub use summary_object::summary_json;
pub use tally::{Tally, submitter_count, tally_of};
pub use wanted::Wanted;
pub use works::{last_work, works_table, works_text};
