//! The rules by which a transaction of a CWR 2.2 submission is judged.
//!
//! [`judge`] reads a transaction's lines and returns its [`Call`]. That is who submits which work under which number,
//! with how large a control of each right, and every fault by the rules J1 to J15, in rising order. A
//! [`TransactionJudge`] returns the same for lines that come one by one.
//!
//! For whoever corrects the file, [`TransactionJudge::added`] reports what the shares add up to, and
//! [`is_copyright_date`] and [`is_duration`] which of the two is wrong. [`laws`] says what the definitions mean.
#![tactic(auto)]

mod added;
mod collected;
mod finding;
mod header;
mod judging;
mod last_block;
pub mod laws;
mod one_record;
mod parties;
mod position;
mod reading;
mod record;
mod record_faults;
mod standing;
mod summary;
mod sums;
mod totals;
mod transaction_faults;
mod transaction_judge;
mod transaction_state;
mod whole_record;

pub use added::{AddedShares, Over};
pub use cwr_call::{Call, Fault, Faults};
pub use cwr_field::Memory;
pub use cwr_grammar::RawTransaction;
pub use cwr_record::{RecordType, WorkKind};
pub use header::{is_copyright_date, is_duration};
pub use judging::{judge, judged};
pub use totals::Totals;
pub use transaction_judge::TransactionJudge;
