//! The laws of the grammar and of the acknowledgement.

pub use cwr_acknowledgement::laws::one_text_one_list_of_items;
pub use cwr_grammar::laws::{first_fault_is_least, one_fault_or_one_reading};
