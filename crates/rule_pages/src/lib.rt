//! A page on each rule of the profile and on each answer of an acknowledgement. The page of a rule says what it
//! requires, gives an example that breaks it, and says how to fix that. The page of an answer says what it means, what
//! it is given for, and what a publisher does then.
#![tactic(auto)]

mod answers;
mod page;
mod pages;
mod rule;
mod texts;
mod words;
mod writing;

pub use cwr_field::Memory;
pub use cwr_record::Status;
pub use page::{Page, every_page, page_name, page_named};
pub use pages::pages_text;
pub use rule::{Rule, every_rule, name_of, rule_named};
pub use texts::{fix, requirement, title, violation};
pub use writing::texts_of_pages;
