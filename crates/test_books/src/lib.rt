//! Calls to a book of works, the replies to them, and what the book must hold after them: for tests.
#![tactic(auto)]

mod books;

pub use books::{CALLS, book_of, call, gives_back, holds, reply_to};
