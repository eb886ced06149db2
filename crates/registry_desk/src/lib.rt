//! The registry's desk: one book of works that many threads write, one after the other.
//!
//! A [`Desk`] keeps a [`Book`] under the array-based queueing lock of Anderson (1990), and a [`Seat`] is what a thread
//! comes to it with. A seat draws a ticket, and looks at the flag of that ticket until it is open. It is then
//! [`Inside`] with the book, hands a call in, and leaves.
//!
//! Between any two atomic steps the lock state that the desk shows is lawful, so at most one seat is inside. A seat
//! that is inside finds a history of one registry. The history begins with all that the seat saw before, and its
//! entries of the seat's session are just the seat's own. Once all seats are met and the desk is closed, the history is
//! one that a single thread could have made.
//!
//! Contracts see of a seat which desk it is of, and its [`View`].
#![tactic(auto)]

mod desk;
mod door;
mod held;
pub mod laws;
mod rule;
mod seat;
mod turn;
mod view;
mod words;

pub use desk::{Desk, OpenRefused};
pub use rule::DeskRule;
pub use seat::{Inside, Looked, Seat, Waiting};
pub use view::{Met, View};
pub use work_registry::{Book, Call, Entry, HandInError, Refused, Reply};
