//! What a seat knows. It stands in contracts alone.

use std::collections::LinkedList;
use ticket_core::ArrayPhase;
use work_registry::Entry;

/// What the opening seat learned of a seat that it met. Contracts speak of it, and no program makes one.
pub struct Met {
    /// The session of the seat.
    pub session: u32,
    /// The entries that its turns added, in order.
    pub list: LinkedList<Entry>,
    /// The history that it saw last.
    pub front: LinkedList<Entry>,
    /// Whether a call of one of its turns found the book full.
    pub marked: bool,
}

/// What a seat knows of its own session and of the book. Contracts speak of it, and no program makes one.
pub struct View {
    /// Its session. Session 0 is the opening.
    pub session: u32,
    /// Where it stands at the lock.
    pub phase: ArrayPhase,
    /// The number of turns that it has taken.
    pub turns: u64,
    /// The number of turns that the seats that it met have taken.
    pub met_turns: u64,
    /// The words that it has read in the flag of its ticket since it drew, in order: 1 is an open flag.
    pub looks: LinkedList<u64>,
    /// The entries that its ended turns added, in order. Of the opening seat, the history that the desk was opened
    /// with.
    pub list: LinkedList<Entry>,
    /// The history that it saw last.
    pub front: LinkedList<Entry>,
    /// Whether a call of one of its ended turns, or of one of a seat that it met, found the book full.
    pub marked: bool,
    /// The history that the desk was opened with.
    pub opened: LinkedList<Entry>,
    /// The history that it found, while it is inside.
    pub held: LinkedList<Entry>,
    /// The number of entries that the book can hold at most.
    pub limit: u32,
    /// The number of seats that it has given.
    pub given: u32,
    /// The number of seats that it can still give.
    pub left: u32,
    /// The seats that it met, in order.
    pub met: LinkedList<Met>,
    /// Whether another seat has met it.
    pub spent: bool,
}
