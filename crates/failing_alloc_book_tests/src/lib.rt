//! Tests with `failing_alloc` of the book of works, its register, and the page of its summary: each request for memory of
//! each of their calls is refused in turn.
#![tactic(auto)]

#[cfg(test)]
mod at_book;
#[cfg(test)]
mod calls;
#[cfg(test)]
mod registers;
#[cfg(test)]
mod summaries;
