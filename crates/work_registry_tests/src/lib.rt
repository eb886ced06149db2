//! Tests of `work_registry`: calls that are handed in one after the other, what the book says of them, and its
//! register.
#![tactic(auto)]

#[cfg(test)]
mod books;
#[cfg(test)]
mod chunks;
#[cfg(test)]
mod conflicts;
#[cfg(test)]
mod damage;
#[cfg(test)]
mod limits;
#[cfg(test)]
mod many_calls;
#[cfg(test)]
mod plain;
#[cfg(test)]
mod register_chunks;
#[cfg(test)]
mod registers;
#[cfg(test)]
mod replies;
#[cfg(test)]
mod revisions;
#[cfg(test)]
mod ten_entries;
#[cfg(test)]
mod texts;
