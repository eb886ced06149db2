//! Where the lock stands in the desk's words.

ghost use Rattle.std.specs.Prelude.{◌≡◌, ◌+◌, ◌%◌, ◌<◌};

/// The word of the ticket that is drawn next.
pub(crate) const NEXT: usize = 0;

/// The number of flags, which is the greatest number of seats of a desk.
pub(crate) const FLAGS: usize = 64;

/// The word of a flag that is open.
pub(crate) const OPEN: u64 = 1;

/// The word of a flag that is closed.
pub(crate) const CLOSED: u64 = 0;

/// The slot of the book.
pub(crate) const BOOK: usize = 0;

/// The place of a ticket among the flags.
pub(crate) fn place_of(ticket: u64) -> usize
    ensures { result ≡ ticket % 64 }
{
    (ticket % FLAGS as u64) as usize
}

/// The place of the ticket after this one.
pub(crate) fn place_after(ticket: u64) -> usize
    ensures { result ≡ (ticket + 1) % 64 }
{
    (place_of(ticket) + 1) % FLAGS
}

/// The word of the flag at a place: it stands behind that of the next ticket.
pub(crate) fn flag_word(place: usize) -> usize
    requires { place < 64 }
    ensures { result ≡ place + 1 }
{
    place + 1
}
