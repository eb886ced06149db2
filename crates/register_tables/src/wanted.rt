ghost use Rattle.std.specs.Prelude.{◌≡◌, None};
ghost use Rattle.register_tables.specs.Wanted.{fits_number, fits_text, fits_status, is_wanted};

use cwr_record::Status;
use std::alloc::Allocator;
use work_registry::Entry;

/// Which entries a table is of: those that match each field that is given.
#[derive(Clone, Copy, Debug, PartialEq, Eq)]
pub struct Wanted {
    /// The registry's number of the work that the reply names.
    pub work: Option<u32>,
    /// Sender type and sender id of the file's HDR.
    pub submitter: Option<[u8; 11]>,
    /// The submitter work number of NWR or REV.
    pub number: Option<[u8; 14]>,
    /// The Transaction Status of the reply.
    pub status: Option<Status>,
}

impl Wanted {
    /// Every entry.
    pub const fn all() -> Wanted
        ensures { result ≡ record { work = None; submitter = None; number = None; status = None } }
    {
        Wanted {
            work: None,
            submitter: None,
            number: None,
            status: None,
        }
    }
}

/// Whether an entry matches each field that is given.
pub(crate) fn is_wanted<A: Allocator>(wanted: &Wanted, entry: &Entry<A>) -> bool
    ensures { result ≡ is_wanted wanted.now entry.now }
{
    fits_number(wanted.work, entry.reply().work())
        && fits_submitter(wanted.submitter, entry.call().submitter())
        && fits_own_number(wanted.number, entry.call().number())
        && fits_status(wanted.status, entry.reply().status())
}

/// Whether no number is asked for, or this one.
pub(crate) fn fits_number(wanted: Option<u32>, given: Option<u32>) -> bool
    ensures { result ≡ fits_number wanted given }
{
    match (wanted, given) {
        (None, _) => true,
        (Some(_), None) => false,
        (Some(number), Some(given)) => given == number,
    }
}

fn fits_submitter(wanted: Option<[u8; 11]>, given: [u8; 11]) -> bool
    ensures { result ≡ fits_text wanted given }
{
    match wanted {
        None => true,
        Some(text) => given == text,
    }
}

fn fits_own_number(wanted: Option<[u8; 14]>, given: [u8; 14]) -> bool
    ensures { result ≡ fits_text wanted given }
{
    match wanted {
        None => true,
        Some(text) => given == text,
    }
}

pub(crate) fn fits_status(wanted: Option<Status>, given: Status) -> bool
    ensures { result ≡ fits_status wanted given }
{
    match wanted {
        None => true,
        Some(status) => given.code() == status.code(),
    }
}
