ghost use Rattle.std.specs.Prelude.{◌≡◌};
ghost use Rattle.work_registry.specs.ReplyParts.{status_in, work_in, version_in};

use cwr_record::Status;

/// What the registry decided on a call.
///
/// Works are numbered 1, 2, and so on as they are first accepted. Each work and each version in a reply of a book is
/// from 1 to 99,999,999.
#[derive(Clone, Copy, Debug, PartialEq, Eq, Hash)]
pub enum Reply {
    /// The claim is registered: Transaction Status AS.
    Accepted {
        /// The registry's number of the work.
        work: u32,
        /// How often the submitter's number of the work has been accepted.
        version: u32,
    },
    /// The submitter had registered the work before: DU.
    Duplicate {
        /// The registry's number of the work.
        work: u32,
    },
    /// The claim is in conflict with others: CO.
    Conflict {
        /// The registry's number of the work; of a new one, the number that it would have had.
        work: u32,
    },
    /// The call has faults: RJ.
    Rejected,
}

impl Reply {
    /// Its Transaction Status.
    pub fn status(self) -> Status
        ensures { result ≡ status_in self }
    {
        match self {
            Reply::Accepted {
                work: _,
                version: _,
            } => Status::Accepted,
            Reply::Duplicate { work: _ } => Status::Duplicate,
            Reply::Conflict { work: _ } => Status::Conflict,
            Reply::Rejected => Status::Rejected,
        }
    }

    /// The registry's number of the work that it names; `None` for a rejection.
    pub fn work(self) -> Option<u32>
        ensures { result ≡ work_in self }
    {
        match self {
            Reply::Accepted { work, version: _ }
            | Reply::Duplicate { work }
            | Reply::Conflict { work } => Some(work),
            Reply::Rejected => None,
        }
    }

    /// The version of an accepted claim; `None` for any other reply.
    pub fn version(self) -> Option<u32>
        ensures { result ≡ version_in self }
    {
        match self {
            Reply::Accepted { work: _, version } => Some(version),
            Reply::Duplicate { work: _ } | Reply::Conflict { work: _ } | Reply::Rejected => None,
        }
    }
}
