ghost use Rattle.std.specs.Prelude.{◌≡◌};
ghost use Rattle.cwr_record.specs.Kinds.{status_text, status_named};

/// What the registry decided on a transaction: its Transaction Status.
#[derive(Clone, Copy, Debug, PartialEq, Eq, Hash)]
pub enum Status {
    /// AS: the claim is registered.
    Accepted,
    /// DU: the submitter had registered the work before.
    Duplicate,
    /// CO: the claim is in conflict with others.
    Conflict,
    /// RJ: the transaction has faults.
    Rejected,
}

impl Status {
    /// The status that two letters name.
    pub fn named(code: &[u8; 2]) -> Option<Status>
        ensures { result ≡ status_named code.now }
    {
        if *code == *b"AS" {
            Some(Status::Accepted)
        } else if *code == *b"DU" {
            Some(Status::Duplicate)
        } else if *code == *b"CO" {
            Some(Status::Conflict)
        } else if *code == *b"RJ" {
            Some(Status::Rejected)
        } else {
            None
        }
    }

    /// Its two letters, the status of an ACK record: `AS`, `DU`, `CO` or `RJ`.
    pub fn code(self) -> &'static [u8; 2]
        ensures { result.now ≡ status_text self }
    {
        match self {
            Status::Accepted => b"AS",
            Status::Duplicate => b"DU",
            Status::Conflict => b"CO",
            Status::Rejected => b"RJ",
        }
    }
}
