//! What the pages say on the answers of an acknowledgement.

ghost use Rattle.std.specs.Prelude.{◌≡◌};
ghost use Rattle.rule_pages.specs.Answers.{answer_title, meaning_of, given_for, done_then};

use cwr_record::Status;

/// What an answer is called.
pub(crate) fn answer_title(status: Status) -> &'static [u8]
    ensures { result.now ≡ answer_title status }
{
    match status {
        Status::Accepted => b"accepted",
        Status::Duplicate => b"duplicate",
        Status::Conflict => b"conflict",
        Status::Rejected => b"rejected",
    }
}

/// What an answer means.
pub(crate) fn meaning_of(status: Status) -> &'static [u8]
    ensures { result.now ≡ meaning_of status }
{
    match status {
        Status::Accepted =>
            b"the claim is registered, as the current one under its submitter and submitter work number",
        Status::Duplicate => b"nothing is changed: what was registered before stands",
        Status::Conflict =>
            b"nothing is registered: claims on a work meet that cannot stand beside one another, and the registry does not choose",
        Status::Rejected => b"nothing is registered: the transaction breaks rules",
    }
}

/// What an answer is given for.
pub(crate) fn given_for(status: Status) -> &'static [u8]
    ensures { result.now ≡ given_for status }
{
    match status {
        Status::Accepted =>
            b"a transaction that breaks no rule, is no duplicate, and meets no claim that it cannot stand beside",
        Status::Duplicate =>
            b"an NWR under a submitter work number that this submitter has registered already",
        Status::Conflict =>
            b"shares that come to more than 100.06 per cent in a right, with those of the other claims on the work; or an ISWC that is another than the work's, or that of another work",
        Status::Rejected =>
            b"faults of J1 to J15, for each of which an MSG record stands behind the ACK record",
    }
}

/// What a publisher does after an answer.
pub(crate) fn done_then(status: Status) -> &'static [u8]
    ensures { result.now ≡ done_then status }
{
    match status {
        Status::Accepted =>
            b"keep the work number of the ACK record; to change the claim, send REV under the same submitter work number",
        Status::Duplicate =>
            b"nothing, where it was sent twice; to change the claim, send REV; a work of its own needs a submitter work number of its own",
        Status::Conflict =>
            b"ask the society which claims meet, by the work number of the ACK record (purvilgo history --work N REGISTER prints it); settle it with the other submitter, and send it again",
        Status::Rejected =>
            b"see what the rules of the MSG records require (purvilgo explain 011) and what stands in the file (purvilgo check --long FILE); correct it, and send it again",
    }
}
