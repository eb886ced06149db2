//! What a reply says.

use crate::books::accepted;
use std::test::Fail;
use test_comparisons::same;
use work_registry::Reply;

/// The Transaction Status of a reply, the work that it names, and the version of an accepted claim.
fn expect_told(
    reply: Reply,
    code: &str,
    work: Option<u32>,
    version: Option<u32>,
) -> Result<(), Fail> {
    let status = reply.status();
    same("a status", &status.code().as_slice(), &code.as_bytes())?;
    same(code, &reply.work(), &work)?;
    same(code, &reply.version(), &version)
}

#[test]
fn what_replies_tell() -> Result<(), Fail> {
    expect_told(accepted(5, 2), "AS", Some(5), Some(2))?;
    expect_told(Reply::Duplicate { work: 6 }, "DU", Some(6), None)?;
    expect_told(Reply::Conflict { work: 7 }, "CO", Some(7), None)?;
    expect_told(Reply::Rejected, "RJ", None, None)
}
