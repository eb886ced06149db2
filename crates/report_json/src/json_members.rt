ghost use Rattle.std.specs.Prelude.{◌≡◌, ◌++◌, [], true, OnOk};
ghost use Rattle.serde_json.specs.Data.{no_members};
ghost use Rattle.report_json.specs.JsonText.{member_text, left_text, own_name};

use crate::json_strings::put_name;
use crate::json_values::put_comma;
use cwr_field::Memory;

/// A member of an object, with its value as a text of JSON.
#[derive(Clone, Copy)]
pub(crate) struct Member<'a> {
    pub(crate) name: &'a str,
    pub(crate) text: &'a [u8],
}

/// The members of a report, in the order of their names.
#[derive(Clone, Copy)]
pub(crate) enum ReportMember<'a> {
    /// The faults.
    Faults,
    /// The number of transactions with faults.
    Faulty,
    /// The name of the file.
    File(&'a str),
    /// The file is refused.
    Refused,
    /// The number of transactions.
    Transactions,
}

impl ReportMember<'_> {
    pub(crate) fn name(self) -> &'static str
        ensures { result.now ≡ own_name self.entry }
    {
        match self {
            ReportMember::Faults => "faults",
            ReportMember::Faulty => "faulty",
            ReportMember::File(_) => "file",
            ReportMember::Refused => "refused",
            ReportMember::Transactions => "transactions",
        }
    }
}

/// Appends the name of a member, with a comma before it if it is a later one.
pub(crate) fn put_member_name(out: &mut Vec<u8>, later: bool, name: &str) -> Result<(), Memory>
    ensures { OnOk result (out.new.items ≡ out.old.items ++ member_text later name.now []) }
{
    put_comma(out, later)?;
    put_name(out, name)?;
    Ok(())
}

/// Appends a member, with a comma before it if it is a later one.
pub(crate) fn put_member(
    out: &mut Vec<u8>,
    later: bool,
    name: &str,
    text: &[u8],
) -> Result<(), Memory>
    ensures { OnOk result (out.new.items ≡ out.old.items ++ member_text later name.now text.now) }
{
    put_member_name(out, later, name)?;
    out.extend_from_slice(text)?;
    Ok(())
}

/// Appends the member that is left, if there is one, and ends the object.
pub(crate) fn put_last(out: &mut Vec<u8>, more: Option<Member>) -> Result<(), Memory>
    ensures { OnOk result (out.new.items ≡ out.old.items ++ left_text true more.entry no_members) }
{
    if let Some(member) = more {
        put_member(out, true, member.name, member.text)?;
    }
    out.push(b'}')?;
    Ok(())
}
