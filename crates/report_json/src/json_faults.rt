ghost use Rattle.std.specs.Prelude.{◌≡◌, ◌++◌, ℕ, OnOk};
ghost use Rattle.serde_json.specs.Written.{compact_text};
ghost use Rattle.report_json.specs.Json.{type_data, place_members, fault_object, file_place, file_fault_object};
ghost use Rattle.report_json.specs.JsonText.{wrong_text, byte_text, where_text, tail_text};

use crate::json_strings::put_json_text;
use crate::json_values::{put_fields, put_option, put_rule, put_type};
use cwr_field::{Memory, put_decimal};
use cwr_report::{FileFinding, Finding, RecordPlace, WrongByte};
use report_texts::{file_rule_text, message_of, put_file_wanted, put_text, put_wanted};

/// Appends a fault of a transaction. `line` is the faulty line, and `buffer` a scratch buffer for texts.
pub(crate) fn put_finding(
    out: &mut Vec<u8>,
    buffer: &mut Vec<u8>,
    line: &[u8],
    finding: &Finding,
) -> Result<(), Memory>
    ensures { OnOk result (out.new.items ≡ out.old.items ++ compact_text (fault_object line.now finding.now)) }
{
    out.extend_from_slice(b"{\"byte\":null,\"expected\":")?;
    buffer.clear();
    put_wanted(buffer, finding.fault.number, &finding.expected, false)?;
    put_json_text(out, buffer)?;
    out.extend_from_slice(b",\"fields\":")?;
    put_fields(out, line, &finding.fields)?;
    put_where(
        out,
        Some(finding.group as u64),
        finding.line,
        Some(finding.fault.rtype),
    )?;
    put_rule(out, buffer, b"J", finding.fault.number)?;
    put_tail(
        out,
        Some(finding.fault.sequence as u64),
        message_of(finding.fault.number),
        Some(finding.transaction as u64),
    )?;
    Ok(())
}

/// Appends the group, the line and the record type of a fault.
fn put_where(
    out: &mut Vec<u8>,
    group: Option<u64>,
    line: u64,
    rtype: Option<[u8; 3]>,
) -> Result<(), Memory>
    ensures { OnOk result (out.new.items ≡ out.old.items ++ where_text group line rtype) }
{
    out.extend_from_slice(b",\"group\":")?;
    put_option(out, group)?;
    out.extend_from_slice(b",\"line\":")?;
    put_decimal(out, line)?;
    out.extend_from_slice(b",\"record\":")?;
    put_type(out, rtype)?;
    Ok(())
}

/// Appends the rule's text, between the sequences of the record and of the transaction, and ends the object.
fn put_tail(
    out: &mut Vec<u8>,
    detail: Option<u64>,
    text: &[u8],
    transaction: Option<u64>,
) -> Result<(), Memory>
    ensures { OnOk result (out.new.items ≡ out.old.items ++ tail_text detail text.now transaction) }
{
    out.extend_from_slice(b",\"sequence\":")?;
    put_option(out, detail)?;
    out.extend_from_slice(b",\"text\":")?;
    put_json_text(out, text)?;
    out.extend_from_slice(b",\"transaction\":")?;
    put_option(out, transaction)?;
    out.extend_from_slice(b"}")?;
    Ok(())
}

/// Appends the fault of a file. `line` is the faulty line, and `buffer` a scratch buffer for texts.
pub(crate) fn put_file_finding(
    out: &mut Vec<u8>,
    buffer: &mut Vec<u8>,
    line: &[u8],
    refused: &FileFinding,
) -> Result<(), Memory>
    ensures { OnOk result (out.new.items ≡ out.old.items ++ compact_text (file_fault_object line.now refused.now)) }
{
    let place = PlaceMembers::of(refused.rtype, &refused.place);
    out.extend_from_slice(b"{\"byte\":")?;
    put_byte(out, &refused.byte)?;
    out.extend_from_slice(b",\"expected\":")?;
    buffer.clear();
    put_file_wanted(buffer, &refused.expected)?;
    put_json_text(out, buffer)?;
    out.extend_from_slice(b",\"fields\":")?;
    put_fields(out, line, &refused.fields)?;
    put_where(out, place.group, refused.line, place.rtype)?;
    put_rule(out, buffer, b"F", refused.number)?;
    put_tail(
        out,
        place.detail,
        file_rule_text(refused.number),
        place.transaction,
    )?;
    Ok(())
}

/// Appends the byte that is wrong, or null.
fn put_byte(out: &mut Vec<u8>, wrong: &Option<WrongByte>) -> Result<(), Memory>
    ensures { OnOk result (out.new.items ≡ out.old.items ++ byte_text wrong.now) }
{
    match wrong {
        None => put_text(out, b"null"),
        Some(wrong) => put_wrong(out, wrong),
    }
}

fn put_wrong(out: &mut Vec<u8>, wrong: &WrongByte) -> Result<(), Memory>
    ensures { OnOk result (out.new.items ≡ out.old.items ++ wrong_text wrong.now) }
{
    out.extend_from_slice(b"{\"byte\":")?;
    put_decimal(out, wrong.byte as u64)?;
    out.extend_from_slice(b",\"in_file\":")?;
    put_decimal(out, wrong.in_file as u64)?;
    out.extend_from_slice(b",\"in_line\":")?;
    put_decimal(out, wrong.in_line as u64)?;
    out.extend_from_slice(b"}")?;
    Ok(())
}

/// The members that say in which record the fault of a file is, as far as there is one.
#[derive(Clone, Copy)]
struct PlaceMembers {
    rtype: Option<[u8; 3]>,
    group: Option<u64>,
    transaction: Option<u64>,
    detail: Option<u64>,
}

impl PlaceMembers {
    /// Of a record of this type.
    fn of(rtype: [u8; 3], place: &RecordPlace) -> PlaceMembers
        ensures { (line : ℕ) → file_place line rtype place.now ≡ place_members line (type_data result.rtype) result.group result.transaction result.detail }
    {
        let nowhere = PlaceMembers {
            rtype: None,
            group: None,
            transaction: None,
            detail: None,
        };
        let of_file = PlaceMembers {
            rtype: Some(rtype),
            ..nowhere
        };
        match *place {
            RecordPlace::End | RecordPlace::AfterTrailer | RecordPlace::Nameless => nowhere,
            RecordPlace::File => of_file,
            RecordPlace::Group(group) => PlaceMembers {
                group: Some(group),
                ..of_file
            },
            RecordPlace::Transaction {
                group,
                transaction,
                detail,
            } => PlaceMembers {
                rtype: Some(rtype),
                group: Some(group),
                transaction: Some(transaction),
                detail: Some(detail),
            },
        }
    }
}
