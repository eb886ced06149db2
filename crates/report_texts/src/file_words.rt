ghost use Rattle.std.specs.Prelude.{◌≡◌};
ghost use Rattle.report_texts.specs.FileText.{file_rule_text, kind_text};

use cwr_record::WorkKind;

/// What a fault of the rule of files with this number is called, F1 to F12; of another number, as of 12.
pub fn file_rule_text(number: u8) -> &'static [u8]
    ensures { result.now ≡ file_rule_text number }
{
    match number {
        1 => b"the file does not begin with HDR",
        2 => b"a control character in a line",
        3 => b"no record type, or a wrong date or time in HDR",
        4 => b"a record in the wrong place",
        5 => b"a group that is not of NWR or REV",
        6 => b"a header of another type than its group",
        7 => b"group IDs do not run 00001, 00002, ..",
        8 => b"transaction or record sequences do not run",
        9 => b"the counts of GRT are not those of the group",
        10 => b"the counts of TRL are not those of the file",
        11 => b"no TRL at the end, or something after it",
        _ => b"a line of more than 4,096 bytes",
    }
}

/// The record type of a registration, or both.
pub(crate) fn kind_text(kind: Option<WorkKind>) -> &'static [u8]
    ensures { result.now ≡ kind_text kind }
{
    match kind {
        None => b"NWR or REV",
        Some(kind) => kind.code(),
    }
}
