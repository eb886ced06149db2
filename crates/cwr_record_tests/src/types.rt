//! The types of lines.

use cwr_record::{Ack, RecordType, WorkKind, type_of};
use std::test::Fail;
use test_comparisons::same;

#[test]
fn types() -> Result<(), Fail> {
    let cases: [(&[u8], RecordType); 27] = [
        (b"HDR", RecordType::Hdr),
        (b"GRH", RecordType::Grh),
        (b"GRT", RecordType::Grt),
        (b"TRL", RecordType::Trl),
        (b"NWR", RecordType::Nwr),
        (b"REV", RecordType::Rev),
        (b"ACK", RecordType::Ack),
        (b"SPU", RecordType::Spu),
        (b"SPT", RecordType::Spt),
        (b"OPU", RecordType::Opu),
        (b"SWR", RecordType::Swr),
        (b"SWT", RecordType::Swt),
        (b"PWR", RecordType::Pwr),
        (b"OWR", RecordType::Owr),
        (b"ALT", RecordType::Alt),
        (b"XRF0000000000000008", RecordType::Xrf),
        (b"AGR", RecordType::Other),
        (b"ISW", RecordType::Other),
        (b"EXC", RecordType::Other),
        (b"MSG", RecordType::Carried),
        (b"NPN", RecordType::Carried),
        (b"ZZZ", RecordType::Carried),
        (b"swr", RecordType::Bad),
        (b"SW1", RecordType::Bad),
        (b" SWR", RecordType::Bad),
        (b"SW", RecordType::Bad),
        (b"", RecordType::Bad),
    ];
    for (line, wanted) in &cases {
        same("the type", &type_of(line), wanted)?;
    }
    Ok(())
}

#[test]
fn kinds_have_their_record_types() -> Result<(), Fail> {
    same("the code", WorkKind::Nwr.code(), b"NWR")?;
    same("the code", WorkKind::Rev.code(), b"REV")
}
