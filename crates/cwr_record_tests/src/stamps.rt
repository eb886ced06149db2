//! Who acknowledges, and when.

use crate::lines::{clock, day, text};
use cwr_record::Stamp;
use std::test::Fail;
use test_comparisons::same;

#[test]
fn parts_of_a_stamp() -> Result<(), Fail> {
    let (date, time) = (day(b"20240601")?, clock(b"090000")?);
    let stamp = Stamp::new(0, b"CWR REGISTRY", date, time).ok_or("no stamp")?;
    same("the name", &stamp.name(), &text::<45>(b"CWR REGISTRY"))?;
    same(
        "the parts of the stamp",
        &(stamp.society(), stamp.date(), stamp.time()),
        &(0, date, time),
    )?;
    same(
        "the stamp",
        &Stamp::new(0, b"CWR REGISTRY", date, time),
        &Some(stamp),
    )
}

#[test]
fn society_and_name_of_a_stamp() -> Result<(), Fail> {
    let (date, time) = (day(b"20240601")?, clock(b"090000")?);
    let cases: [(u16, &[u8], bool); 6] = [
        (999, b"", true),
        (1000, b"", false),
        (0, &[b'A'; 45], true),
        (0, &[b'A'; 46], false),
        (0, b"A\x20", true),
        (0, b"A\x1f", false),
    ];
    for (society, name, is_stamp) in cases {
        same(
            "whether that is a stamp",
            &Stamp::new(society, name, date, time).is_some(),
            &is_stamp,
        )?;
    }
    Ok(())
}
