//! Works that break a rule, or that have a remark.

use crate::chance::Chance;
use crate::digits::{five, iswc, nine, work_number};
use crate::form::{CRLF, Form, thin};
use crate::sheet::Work;
use crate::titles::{accented_title, quoted_title, title};
use cwr_field::Memory;
use std::alloc::Global;

/// A party that no other record has, with bytes that a text of JSON has to escape or to spell as other bytes.
const STRANGE_PARTY: [u8; 9] = [b'"', b'\\', b'9', 0xc3, 0x89, b'/', 0x7f, 0xff, b'9'];

/// An ISWC that is not valid, with such bytes.
const STRANGE_ISWC: [u8; 11] = [
    b'T', b'"', b'3', b'4', 0xc3, 0x89, b'\\', b'4', b'6', b'8', b'0',
];

/// The forms of the works, by number. 1 to 15 break the rule with this number, J1 to J15: J2 to J4 by what [`work`]
/// fills in, and the others by their records. 16 to 18 have a remark. In 19 the shares of many writers do not add up
/// (J11 to J13), and 0 has no fault.
pub(crate) fn forms(alloc: Global) -> Result<Vec<Form>, Memory> {
    let mut forms = Vec::new(alloc);
    for number in 0..20 {
        forms.push(form(alloc, number)?)?;
    }
    Ok(forms)
}

fn form(alloc: Global, number: u32) -> Result<Form, Memory> {
    match number {
        1 | 6 | 7 | 10 => in_records(alloc, number),
        5 => misdated(alloc),
        8 | 9 | 14 | 15 => behind_a_writer(alloc, number),
        11 => writers(alloc, 1, [9_993, 10_000, 10_000]),
        12 => writers(alloc, 1, [10_000, 9_993, 10_000]),
        13 => writers(alloc, 1, [10_000, 10_000, 9_900]),
        16 | 17 | 18 => remarked(alloc, number),
        19 => writers(alloc, 40, [249, 251, 300]),
        _ => thin(alloc, b"NWR", CRLF),
    }
}

/// A date and a duration that are not valid (J5).
fn misdated(alloc: Global) -> Result<Form, Memory> {
    let mut form = Form::dated(alloc, b"NWR", CRLF, b"20230229", b"006100")?;
    form.push_writer(1, 10_000)?;
    Ok(form)
}

/// Records out of order (J1), shares that are not valid (J6), no party (J7), no writer (J10).
fn in_records(alloc: Global, number: u32) -> Result<Form, Memory> {
    let mut form = Form::new(alloc, b"NWR", CRLF)?;
    match number {
        1 => {
            form.push_writer(1, 10_000)?;
            form.push(b"ALT", 83, &[(20, b"ANOTHER TITLE"), (80, b"AT")])?;
            form.push_other_writer(2, 0)?;
        }
        6 => form.push(
            b"SWR",
            150,
            &[
                (20, b"000000001"),
                (130, b"10001"),
                (138, b"1\"000"),
                (146, b"\xc3\x89000"),
            ],
        )?,
        7 => {
            form.push(b"SPU", 60, &[(31, b"MUSIC HOUSE")])?;
            form.push(b"SWR", 60, &[(29, b"DOE")])?;
        }
        _ => form.push(b"OPU", 60, &[(22, b"000000007"), (31, b"MUSIC HOUSE")])?,
    }
    Ok(form)
}

/// A territory of another party (J8), a publisher who is not there (J9), no territory (J14), too much of one (J15).
fn behind_a_writer(alloc: Global, number: u32) -> Result<Form, Memory> {
    let mut form = Form::new(alloc, b"NWR", CRLF)?;
    form.push_writer(1, 10_000)?;
    match number {
        8 => form.push_writer_territory(&STRANGE_PARTY, b"05000", b"I2136")?,
        9 => form.push(b"PWR", 110, &[(20, &STRANGE_PARTY), (29, b"MUSIC HOUSE")])?,
        14 => form.push_writer_territory(b"000000001", b"05000", b"X21\"6")?,
        _ => {
            form.push_writer_territory(b"000000001", b"05003", b"I0840")?;
            form.push_writer_territory(b"000000001", b"05004", b"I840 ")?;
        }
    }
    Ok(form)
}

/// A form with `count` writers with these shares each.
fn writers(alloc: Global, count: u32, shares: [u32; 3]) -> Result<Form, Memory> {
    let mut form = Form::new(alloc, b"NWR", CRLF)?;
    let [performing, mechanical, synchronisation] = shares;
    for writer in 0..count {
        let party = nine(writer);
        let performing = five(performing);
        let mechanical = five(mechanical);
        let synchronisation = five(synchronisation);
        form.push(
            b"OWR",
            150,
            &[
                (20, &party),
                (29, b"DOE"),
                (130, &performing),
                (138, &mechanical),
                (146, &synchronisation),
            ],
        )?;
    }
    Ok(form)
}

/// A record of no type of the standard, one that is longer than its layout, and one whose territories are all left out.
fn remarked(alloc: Global, number: u32) -> Result<Form, Memory> {
    let mut form = Form::new(alloc, b"NWR", CRLF)?;
    match number {
        16 => {
            form.push_writer(1, 10_000)?;
            form.push(b"SWX", 60, &[(29, b"DOE")])?;
        }
        17 => form.push(b"SWR", 153, &[(20, b"000000001"), (151, b"Y")])?,
        _ => {
            form.push(b"SWR", 150, &[(20, b"000000001")])?;
            form.push_writer_territory(b"000000001", b"05000", b"E2136")?;
            form.push_writer_territory(b"000000001", b"05000", b"E0840")?;
        }
    }
    Ok(form)
}

/// A title as it is, in quotes or accented.
fn any_title(chance: &mut Chance) -> [u8; 60] {
    match chance.below(4) {
        0 => quoted_title(chance),
        1 => accented_title(chance),
        _ => title(chance),
    }
}

/// The work with this number, to be filled into the form with number `form`: with a blank title (J2), a blank number
/// (J3), or an ISWC that is not valid (J4).
pub(crate) fn work(chance: &mut Chance, number: u32, form: u32) -> Work {
    let work = Work {
        title: any_title(chance),
        number: work_number(number),
        iswc: iswc(number),
    };
    match form {
        2 => Work {
            title: [b' '; 60],
            ..work
        },
        3 => Work {
            number: [b' '; 14],
            ..work
        },
        4 => Work {
            iswc: STRANGE_ISWC,
            ..work
        },
        _ => work,
    }
}
