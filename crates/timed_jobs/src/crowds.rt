//! Works of very many records.

use crate::chance::Chance;
use crate::digits::{five, iswc, nine, work_number};
use crate::form::{CRLF, Form, thin};
use crate::sheet::{Sheet, Work};
use crate::titles::title;
use cwr_field::Memory;
use std::alloc::Global;

/// A file of one work without a fault: `parties` publishers of different parties, a writer, a link to each publisher,
/// in another order, and territories of some codes.
pub(crate) fn crowd(alloc: Global, parties: u32, chance: &mut Chance) -> Result<Vec<u8>, Memory> {
    let mut form = Form::new(alloc, b"NWR", CRLF)?;
    push_publishers(&mut form, &shuffled(alloc, parties, chance)?)?;
    form.push_writer(999_999_999, 10_000)?;
    push_links(&mut form, &shuffled(alloc, parties, chance)?)?;
    push_territories(&mut form, &shuffled(alloc, parties, chance)?)?;
    file_of(alloc, &form, chance)
}

/// A publisher of each of these parties.
fn push_publishers(form: &mut Form, parties: &[u32]) -> Result<(), Memory> {
    for party in parties {
        form.push(
            b"SPU",
            55,
            &[(20, b"01"), (22, &nine(*party)), (31, b"MUSIC HOUSE")],
        )?;
    }
    Ok(())
}

/// A link to the publisher of each of these parties.
fn push_links(form: &mut Form, parties: &[u32]) -> Result<(), Memory> {
    for party in parties {
        form.push(b"PWR", 55, &[(20, &nine(*party)), (29, b"MUSIC HOUSE")])?;
    }
    Ok(())
}

/// A territory of the writer for each of these numbers.
fn push_territories(form: &mut Form, territories: &[u32]) -> Result<(), Memory> {
    for territory in territories {
        let code = five(*territory % 10_000);
        form.push(
            b"SWT",
            52,
            &[
                (20, b"999999999"),
                (29, b"000010000000001I"),
                (45, &code[1..5]),
                (50, b"001"),
            ],
        )?;
    }
    Ok(())
}

/// A file of one work of `records` records, each with a fault of its own: publishers and writers without a party.
pub(crate) fn crowd_without_parties(
    alloc: Global,
    records: u32,
    chance: &mut Chance,
) -> Result<Vec<u8>, Memory> {
    let mut form = Form::new(alloc, b"NWR", CRLF)?;
    for record in 0..records {
        if record < records / 2 {
            form.push(b"SPU", 60, &[(31, b"MUSIC HOUSE")])?;
        } else {
            form.push(b"SWR", 60, &[(29, b"DOE")])?;
        }
    }
    file_of(alloc, &form, chance)
}

/// A file of one work without a fault, of a writer and `titles` other titles.
pub(crate) fn crowd_of_titles(
    alloc: Global,
    titles: u32,
    chance: &mut Chance,
) -> Result<Vec<u8>, Memory> {
    let mut form = thin(alloc, b"NWR", CRLF)?;
    for _ in 0..titles {
        form.push(b"ALT", 40, &[(20, b"ANOTHER TITLE")])?;
    }
    file_of(alloc, &form, chance)
}

/// A file of one work of these records.
fn file_of(alloc: Global, form: &Form, chance: &mut Chance) -> Result<Vec<u8>, Memory> {
    let mut sheet = Sheet::begin(alloc, 9, b"NWR", CRLF)?;
    let number = chance.below(99_999_999);
    let work = Work {
        title: title(chance),
        number: work_number(number),
        iswc: iswc(number),
    };
    let _ = sheet.push(form, &work)?;
    sheet.end()
}

/// The numbers below a bound, each once, in some order.
fn shuffled(alloc: Global, bound: u32, chance: &mut Chance) -> Result<Vec<u32>, Memory> {
    let mut numbers = Vec::new(alloc);
    for number in 0..bound {
        numbers.push(number)?;
    }
    for place in 0..numbers.len() {
        let other = chance.below(bound) as usize;
        if other < numbers.len() {
            numbers.swap(place, other);
        }
    }
    Ok(numbers)
}
