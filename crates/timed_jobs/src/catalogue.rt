//! Files of many works.

use crate::chance::Chance;
use crate::digits::{iswc, work_number};
use crate::form::{CRLF, Form, LineEnd, many_mixed, part, thin};
use crate::sheet::{Sheet, Work};
use crate::titles::title;
use cwr_field::Memory;
use std::alloc::Global;

const NO_ISWC: [u8; 11] = [b' '; 11];

/// What a file is like.
#[derive(Clone, Copy)]
pub(crate) enum Style {
    /// Works of two records.
    Thin,
    /// Works of 3 to 20 records.
    Mixed,
    /// Works of which the submitter has a part, so that other submitters claim them too.
    Shared,
}

/// A file to be made.
#[derive(Clone, Copy)]
pub(crate) struct Order {
    pub(crate) style: Style,
    pub(crate) kind: &'static [u8],
    pub(crate) line_end: LineEnd,
    pub(crate) submitter: u32,
    /// The number of its first work: a work's submitter work number and its ISWC follow from its number.
    pub(crate) first: u32,
    pub(crate) works: u32,
}

/// The forms of the works of a file.
fn forms_of(alloc: Global, order: &Order) -> Result<Vec<Form>, Memory> {
    let Order { kind, line_end, .. } = *order;
    match order.style {
        Style::Thin => Ok(vec![in alloc; thin(alloc, kind, line_end)?]?),
        Style::Mixed => many_mixed(alloc, kind, line_end),
        Style::Shared => {
            let small = part(alloc, kind, line_end, 1_000)?;
            let large = part(alloc, kind, line_end, 4_000)?;
            Ok(vec![in alloc; small, large]?)
        }
    }
}

/// The work with this number. One in sixteen has no ISWC.
fn work_of(chance: &mut Chance, number: u32) -> Work {
    Work {
        title: title(chance),
        number: work_number(number),
        iswc: if chance.is_one_in(16) {
            NO_ISWC
        } else {
            iswc(number)
        },
    }
}

/// The work, or in one case of sixty the work without its title, so that it is rejected.
fn spoiled(chance: &mut Chance, work: Work) -> Work {
    if chance.is_one_in(60) {
        Work {
            title: [b' '; 60],
            ..work
        }
    } else {
        work
    }
}

/// The number of the next work: one in twenty repeats that of the one before.
fn next_number(chance: &mut Chance, number: u32) -> u32 {
    if chance.is_one_in(20) {
        number
    } else {
        number.saturating_add(1)
    }
}

/// A file as it is ordered, and where the header of each of its works begins.
pub(crate) fn file_with_places(
    alloc: Global,
    chance: &mut Chance,
    order: &Order,
) -> Result<(Vec<u8>, Vec<usize>), Memory> {
    let forms = forms_of(alloc, order)?;
    let mut sheet = Sheet::begin(alloc, order.submitter, order.kind, order.line_end)?;
    let mut places = Vec::new(alloc);
    let mut number = order.first;
    for _ in 0..order.works {
        let work = work_of(chance, number);
        let work = spoiled(chance, work);
        let form = chance.below(forms.len().min(64) as u32) as usize;
        if let Some(form) = forms.get(form) {
            places.push(sheet.push(form, &work)?)?;
        }
        number = next_number(chance, number);
    }
    Ok((sheet.end()?, places))
}

/// A file as it is ordered.
pub(crate) fn file(alloc: Global, chance: &mut Chance, order: &Order) -> Result<Vec<u8>, Memory> {
    let (text, _) = file_with_places(alloc, chance, order)?;
    Ok(text)
}

/// An order for a file of new works.
pub(crate) fn new_works(style: Style, submitter: u32, first: u32, works: u32) -> Order {
    Order {
        style,
        kind: b"NWR",
        line_end: CRLF,
        submitter,
        first,
        works,
    }
}
