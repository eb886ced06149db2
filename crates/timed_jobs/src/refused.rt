//! Files that are not well-formed.

use crate::chance::Chance;
use crate::digits::put;
use crate::faulty::{forms, work};
use crate::form::{CRLF, Form, thin};
use crate::sheet::Sheet;
use cwr_field::Memory;
use std::alloc::Global;

/// Where GRH begins, behind HDR and its line end.
const GROUP: usize = 88;

/// The number of bytes of GRT and of TRL, each with its line end.
const TRAILER: usize = 26;

/// A file of `works` works, most of them with a fault or a remark. Its first fault is the one with number `fault`, F1
/// to F12: near its end, if the rule allows that. With another number it has none.
pub(crate) fn refused_file(
    alloc: Global,
    works: u32,
    fault: u32,
    chance: &mut Chance,
) -> Result<Vec<u8>, Memory> {
    let forms = forms(alloc)?;
    let mut sheet = Sheet::begin(alloc, 5, b"NWR", CRLF)?;
    let mut at = 0;
    for number in 0..works {
        let form = chance.below(20);
        let work = work(chance, number, form);
        if let Some(form) = forms.get(form as usize) {
            at = sheet.push(form, &work)?;
        }
    }
    if fault == 12 {
        at = sheet.push(&too_wide(alloc)?, &work(chance, works, 0))?;
    }
    let mut text = sheet.end()?;
    damage(&mut text, at, fault)?;
    Ok(text)
}

/// A work with a line that is longer than a line may be (F12).
fn too_wide(alloc: Global) -> Result<Form, Memory> {
    let mut form = thin(alloc, b"NWR", CRLF)?;
    form.push(b"ALT", 4_097, &[(20, b"ANOTHER TITLE")])?;
    Ok(form)
}

/// Damages a file; one of its works begins at the header.
fn damage(text: &mut Vec<u8>, header: usize, fault: u32) -> Result<(), Memory> {
    let trailer = text.len().saturating_sub(TRAILER);
    let group_trailer = trailer.saturating_sub(TRAILER);
    let whole = text.as_mut_slice();
    match fault {
        1 => put(whole, 0, b"XDR"),
        2 => put(whole, header.saturating_add(25), b"\t"),
        3 => put(whole, header, b"nwr"),
        4 => put(whole, header, b"GRH"),
        5 => put(whole, GROUP, b"GRHAGR"),
        6 => put(whole, header, b"REV"),
        7 => put(whole, group_trailer, b"GRT00002"),
        8 => put(whole, header.saturating_add(11), b"00000007"),
        9 => put(whole, group_trailer.saturating_add(8), b"99999999"),
        10 => put(whole, trailer.saturating_add(8), b"99999999"),
        11 => text.extend_from_slice(b"X\r\n")?,
        _ => {}
    }
    Ok(())
}
