//! Reports on files, for a person and for a program.

use crate::catalogue::{Style, file_with_places, new_works};
use crate::chance::Chance;
use crate::checks::change;
use crate::crowds::crowd_without_parties;
use crate::digest::Digest;
use cwr_check::Checked;
use cwr_field::Memory;
use cwr_remarks::{remarked_json, remarked_long};
use std::alloc::Global;

/// Reports on catalogues with few faults, and on works of which each record has one.
pub(crate) fn reports(alloc: Global, size: u32, chance: &mut Chance) -> Result<Digest, Memory> {
    let mut digest = Digest::new();
    on_catalogues(alloc, size, chance, &mut digest)?;
    for _ in 0..6 {
        let text = crowd_without_parties(alloc, size.saturating_mul(16), chance)?;
        take(remarked_json(alloc, &text)?, &mut digest);
        let text = crowd_without_parties(alloc, size.saturating_mul(32), chance)?;
        take(remarked_long(alloc, &text)?, &mut digest);
    }
    Ok(digest)
}

/// Reports on one catalogue, changed each time.
fn on_catalogues(
    alloc: Global,
    size: u32,
    chance: &mut Chance,
    digest: &mut Digest,
) -> Result<(), Memory> {
    let order = new_works(Style::Mixed, 1, 1, size);
    let (mut text, places) = file_with_places(alloc, chance, &order)?;
    for _ in 0..30 {
        change(&mut text, &places, chance);
        take(remarked_json(alloc, &text)?, digest);
        change(&mut text, &places, chance);
        take(remarked_long(alloc, &text)?, digest);
    }
    Ok(())
}

/// Takes a report.
pub(crate) fn take(checked: Checked, digest: &mut Digest) {
    digest.text(&checked.text);
    digest.number(checked.clean as u64);
}
