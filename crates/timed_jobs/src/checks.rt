//! Checks of files before they are sent.

use crate::catalogue::{Order, Style, file_with_places, new_works};
use crate::chance::Chance;
use crate::crowds::{crowd, crowd_of_titles, crowd_without_parties};
use crate::digest::Digest;
use crate::digits::{put, work_number};
use crate::form::LF;
use crate::nights::CHUNK;
use crate::sheet::empty_groups;
use crate::titles::title;
use byte_streams::Feed;
use cwr_check::check_source;
use cwr_desk::MAX_BYTES;
use cwr_field::Memory;
use cwr_source::WINDOW;
use std::alloc::Global;

/// Checks of catalogues, each changed in many works from check to check, of single works of very many records, and of
/// groups without a transaction.
pub(crate) fn checks(alloc: Global, size: u32, chance: &mut Chance) -> Result<Digest, Memory> {
    let mut digest = Digest::new();
    let mixed = new_works(Style::Mixed, 1, 1, size);
    catalogue(alloc, &mixed, 60, chance, &mut digest)?;
    let with_lf = Order {
        line_end: LF,
        ..new_works(Style::Mixed, 2, 1, size)
    };
    catalogue(alloc, &with_lf, 30, chance, &mut digest)?;
    let thin = new_works(Style::Thin, 3, 1, size.saturating_mul(4));
    catalogue(alloc, &thin, 30, chance, &mut digest)?;
    for _ in 0..2 {
        let parties = size.saturating_mul(8);
        check(alloc, &crowd(alloc, parties, chance)?, &mut digest)?;
        let records = size.saturating_mul(16);
        check(
            alloc,
            &crowd_without_parties(alloc, records, chance)?,
            &mut digest,
        )?;
    }
    lines_alone(alloc, size, chance, &mut digest)?;
    Ok(digest)
}

/// Checks, some times each, a file of groups without a transaction and one of a work of very many titles. Little is done
/// with these besides going from line to line. `alloc` allocates, `size` sets the number of lines, `chance` gives the
/// numbers, and `digest` takes the results.
fn lines_alone(
    alloc: Global,
    size: u32,
    chance: &mut Chance,
    digest: &mut Digest,
) -> Result<(), Memory> {
    let groups = empty_groups(alloc, size.saturating_mul(10))?;
    let titles = crowd_of_titles(alloc, size.saturating_mul(32), chance)?;
    for _ in 0..8 {
        check(alloc, &groups, digest)?;
        check(alloc, &titles, digest)?;
    }
    Ok(())
}

/// Makes a catalogue and checks it `times` times, changed each time. `alloc` allocates, `order` says what the catalogue
/// is like, `chance` gives the numbers, and `digest` takes the results.
fn catalogue(
    alloc: Global,
    order: &Order,
    times: u32,
    chance: &mut Chance,
    digest: &mut Digest,
) -> Result<(), Memory> {
    let (mut text, places) = file_with_places(alloc, chance, order)?;
    for _ in 0..times {
        change(&mut text, &places, chance);
        check(alloc, &text, digest)?;
    }
    Ok(())
}

/// Gives one in four works of a catalogue another title and another number, and removes some of their titles.
pub(crate) fn change(text: &mut [u8], places: &[usize], chance: &mut Chance) {
    for place in places {
        if chance.is_one_in(4) {
            let new_title = if chance.is_one_in(50) {
                [b' '; 60]
            } else {
                title(chance)
            };
            put(text, place.saturating_add(19), &new_title);
            let number = work_number(chance.below(99_999_999));
            put(text, place.saturating_add(81), &number);
        }
    }
}

/// Checks a file as it comes through a window.
fn check(alloc: Global, text: &[u8], digest: &mut Digest) -> Result<(), Memory> {
    let mut feed = Feed::new(text, CHUNK, None);
    match check_source(alloc, &mut feed, MAX_BYTES, WINDOW) {
        Ok(checked) => {
            digest.text(&checked.text);
            digest.number(checked.clean as u64);
            Ok(())
        }
        Err(_) => Err(Memory),
    }
}
