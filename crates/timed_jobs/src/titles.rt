//! Titles of works.

use crate::chance::Chance;
use crate::digits::put;

const WORDS: [&str; 24] = [
    "NIGHT", "RIVER", "GOLDEN", "OF", "THE", "LITTLE", "SONG", "HEART", "BLUE", "STREET", "WINTER",
    "DANCE", "FOR", "MY", "SUMMER", "RAIN", "LAST", "TRAIN", "HOME", "STARS", "WALTZ", "NO.",
    "SILVER", "MOON",
];

/// A title of some words.
pub(crate) fn title(chance: &mut Chance) -> [u8; 60] {
    let mut title = [b' '; 60];
    let mut at: usize = 0;
    for _ in 0..2 + chance.below(4) {
        let word = word(chance);
        put(&mut title, at, word);
        at = at.saturating_add(word.len()).saturating_add(1);
    }
    title
}

/// A title that a table has to quote.
pub(crate) fn quoted_title(chance: &mut Chance) -> [u8; 60] {
    let mut title = title(chance);
    title[0] = b'"';
    title[3] = b',';
    title[7] = b'"';
    title
}

/// A title with an accented letter, which has two bytes in UTF-8.
pub(crate) fn accented_title(chance: &mut Chance) -> [u8; 60] {
    let mut title = title(chance);
    put(&mut title, 3, "É".as_bytes());
    title
}

fn word(chance: &mut Chance) -> &'static [u8] {
    let place = chance.below(WORDS.len() as u32) as usize;
    match WORDS.get(place) {
        Some(word) => word.as_bytes(),
        None => b"A",
    }
}
