//! The words of the command line, as texts.

use crate::status::{bad_words, no_memory};
use cwr_remarks::put_shown;
use std::env::FillError;
use std::process::ExitCode;
use std::rt::Env;
use std::{env, io, str};

/// No word of a command line has more bytes than this: Linux takes none that is longer.
const MAX_WORD_BYTES: usize = 131_072;

/// The words of the command line, the program's name first. If one of them is not text, a message that names it is
/// printed on standard error, and its status returned. An allocation failure is reported likewise.
pub(crate) fn given_words<R: Env + AllocGlobal + Eprint>(rt: &R) -> Result<Vec<String>, ExitCode> {
    let words = match env::args(rt) {
        Ok(words) => words,
        Err(error) if error.kind() == io::ErrorKind::OutOfMemory => return Err(no_memory(rt)),
        Err(_) => return Err(print_no_text(rt)),
    };
    match words.collect(rt.alloc()) {
        Ok(words) => Ok(words),
        Err(_) => Err(no_memory(rt)),
    }
}

/// Prints that a word is not text, and which.
fn print_no_text<R: Env + AllocGlobal + Eprint>(rt: &R) -> ExitCode {
    let status = bad_words(rt, "a word of the command line is not text");
    print_first_word_without_text(rt);
    status
}

/// Prints the first word that is not text: its bytes, and the number of words before it, the program's name among them.
/// If an allocation fails, nothing is printed.
fn print_first_word_without_text<R: Env + AllocGlobal + Eprint>(rt: &R) {
    let Ok(mut buffer) = vec![in rt.alloc(); 0u8; MAX_WORD_BYTES] else {
        return;
    };
    for number in 0..usize::MAX {
        match rt.arg(number, &mut buffer) {
            Ok(length) => {
                let word = &buffer[..length];
                if str::from_utf8(word).is_err() {
                    print_word(rt, number, word);
                    return;
                }
            }
            Err(FillError::TooLong) => {}
            Err(FillError::NotPresent) => return,
        }
    }
}

/// Prints the bytes of the word with this number, shown as those of a file are. If an allocation fails, nothing is
/// printed.
fn print_word<R: AllocGlobal + Eprint>(rt: &R, number: usize, word: &[u8]) {
    let mut shown = Vec::new(rt.alloc());
    if put_shown(&mut shown, word).is_err() {
        return;
    }
    if let Ok(text) = str::from_utf8(&shown) {
        let _ = eprintln!(rt; "word {number}: {text}");
    }
}
