ghost use Rattle.std.specs.Prelude.{◌≡◌, ◌<◌, ◌∷◌, ◌==◌, None, Some, length, map, IfErr, IfOk, IfSome, OnOk};
ghost use Rattle.std.specs.List.{position};
ghost use Rattle.file_lists.specs.FileList.{entries, end_byte, list_fault, name_fault, IsRefusedFor};

use crate::{ListFault, ListRefused};
use std::alloc::Global;
use std::str;

/// What ends a name in a list. The last name may lack it.
#[derive(Clone, Copy, Debug, PartialEq, Eq)]
pub enum NameEnd {
    /// LF. A CR before it is part of the name.
    Newline,
    /// NUL, as `find -print0` prints it. A name may then have any other byte.
    Nul,
}

impl NameEnd {
    /// The byte that it is.
    fn byte(self) -> u8
        ensures { result ≡ end_byte self }
    {
        match self {
            NameEnd::Newline => b'\n',
            NameEnd::Nul => 0,
        }
    }
}

/// The names of a list, in order. They borrow its text. A list with a fault gives its first one.
pub fn names_in<'a>(
    alloc: Global,
    text: &'a [u8],
    end: NameEnd,
) -> Result<Vec<&'a str>, ListRefused>
    ensures names { IfOk result (λ names. map (λ name. name.now) names.items ≡ entries (end_byte end) text.now) }
    ensures right { OnOk result (list_fault (end_byte end) text.now ≡ None) }
    ensures refused { IfErr result (λ why. IsRefusedFor why (list_fault (end_byte end) text.now)) }
{
    let mut names = Vec::new(alloc);
    let mut rest = text;
    while !rest.is_empty() {
        let entry = first_entry(rest, end.byte());
        match named(entry.name, names.len() + 1) {
            Ok(name) => {
                if names.push(name).is_err() {
                    return Err(ListRefused::Memory);
                }
            }
            Err(fault) => return Err(ListRefused::Fault(fault)),
        }
        rest = entry.rest;
    }
    if text.is_empty() {
        return Err(ListRefused::Fault(ListFault::NoNames));
    }
    Ok(names)
}

/// The first entry of a list, and what stands behind it and its end.
#[derive(Clone, Copy)]
struct FirstEntry<'a> {
    name: &'a [u8],
    rest: &'a [u8],
}

/// The first entry of a list that is not empty.
fn first_entry(text: &[u8], end: u8) -> FirstEntry<'_>
    requires { 0 < length text.now }
    ensures entry { entries end text.now ≡ result.name.now ∷ entries end result.rest.now }
    ensures less { length result.rest.now < length text.now }
{
    match first_end(text, end) {
        Some(at) => FirstEntry {
            name: &text[..at],
            rest: &text[at + 1..],
        },
        None => FirstEntry {
            name: text,
            rest: &[],
        },
    }
}

/// Where the first byte stands that ends a name.
fn first_end(text: &[u8], end: u8) -> Option<usize>
    ensures value { result ≡ position (λ byte. byte == end) text.now }
    ensures inside { IfSome result (λ at. at < length text.now) }
{
    text.iter().position(|byte| *byte == end)
}

/// The name of these bytes, the one of this number in its list.
fn named(name: &[u8], line: usize) -> Result<&str, ListFault>
    ensures name { IfOk result (λ text. text.now ≡ name.now) }
    ensures right { OnOk result (name_fault line name.now ≡ None) }
    ensures fault { IfErr result (λ fault. name_fault line name.now ≡ Some fault) }
{
    if name.is_empty() {
        return Err(ListFault::EmptyName { line });
    }
    match str::from_utf8(name) {
        Ok(text) => Ok(text),
        Err(_) => Err(ListFault::NoText { line }),
    }
}
