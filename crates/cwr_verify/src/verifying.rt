ghost use Rattle.std.specs.Prelude.{◌≡◌, ℕ, List, length, map, IfErr, IfOk, OnOk};
ghost use Rattle.work_registry.specs.EntryValue.{EntryValue};
ghost use Rattle.cwr_verify.specs.Proposed.{AreFirst, AreProposed, wanting_of};
ghost use Rattle.cwr_verify.specs.Read.{AreReadFrom};
ghost use Rattle.cwr_verify.specs.Sent.{Sent};
ghost use Rattle.cwr_verify.specs.VerifyErrors.{IsUnverified};
ghost use Rattle.cwr_verify.specs.Verified.{AreAnswered};

use crate::file_check::check_file;
use crate::proposal::{owners_of, wanted_of};
use crate::reading::read_files;
use crate::sent::{ReadFile, SentFile};
use crate::verify_error::VerifyError;
use crate::wanted::Wanted;
use cwr_field::Memory;
use std::alloc::Allocator;
use work_registry::Book;

/// Which file each entry of a book answers, where each file is answered as its acknowledgement says.
///
/// An entry of the result is the number of a file, from 0, or another number where the entry answers none of these
/// files. An error names the first file that is not answered in this way.
///
/// The entries of a file have the calls of all its transactions, judged again, in file order. No entry answers two
/// transactions. The acknowledgement of a file is, byte for byte, the text for their replies. The society, the name,
/// the date and the time in it are those of its own first line.
///
/// Where two files have the same call with the same reply, the one that is given first is tried first, and no other
/// order is tried. So the files must be given in the order in which they were run.
pub fn verify<A: Allocator + Copy + Drop>(
    alloc: A,
    book: &Book<A>,
    files: &[SentFile],
) -> Result<Vec<usize, A>, VerifyError>
    ensures answered { IfOk result (λ owners. AreAnswered owners.items book.now.history files.now) }
    ensures proposed { IfOk result (λ owners. AreProposed files.now book.now.history owners.items) }
    ensures told { IfErr result (IsUnverified book.now.history files.now) }
{
    match read_files(alloc, files) {
        Ok(read) => verify_read(alloc, book, &read),
        Err(Memory) => Err(VerifyError::Memory),
    }
}

/// Does what [`verify`] does, for files that were read before, by [`read_text`](crate::read_text). Their text need not
/// be held.
///
/// An entry of the result, and an error, give a file by its place in the list, from 0. They hold for each list of sent
/// files from which these can have been read.
pub fn verify_read<A: Allocator + Copy + Drop>(
    alloc: A,
    book: &Book<A>,
    files: &[ReadFile<A>],
) -> Result<Vec<usize, A>, VerifyError>
    ensures answered { IfOk result (λ owners. (sent : List Sent) → AreReadFrom sent files.now → AreAnswered owners.items book.now.history sent) }
    ensures proposed { IfOk result (λ owners. (sent : List Sent) → AreReadFrom sent files.now → AreProposed sent book.now.history owners.items) }
    ensures told { IfErr result (λ told. (sent : List Sent) → AreReadFrom sent files.now → IsUnverified book.now.history sent told) }
{
    let Ok(mut wanted) = wanted_of(alloc, files) else {
        return Err(VerifyError::Memory);
    };
    let Ok(owners) = owners_of(alloc, wanted.as_mut_slice(), book.history()) else {
        return Err(VerifyError::Memory);
    };
    check_files(alloc, files, wanted.as_slice())?;
    Ok(owners)
}

/// Checks each file against the replies that its transactions got. `wanted` has these for each file, in the order of
/// the files.
fn check_files<A: Allocator + Copy>(
    alloc: A,
    files: &[ReadFile<A>],
    wanted: &[Wanted<A>],
) -> Result<(), VerifyError>
    requires { (history : List EntryValue) × (owners : List ℕ) × AreFirst (map wanting_of files.now) history owners wanted.now }
    ensures answered { OnOk result ((sent : List Sent) (history : List EntryValue) (owners : List ℕ) → AreReadFrom sent files.now → AreFirst (map wanting_of files.now) history owners wanted.now → length owners ≡ length history → AreAnswered owners history sent) }
    ensures told { IfErr result (λ told. (sent : List Sent) (history : List EntryValue) (owners : List ℕ) → AreReadFrom sent files.now → AreFirst (map wanting_of files.now) history owners wanted.now → IsUnverified history sent told) }
{
    for number in 0..files.len() {
        check_file(alloc, number, &files[number], wanted[number].replied())?;
    }
    Ok(())
}
