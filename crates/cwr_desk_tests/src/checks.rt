//! What a check reports of files of the profile, in memory and through windows of many sizes.

ghost use Rattle.std.specs.Prelude.{◌<◌};

use crate::lines::{Line, file_with};
use byte_streams::{Feed, ReadRefused};
use cwr_check::{Checked, check_source, check_text};
use std::alloc::Global;
use std::test::Fail;
use test_comparisons::{same, same_bytes};
use test_files::{miscounted, one_writer, plain_file};

const GROUP: &str = "GRHNWR0000102.200000000001";

/// A bound on the bytes of the files here.
const MAX: usize = 4096;

fn expect_checked(checked: &Checked, wanted: &str, clean: bool) -> Result<(), Fail> {
    same_bytes(wanted, &checked.text, wanted.as_bytes())?;
    same(wanted, &checked.clean, &clean)
}

/// The same of a file in memory.
fn expect_in_memory(alloc: Global, bytes: &[u8], wanted: &str, clean: bool) -> Result<(), Fail> {
    let checked = check_text(alloc, bytes)?;
    expect_checked(&checked, wanted, clean)
}

/// The same for a file that comes a byte at a time, through a window. `alloc` allocates, `bytes` is the file, and
/// `capacity` the size of the window, in bytes. `wanted` is the text that the check must give, and `clean` whether the
/// file must be clean.
fn expect_through(
    alloc: Global,
    bytes: &[u8],
    capacity: usize,
    wanted: &str,
    clean: bool,
) -> Result<(), Fail> {
    let mut reader = Feed::new(bytes, 1, None);
    let checked = check_source(alloc, &mut reader, MAX, capacity)?;
    expect_checked(&checked, wanted, clean)
}

/// What must be reported of a file, and whether it must be clean: in memory, and a byte at a time through each window.
fn expect(alloc: Global, bytes: &[u8], wanted: &str, clean: bool) -> Result<(), Fail> {
    expect_in_memory(alloc, bytes, wanted, clean)?;
    for capacity in 0..300 {
        expect_through(alloc, bytes, capacity, wanted, clean)?;
    }
    Ok(())
}

/// The same of a file with these lines after its HDR.
fn expect_lines(alloc: Global, lines: &[Line], wanted: &str, clean: bool) -> Result<(), Fail> {
    let bytes = file_with(alloc, lines)?;
    expect(alloc, &bytes, wanted, clean)
}

#[test]
fn tells_a_clean_file(rt: HostRuntime) -> Result<(), Fail> {
    let alloc = rt.alloc();
    let none = [Line::Text("TRL000000000000000000002")];
    expect_lines(alloc, &none, "0 transactions, 0 with faults\n", true)?;
    let wanted = "00001 00000000 NWR ok\n1 transactions, 0 with faults\n";
    let whole = plain_file(alloc)?;
    expect(alloc, &whole, wanted, true)
}

#[test]
fn tells_each_transaction(rt: HostRuntime) -> Result<(), Fail> {
    let lines = [
        Line::Text(GROUP),
        Line::Work("NWR", 0, "W1", ""),
        Line::Text("SWT0000000000000001000000001050000500005000I2136"),
        Line::Writer("SWR", 0, 2, "10000", "10000"),
        Line::Work("NWR", 1, "W2", ""),
        Line::Writer("SWR", 1, 1, "10000", "10000"),
        Line::Text("GRT000010000000200000007"),
        Line::Text("TRL000010000000200000009"),
    ];
    let wanted =
        "00001 00000000 NWR rejected 1:J1\n00001 00000001 NWR ok\n2 transactions, 1 with faults\n";
    expect_lines(rt.alloc(), &lines, wanted, false)
}

#[test]
fn tells_groups_and_kinds(rt: HostRuntime) -> Result<(), Fail> {
    let lines = [
        Line::Text(GROUP),
        Line::Work("NWR", 0, "W1", ""),
        Line::Writer("SWR", 0, 1, "10000", "10000"),
        Line::Text("GRT000010000000100000004"),
        Line::Text("GRHREV0000202.200000000001"),
        Line::Work("REV", 0, "W1", ""),
        Line::Writer("SWR", 0, 1, "10000", "10000"),
        Line::Text("GRT000020000000100000004"),
        Line::Text("TRL000020000000200000010"),
    ];
    let wanted = "00001 00000000 NWR ok\n00002 00000000 REV ok\n2 transactions, 0 with faults\n";
    expect_lines(rt.alloc(), &lines, wanted, true)
}

/// The faults that are reported of a work whose one writer has these shares.
fn expect_shares(alloc: Global, shares: [&str; 3], faults: &str) -> Result<(), Fail> {
    let wanted = format!(in alloc;
        "00001 00000000 NWR rejected {faults}\n1 transactions, 1 with faults\n"
    )?;
    let bytes = one_writer(alloc, shares)?;
    expect(alloc, &bytes, &wanted, false)
}

#[test]
fn tells_every_fault(rt: HostRuntime) -> Result<(), Fail> {
    let bare = [
        Line::Text(GROUP),
        Line::Text("NWR0000000000000000"),
        Line::Text("GRT000010000000100000003"),
        Line::Text("TRL000010000000100000005"),
    ];
    let wanted = "00001 00000000 NWR rejected 0:J2 0:J3 0:J10\n1 transactions, 1 with faults\n";
    expect_lines(rt.alloc(), &bare, wanted, false)
}

#[test]
fn tells_faults_of_shares(rt: HostRuntime) -> Result<(), Fail> {
    let alloc = rt.alloc();
    expect_shares(alloc, ["10001", "10000", "10000"], "1:J6")?;
    expect_shares(alloc, ["10000", "09993", "10007"], "0:J12 1:J6")?;
    expect_shares(alloc, ["04993", "05000", "05000"], "0:J11 0:J12 0:J13")
}

#[test]
fn tells_a_sequence_of_two_digits(rt: HostRuntime) -> Result<(), Fail> {
    let lines = [
        Line::Text(GROUP),
        Line::Work("NWR", 0, "W1", ""),
        Line::Writer("SWR", 0, 1, "10000", "10000"),
        Line::Text("ALT0000000000000002OTHER NAME"),
        Line::Text("XRF0000000000000003"),
        Line::Text("XRF0000000000000004"),
        Line::Text("XRF0000000000000005"),
        Line::Text("XRF0000000000000006"),
        Line::Text("XRF0000000000000007"),
        Line::Text("XRF0000000000000008"),
        Line::Text("XRF0000000000000009"),
        Line::Text("XRF0000000000000010"),
        Line::Text("XRF0000000000000011"),
        Line::Writer("SWR", 0, 12, "00000", "00000"),
        Line::Text("GRT000010000000100000015"),
        Line::Text("TRL000010000000100000017"),
    ];
    let wanted = "00001 00000000 NWR rejected 12:J1\n1 transactions, 1 with faults\n";
    expect_lines(rt.alloc(), &lines, wanted, false)
}

#[test]
fn tells_the_first_fault_of_a_file(rt: HostRuntime) -> Result<(), Fail> {
    let alloc = rt.alloc();
    expect(alloc, b"", "refused F1 at line 1\n", false)?;
    let cut_off = [
        Line::Text(GROUP),
        Line::Work("NWR", 0, "W1", ""),
        Line::Writer("SWR", 0, 1, "10000", "10000"),
        Line::Text("GRT000010000000100000004"),
    ];
    expect_lines(alloc, &cut_off, "refused F11 at line 6\n", false)?;
    let wrong = miscounted(alloc)?;
    expect(alloc, &wrong, "refused F9 at line 5\n", false)
}

/// A check of a file must be refused. `alloc` allocates. `bytes` comes one byte at a time, of which at most `limit` may
/// come. `failing` is the read that fails, counted from 1, and 0 for none. `wanted` is why the check must be refused.
fn expect_refused(
    alloc: Global,
    bytes: &[u8],
    limit: usize,
    failing: u64,
    wanted: ReadRefused,
) -> Result<(), Fail>
    requires { limit < 4611686018427387904 }
{
    let mut reader = Feed::new(bytes, 1, Some(failing));
    let refused = check_source(alloc, &mut reader, limit, 64).err();
    same("the refusal", &refused, &Some(wanted))
}

/// The check of a file is refused at each read that fails, up to the one that finds its end.
fn expect_each_refused(alloc: Global, bytes: &[u8]) -> Result<(), Fail> {
    for read in 0..=bytes.len() {
        expect_refused(alloc, bytes, MAX, read as u64 + 1, ReadRefused::Read)?;
    }
    Ok(())
}

/// A fault is reported only of a file that can be read to its end.
#[test]
fn tells_each_failed_read(rt: HostRuntime) -> Result<(), Fail> {
    let alloc = rt.alloc();
    let clean = plain_file(alloc)?;
    expect_each_refused(alloc, &clean)?;
    let wrong = miscounted(alloc)?;
    expect_each_refused(alloc, &wrong)
}

/// A clean file of at most `limit` bytes, which come seven at a time, is taken.
fn expect_taken(alloc: Global, bytes: &[u8], limit: usize) -> Result<(), Fail>
    requires { limit < 4611686018427387904 }
{
    let checked = check_source(alloc, &mut Feed::new(bytes, 7, None), limit, 64)?;
    same("whether it is clean", &checked.clean, &true)
}

/// A file is refused if the limit is one byte less.
fn expect_too_long(alloc: Global, bytes: &[u8]) -> Result<(), Fail> {
    let less = bytes.len().min(MAX).saturating_sub(1);
    expect_refused(alloc, bytes, less, 0, ReadRefused::TooLong)
}

/// Whatever the file, it may have as many bytes as the limit says, and not one more.
#[test]
fn takes_no_byte_past_the_limit(rt: HostRuntime) -> Result<(), Fail> {
    let alloc = rt.alloc();
    let clean = plain_file(alloc)?;
    expect_taken(alloc, &clean, clean.len().min(MAX))?;
    expect_too_long(alloc, &clean)?;
    let wrong = miscounted(alloc)?;
    expect_too_long(alloc, &wrong)
}
