//! Registers and acknowledgements that are replaced at once: what is there when a call of the system is refused.

use crate::disks::{
    ACKNOWLEDGED, OLDER, expect_draft, expect_made, expect_older, expect_text, run_into_itself,
    told,
};
use crate::files::file_named;
use std::alloc::Global;
use std::process::ExitCode;
use std::sync::Wait;
use std::test::Fail;
use std::thread::Threads;
use test_files::one_answer;
use test_program::{Disk, KeptFile, Text, expect_held};

/// What a run from one register to the same leaves, beside the entry in it: standard output, standard error, the number
/// of bytes of the acknowledgement that are in place, if any, whether its draft is left, and whether the register is
/// the new one.
type Left<'a> = (&'a str, &'a str, Option<usize>, bool, bool);

/// The calls that change files of a run from `book` to `book`, in their order, and what is left if that one alone is
/// refused. The acknowledgement has 425 bytes and the register 360; a write takes at most 200.
const REFUSALS: [(&str, Left); 18] = [
    (
        "lock book.lock",
        (
            "",
            "register: stopped: write after 0 bytes\n",
            None,
            false,
            false,
        ),
    ),
    ("open a.ack", NO_DRAFT),
    ("create a.ack", NO_DRAFT),
    ("permissions a.ack", NO_DRAFT),
    ("write a.ack", NO_DRAFT),
    (
        "write a.ack",
        (
            "a: stopped after 1: write after 200 bytes\n",
            "",
            None,
            true,
            true,
        ),
    ),
    (
        "write a.ack",
        (
            "a: stopped after 1: write after 400 bytes\n",
            "",
            None,
            true,
            true,
        ),
    ),
    ("sync a.ack", NOT_IN_PLACE),
    ("open book", AFTER_0),
    ("create book", AFTER_0),
    ("permissions book", AFTER_0),
    ("write book", AFTER_0),
    (
        "write book",
        (
            ACKNOWLEDGED,
            "register: stopped: write after 200 bytes\n",
            None,
            false,
            false,
        ),
    ),
    ("sync book", AFTER_360),
    ("rename book", AFTER_360),
    // The register has its name, but the system does not say that a crash leaves it.
    (
        "sync .",
        (
            ACKNOWLEDGED,
            "register: stopped: write after 360 bytes\n",
            None,
            false,
            true,
        ),
    ),
    ("rename a.ack", NOT_IN_PLACE),
    // So has the acknowledgement.
    (
        "sync .",
        (
            ACKNOWLEDGED,
            "a.ack: not in place\n",
            Some(425),
            false,
            true,
        ),
    ),
];

const NO_DRAFT: Left = (
    "a: stopped after 1: write after 0 bytes\n",
    "",
    None,
    false,
    true,
);

const AFTER_0: Left = (
    ACKNOWLEDGED,
    "register: stopped: write after 0 bytes\n",
    None,
    false,
    false,
);

const AFTER_360: Left = (
    ACKNOWLEDGED,
    "register: stopped: write after 360 bytes\n",
    None,
    false,
    false,
);

const NOT_IN_PLACE: Left = (ACKNOWLEDGED, "a.ack: not in place\n", None, true, true);

/// The first `placed` bytes of the new acknowledgement must be in place, or else the older one.
fn expect_placed(alloc: Global, disk: &Disk, placed: Option<usize>) -> Result<(), Fail> {
    let ack = file_named(&disk.files, "a.ack")?;
    match placed {
        Some(bytes) => {
            let answer = one_answer(alloc, "DU")?;
            expect_held(ack, answer.get(..bytes).ok_or("so many bytes")?)
        }
        None => expect_held(ack, OLDER),
    }
}

/// The acknowledgement and the register must be those that are to be left.
fn expect_left(alloc: Global, disk: &Disk, left: &Left) -> Result<(), Fail> {
    let (_, _, placed, waits, is_new) = left;
    expect_placed(alloc, disk, *placed)?;
    let entries = if *is_new { 2 } else { 1 };
    expect_text(alloc, disk, "book", Text::Register(entries))?;
    expect_draft(disk, "a.ack", "a draft of the acknowledgement", *waits)?;
    expect_draft(disk, "book", "a draft of the register", false)
}

/// Runs over a disk that refuses nothing: both files are replaced.
fn expect_replaced<T: AllocGlobal + Threads + Wait + Sync>(
    rt: &T,
    disk: &Disk,
) -> Result<(), Fail> {
    run_into_itself(rt, disk, ExitCode::SUCCESS, ACKNOWLEDGED, "")?;
    expect_left(rt.alloc(), disk, &("", "", Some(425), false, true))
}

/// The same, by these calls.
fn expect_written<T: AllocGlobal + Threads + Wait + Sync>(
    rt: &T,
    disk: &Disk,
    wanted: &str,
) -> Result<(), Fail> {
    expect_replaced(rt, disk)?;
    expect_made(disk, wanted)
}

/// The calls of the table, a line each.
fn all_calls(alloc: Global) -> Result<String, Fail> {
    let mut calls = String::new(alloc);
    for (call, _) in &REFUSALS {
        calls.push_str(call)?;
        calls.push_str("\n")?;
    }
    Ok(calls)
}

#[test]
fn writes_in_this_order(rt: HostRuntime) -> Result<(), Fail> {
    let wanted = all_calls(rt.alloc())?;
    let disk = told(rt.alloc(), 0, "")?;
    expect_written(&rt, &disk, &wanted)
}

/// Runs over a disk whose call of this number is refused: this must be left.
fn expect_refused<T: AllocGlobal + Threads + Wait + Sync>(
    rt: &T,
    number: usize,
    left: &Left,
) -> Result<(), Fail> {
    let disk = told(rt.alloc(), number, "")?;
    let (printed, complained, _, _, _) = left;
    run_into_itself(rt, &disk, ExitCode::FAILURE, printed, complained)?;
    expect_left(rt.alloc(), &disk, left)
}

#[test]
fn leaves_the_old_or_the_new_at_each_refusal(rt: HostRuntime) -> Result<(), Fail> {
    for (index, (_, left)) in REFUSALS.iter().enumerate() {
        expect_refused(&rt, index.saturating_add(1), left)?;
    }
    Ok(())
}

/// An acknowledgement that could not be put on disk is not reported if the register is not kept: it is withheld.
#[test]
fn withholds_what_the_disk_did_not_take(rt: HostRuntime) -> Result<(), Fail> {
    let disk = told(rt.alloc(), 0, "sync")?;
    let stopped = "register: stopped: write after 360 bytes\n";
    expect_old(&rt, &disk, (ACKNOWLEDGED, stopped), false)
}

/// An acknowledgement that was cut does not outlive a register that was not kept.
#[test]
fn removes_what_was_cut_where_the_register_is_not_kept(rt: HostRuntime) -> Result<(), Fail> {
    let disk = cut_and_stopped(rt.alloc())?;
    let cut = "a: stopped after 1: write after 300 bytes\n";
    let stopped = "register: stopped: write after 300 bytes\n";
    expect_old(&rt, &disk, (cut, stopped), false)
}

/// A disk on which neither the acknowledgement nor the register has room.
fn cut_and_stopped<'a>(alloc: Global) -> Result<Disk<'a>, Fail> {
    let mut disk = told(alloc, 0, "")?;
    for file in &mut disk.files {
        file.room = 300;
    }
    Ok(disk)
}

/// Runs over a disk that does not keep the register, with this on standard output and standard error: both files are
/// the old ones, and both drafts are there or none.
fn expect_old<T: AllocGlobal + Threads + Wait + Sync>(
    rt: &T,
    disk: &Disk,
    (printed, complained): (&str, &str),
    drafts: bool,
) -> Result<(), Fail> {
    run_into_itself(rt, disk, ExitCode::FAILURE, printed, complained)?;
    expect_older(rt.alloc(), disk)?;
    expect_draft(disk, "a.ack", "a draft", drafts)?;
    expect_draft(disk, "book", "another", drafts)
}

/// What cannot be removed stays if the run failed, and nothing else has changed.
#[test]
fn leaves_drafts_that_it_cannot_remove(rt: HostRuntime) -> Result<(), Fail> {
    let disk = told(rt.alloc(), 13, "remove")?;
    let stopped = "register: stopped: write after 200 bytes\n";
    expect_old(&rt, &disk, (ACKNOWLEDGED, stopped), true)
}

/// Puts a text of 900 bytes in the draft of a file, as a crash may leave it.
fn leave_draft(file: &KeptFile) -> Result<(), Fail> {
    *file.drafted.try_lock().ok_or("a file that nobody holds")? = true;
    let mut draft = file.draft.try_lock().ok_or("a file that nobody holds")?;
    draft.extend_from_slice(&[b'X'; 900])?;
    Ok(())
}

/// The same in the drafts of a disk.
fn leave_drafts(disk: &Disk) -> Result<(), Fail> {
    for file in &disk.files {
        leave_draft(file)?;
    }
    Ok(())
}

/// Runs over a disk with drafts that it cannot remove: both files are as they were.
fn expect_stopped<T: AllocGlobal + Threads + Wait + Sync>(rt: &T, disk: &Disk) -> Result<(), Fail> {
    leave_drafts(disk)?;
    let told = "a: stopped after 1: write after 0 bytes\n";
    let stopped = "register: stopped: write after 0 bytes\n";
    run_into_itself(rt, disk, ExitCode::FAILURE, told, stopped)?;
    expect_older(rt.alloc(), disk)
}

/// A draft that a crash left and that cannot be removed is not written over.
#[test]
fn writes_no_draft_that_it_cannot_make_anew(rt: HostRuntime) -> Result<(), Fail> {
    let disk = told(rt.alloc(), 0, "remove")?;
    expect_stopped(&rt, &disk)
}

#[test]
fn replaces_drafts_that_a_crash_left(rt: HostRuntime) -> Result<(), Fail> {
    let disk = told(rt.alloc(), 0, "")?;
    leave_drafts(&disk)?;
    expect_replaced(&rt, &disk)
}
