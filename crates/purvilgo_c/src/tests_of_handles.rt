//! A test of the calls of a registry behind a handle, in ample memory: it runs a file, and is read again from its
//! register.

use crate::handle::Handle;
use crate::opening::{purvilgo_registry_close, purvilgo_registry_open, purvilgo_registry_read};
use crate::registry_contents::{purvilgo_registry_entries, purvilgo_registry_register};
use crate::running::{purvilgo_registry_acknowledgement, purvilgo_registry_run};
use crate::tests_of_files::{
    ACKNOWLEDGED, FAULTLESS, NO_OUTCOME, STAMP, WORKS, expect_text, register, room, works,
};
use c_values::status::{ALREADY_OPEN, DONE};
use std::alloc::Global;
use std::test::Fail;
use test_comparisons::same_lists;
use test_files::many_answers;

/// What is behind a handle must be a registry with this register, of this many entries.
fn expect_register(
    alloc: Global,
    handle: &mut Handle,
    room: &mut [u8],
    wanted: &[u8],
) -> Result<(), Fail> {
    let mut length = 0;
    let mut entries = 0;
    let told = [
        purvilgo_registry_entries(alloc, handle, &mut entries),
        purvilgo_registry_register(alloc, handle, room, &mut length),
    ];
    same_lists("the statuses", &told, &[DONE; 2])?;
    same_lists("the entries", &[entries], &[u64::from(WORKS)])?;
    expect_text(room, length, wanted)
}

/// A file is run into an empty registry.
fn expect_run(alloc: Global, handle: &mut Handle, room: &mut [u8]) -> Result<(), Fail> {
    let file = works(alloc)?;
    let answer = many_answers(alloc, WORKS, 0)?;
    let mut length = 0;
    let mut outcome = NO_OUTCOME;
    let told = [
        purvilgo_registry_open(alloc, handle),
        purvilgo_registry_open(alloc, handle),
        purvilgo_registry_run(alloc, handle, &file, &STAMP, &mut outcome),
        purvilgo_registry_acknowledgement(alloc, handle, room, &mut length),
    ];
    same_lists("the statuses", &told, &[DONE, ALREADY_OPEN, DONE, DONE])?;
    if outcome != ACKNOWLEDGED {
        return Err(Fail::from("another outcome"));
    }
    expect_text(room, length, &answer)
}

/// A file is run, and the registry is read again from its register.
fn expect_all(alloc: Global, handle: &mut Handle) -> Result<(), Fail> {
    let mut room = room(alloc)?;
    let register = register(alloc)?;
    expect_run(alloc, handle, &mut room)?;
    expect_register(alloc, handle, &mut room, &register)?;
    purvilgo_registry_close(alloc, handle);
    let mut fault = FAULTLESS;
    let told = [purvilgo_registry_read(alloc, handle, &register, &mut fault)];
    same_lists("the status of reading", &told, &[DONE])?;
    expect_register(alloc, handle, &mut room, &register)
}

#[test]
fn keeps_a_registry(rt: HostRuntime) -> Result<(), Fail> {
    let alloc = rt.alloc();
    let mut handle = Handle::shut();
    let told = expect_all(alloc, &mut handle);
    if let Some(registry) = handle.into_bare() {
        drop(registry.into_box(alloc));
    }
    told
}
