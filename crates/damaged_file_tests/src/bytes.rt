//! A file in which one byte is another one.

use crate::three_ways::{expect_three_ways, nothing, whole};
use cwr_desk::FileOutcome;
use std::sync::Wait;
use std::test::Fail;
use std::thread::Threads;
use test_files::plain_file;

/// The plain file with 0 in place of the byte with this index, which is in this line.
fn expect_byte_0<T: AllocGlobal + Threads + Wait + Sync>(
    rt: &T,
    text: &[u8],
    index: usize,
    line: u64,
) -> Result<(), Fail> {
    let mut bytes = text.to_vec(rt.alloc())?;
    *bytes.get_mut(index).ok_or("a byte")? = 0;
    let number = if index < 3 { 1 } else { 2 };
    let end = FileOutcome::Refused { number, line };
    expect_three_ways(rt, whole(&bytes), nothing(end))
}

/// Each byte of the plain file, its line ends too, in turn replaced by 0.
#[test]
fn refuses_a_byte_0(rt: HostRuntime) -> Result<(), Fail> {
    let text = plain_file(rt.alloc())?;
    let mut line: u64 = 1;
    for (index, byte) in text.iter().enumerate() {
        expect_byte_0(&rt, &text, index, line)?;
        if *byte == b'\n' {
            line = line.saturating_add(1);
        }
    }
    Ok(())
}
