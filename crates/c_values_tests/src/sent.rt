//! Files that were sent.

use c_values::{SentBytes, sent_files};
use std::alloc::Global;
use std::test::Fail;
use test_comparisons::{same, same_bytes};

/// Each of two files must be handed on with its acknowledgement.
fn expect_sent(alloc: Global, files: &[SentBytes]) -> Result<(), Fail> {
    let sent = sent_files(alloc, files)?;
    same("how many", &sent.len(), &files.len())?;
    for (found, given) in sent.iter().zip(files) {
        same_bytes("a file", found.text, given.file)?;
        same_bytes("its answer", found.acknowledgement, given.acknowledgement)?;
    }
    Ok(())
}

#[test]
fn hands_files_on_with_their_answers(rt: HostRuntime) -> Result<(), Fail> {
    let files = [
        SentBytes {
            file: b"one",
            acknowledgement: b"its answer",
        },
        SentBytes {
            file: b"",
            acknowledgement: b"another",
        },
    ];
    expect_sent(rt.alloc(), &files)
}
