//! Room for bytes in memory.

use byte_streams::Room;
use failing_alloc::{Ended, FailingAlloc, Sweep, answered, refuse_each};
use std::test::Fail;
use test_comparisons::same_bytes;

struct NewRoom;

impl Sweep for NewRoom {
    fn ends(&self, memory: &FailingAlloc) -> Ended {
        match Room::new(memory, 425, true) {
            Ok(room) => answered(same_bytes("bytes", room.bytes(), b"")),
            Err(_) => Ok(true),
        }
    }
}

#[test]
fn rooms(rt: HostRuntime) -> Result<(), Fail> {
    refuse_each(rt.alloc(), &NewRoom)
}
