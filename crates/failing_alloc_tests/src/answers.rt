//! An acknowledgement file.
ghost use Rattle.std.specs.Prelude.{◌≡◌, ◌∷◌, []};
ghost use Rattle.cwr_acknowledgement.specs.AckItem.{reported_faults};
ghost use Rattle.cwr_acknowledgement.specs.Acknowledgement.{FitsItem};

use crate::control_records::text;
use byte_streams::Room;
use cwr_acknowledgement::{AckError, AckItem, ack_file, send_ack};
use cwr_call::Fault;
use cwr_record::{Header, Stamp, Status, WorkKind, read_header};
use failing_alloc::{Ended, FailingAlloc, Sweep, answered, refuse_each, refused};
use std::alloc::Global;
use std::test::Fail;
use test_comparisons::same_bytes;
use test_files::{SENDER, acknowledgement, decision, header, stamp};

/// The share that is reported.
const SHARE: Fault = Fault {
    sequence: 1,
    number: 6,
    rtype: *b"SWR",
};

/// The first transaction, a work that was accepted.
fn accepted() -> AckItem<'static>
    ensures fits { FitsItem result }
    ensures told { reported_faults result ≡ [] }
{
    AckItem {
        group: 1,
        sequence: 0,
        kind: WorkKind::Nwr,
        title: text(b"SONG ONE"),
        number: text(b"W1"),
        status: Status::Accepted,
        work: Some(1),
        faults: &[],
    }
}

/// The second one, which was rejected for a share.
fn rejected() -> AckItem<'static>
    ensures fits { FitsItem result }
    ensures told { reported_faults result ≡ SHARE ∷ [] }
{
    AckItem {
        group: 1,
        sequence: 1,
        kind: WorkKind::Nwr,
        title: text(b"SONG ONE"),
        number: text(b"W2"),
        status: Status::Rejected,
        work: None,
        faults: &[SHARE],
    }
}

#[derive(Drop)]
struct AckFile<'a> {
    stamp: Stamp,
    header: Header,
    wanted: &'a [u8],
}

impl Sweep for AckFile<'_> {
    fn ends(&self, memory: &FailingAlloc) -> Ended {
        let items = [accepted(), rejected()];
        match ack_file(memory, &self.stamp, &self.header, &items) {
            Ok(answer) => answered(same_bytes("the acknowledgement", &answer, self.wanted)),
            Err(_) => Ok(true),
        }
    }
}

/// The same, sent into a room that has its memory.
#[derive(Drop)]
struct SendAck<'a> {
    alloc: Global,
    stamp: Stamp,
    header: Header,
    wanted: &'a [u8],
}

impl Sweep for SendAck<'_> {
    fn ends(&self, memory: &FailingAlloc) -> Ended {
        let items = [accepted(), rejected()];
        let mut room = Room::new(self.alloc, self.wanted.len(), true)?;
        match send_ack(memory, &mut room, &self.stamp, &self.header, &items) {
            Ok(()) => answered(same_bytes("the acknowledgement", room.bytes(), self.wanted)),
            Err(AckError::Memory) => refused(same_bytes("what was written", room.bytes(), b"")),
            Err(stopped) => Err(Fail::new(format_args!("{stopped}"))),
        }
    }
}

#[test]
fn acknowledgements(rt: HostRuntime) -> Result<(), Fail> {
    let alloc = rt.alloc();
    let head = header(alloc, SENDER, "20240501")?;
    let wanted = acknowledgement(
        alloc,
        &[
            decision(0, "NWR", "W1", "00000001", "AS", &[]),
            decision(
                1,
                "NWR",
                "W2",
                "",
                "RJ",
                &[(1, "SWR", 6, "SHARE IS NOT VALID")],
            ),
        ],
    )?;
    let made = AckFile {
        stamp: stamp()?,
        header: read_header(head.as_bytes())?,
        wanted: &wanted,
    };
    refuse_each(alloc, &made)?;
    let sent = SendAck {
        alloc,
        stamp: stamp()?,
        header: read_header(head.as_bytes())?,
        wanted: &wanted,
    };
    refuse_each(alloc, &sent)
}
