//! Acknowledgements that go out in pieces.

ghost use Rattle.std.specs.Prelude.{◌+◌, ◌≤◌, length, IfOk};
ghost use Rattle.std.specs.List.{AllByRecursion};
ghost use Rattle.cwr_acknowledgement.specs.Acknowledgement.{FitsFault, FitsItem, reported_fault_count, max_ack_records};

use crate::acknowledgements::{acknowledged, header, item, rejected, stamp};
use byte_streams::Spool;
use cwr_file::{AckError, AckItem, Fault, Memory, Room, Status, Through, WorkKind, send_ack};
use std::alloc::Global;
use std::io;
use std::test::Fail;
use test_comparisons::{same, same_bytes};

/// A writer that takes at most this number of bytes a call.
#[derive(Drop)]
struct Few {
    taken: Vec<u8>,
    most: usize,
}

impl io::Write for Few {
    fn write(&mut self, buf: &[u8]) -> io::Result<usize> {
        let n = buf.len().min(self.most);
        self.taken.extend_from_slice(&buf[..n])?;
        Ok(n)
    }

    fn flush(&mut self) -> io::Result<()> {
        Ok(())
    }
}

/// The acknowledgement of these items goes out completely, however few bytes a write takes.
pub(crate) fn expect_sent(alloc: Global, items: &[AckItem], wanted: &[u8]) -> Result<(), Fail>
    requires few { length items.now + reported_fault_count items.now ≤ max_ack_records }
    requires fit { AllByRecursion FitsItem items.now }
{
    expect_spooled(alloc, items, wanted)?;
    for most in 1..=5 {
        expect_sent_by(alloc, items, wanted, most)?;
    }
    Ok(())
}

/// It goes out completely into a spool.
fn expect_spooled(alloc: Global, items: &[AckItem], wanted: &[u8]) -> Result<(), Fail>
    requires few { length items.now + reported_fault_count items.now ≤ max_ack_records }
    requires fit { AllByRecursion FitsItem items.now }
{
    let (stamp, header) = (stamp()?, header(alloc)?);
    let mut spool = Spool::new(alloc);
    send_ack(alloc, &mut spool, &stamp, &header, items)?;
    same_bytes("what was sent", spool.bytes(), wanted)
}

/// It goes out completely if a write takes at most `most` bytes.
fn expect_sent_by(alloc: Global, items: &[AckItem], wanted: &[u8], most: usize) -> Result<(), Fail>
    requires few { length items.now + reported_fault_count items.now ≤ max_ack_records }
    requires fit { AllByRecursion FitsItem items.now }
{
    let (stamp, header) = (stamp()?, header(alloc)?);
    let taken = Vec::new(alloc);
    let mut sink = Through::new(Few { taken, most });
    send_ack(alloc, &mut sink, &stamp, &header, items)?;
    same_bytes("what was sent", &sink.into_inner().taken, wanted)
}

/// A sink that takes the front of an acknowledgement, which is reported. `alloc` allocates, `items` are acknowledged,
/// and `wanted` is the acknowledgement. The sink takes `size` bytes; then it fails if `fails` is true, and else takes
/// nothing more.
fn expect_cut(
    alloc: Global,
    items: &[AckItem],
    wanted: &[u8],
    size: usize,
    fails: bool,
) -> Result<(), Fail>
    requires few { length items.now + reported_fault_count items.now ≤ max_ack_records }
    requires fit { AllByRecursion FitsItem items.now }
{
    let (stamp, header) = (stamp()?, header(alloc)?);
    let front = wanted.get(..size).ok_or("a front")?;
    let mut room = Room::new(alloc, size, fails)?;
    let ended = send_ack(alloc, &mut room, &stamp, &header, items);
    let stopped = AckError::Write { sent: size as u64 };
    same("how it ended", &ended, &Err(stopped))?;
    same_bytes("what was taken", room.bytes(), front)
}

#[test]
fn stops_after_each_byte(rt: HostRuntime) -> Result<(), Fail> {
    let items = [item(0, WorkKind::Nwr, Status::Accepted)];
    let wanted = acknowledged(rt.alloc(), &items)?;
    expect_each_cut(rt.alloc(), &items, &wanted)
}

/// The acknowledgement of these items has 425 bytes, and can be cut after each.
fn expect_each_cut(alloc: Global, items: &[AckItem], wanted: &[u8]) -> Result<(), Fail>
    requires few { length items.now + reported_fault_count items.now ≤ max_ack_records }
    requires fit { AllByRecursion FitsItem items.now }
{
    same("its length", &wanted.len(), &425)?;
    for size in 0..425 {
        expect_cut(alloc, items, wanted, size, true)?;
        expect_cut(alloc, items, wanted, size, false)?;
    }
    Ok(())
}

/// A thousand faults, each of a record of its own.
fn thousand_faults(alloc: Global) -> Result<Vec<Fault>, Memory>
    ensures fit { IfOk result (λ faults. AllByRecursion FitsFault faults.items) }
    ensures few { IfOk result (λ faults. length faults.items ≤ 1000) }
{
    let mut faults = Vec::new(alloc);
    for sequence in 0..1000 {
        faults.push(Fault {
            sequence,
            number: 6,
            rtype: *b"SWR",
        })?;
    }
    Ok(faults)
}

/// A thousand messages go out in three pieces. The first has 351 lines, the second 350.
#[test]
fn stops_in_each_chunk(rt: HostRuntime) -> Result<(), Fail> {
    let faults = thousand_faults(rt.alloc())?;
    let items = [rejected(b"SONG ONE", b"W1", &faults)];
    let wanted = acknowledged(rt.alloc(), &items)?;
    expect_chunks(rt.alloc(), &items, &wanted)
}

/// The acknowledgement of these items goes out in those pieces, and can be cut where they end.
fn expect_chunks(alloc: Global, items: &[AckItem], wanted: &[u8]) -> Result<(), Fail>
    requires few { length items.now + reported_fault_count items.now ≤ max_ack_records }
    requires fit { AllByRecursion FitsItem items.now }
{
    same("its length", &wanted.len(), &187_425)?;
    expect_sent(alloc, items, wanted)?;
    // The first piece ends after 360 + 348 * 187 bytes, the second after 350 * 187 more.
    for size in [
        0, 65_435, 65_436, 65_437, 130_885, 130_886, 130_887, 187_424,
    ] {
        expect_cut(alloc, items, wanted, size, true)?;
        expect_cut(alloc, items, wanted, size, false)?;
    }
    Ok(())
}
