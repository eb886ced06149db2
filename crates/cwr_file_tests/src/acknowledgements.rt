//! Acknowledgement files of worked examples, byte for byte.

ghost use Rattle.std.specs.Prelude.{◌≡◌, ◌+◌, ◌<◌, ◌≤◌, ◌^◌, [], false, length};
ghost use Rattle.std.specs.List.{AllByRecursion};
ghost use Rattle.cwr_acknowledgement.specs.AckItem.{is_rejected, reported_faults};
ghost use Rattle.cwr_acknowledgement.specs.Acknowledgement.{FitsItem, FitsFault, reported_fault_count, max_ack_records};

use crate::sent::expect_sent;
use cwr_field::{cut, date, put_text, time};
use cwr_file::{AckItem, Fault, Faults, Header, Lines, Memory, Stamp, Status, WorkKind, ack_file};
use cwr_record::{read_header, read_message};
use std::alloc::Global;
use std::test::Fail;
use test_comparisons::{same, same_bytes, same_lists};

/// Both first lines, which the stamp alone determines.
const START: &str = "\
    HDRSO000000000CWR REGISTRY~33~01.102024060109000020240601~15~2.2001CWR REGISTRY~18~1.0~27~\r\n\
    GRHACK0000102.200000000000~2~\r\n";

/// Every ACK line up to its transaction sequence, and from there to the acknowledged file's group.
const ONE: &str = "ACK00000000000000002024050112000000001";

const TWO: &str = "ACK00000001000000002024050112000000001";

/// These texts one after another, with `~n~` in place of n blanks.
fn spelled(alloc: Global, texts: &[&str]) -> Result<Vec<u8>, Memory> {
    let mut out = Vec::new(alloc);
    for text in texts {
        put_spelled(&mut out, text)?;
    }
    Ok(out)
}

/// The same of one text.
fn put_spelled(out: &mut Vec<u8>, text: &str) -> Result<(), Memory> {
    let mut count: Option<usize> = None;
    for byte in text.as_bytes() {
        count = match (count, *byte) {
            (None, b'~') => Some(0),
            (None, byte) => {
                out.push(byte)?;
                None
            }
            (Some(count), b'~') => {
                put_text(out, b"", count)?;
                None
            }
            (Some(count), digit) => Some(
                count
                    .wrapping_mul(10)
                    .wrapping_add(digit.wrapping_sub(b'0') as usize),
            ),
        };
    }
    Ok(())
}

pub(crate) fn header(alloc: Global) -> Result<Header, Fail> {
    let line = spelled(
        alloc,
        &["HDRPB000000123PUBLISHER A~34~01.102024050112000020240501"],
    )?;
    Ok(read_header(&line)?)
}

pub(crate) fn stamp() -> Result<Stamp, Fail> {
    let day = date(cut(b"20240601", 1, 8)).ok_or("a day")?;
    let clock = time(cut(b"090000", 1, 6)).ok_or("a time")?;
    Ok(Stamp::new(0, b"CWR REGISTRY", day, clock).ok_or("a stamp")?)
}

/// An item of the first group that is not rejected, for a work that the submitter calls W1.
pub(crate) fn item(sequence: u32, kind: WorkKind, status: Status) -> AckItem<'static>
    requires sequence { sequence < 10 ^ 8 }
    requires status { is_rejected status ≡ false }
    ensures fits { FitsItem result }
    ensures told { reported_faults result ≡ [] }
{
    AckItem {
        group: 1,
        sequence,
        kind,
        title: cut(b"SONG ONE", 1, 60).bytes(),
        number: cut(b"W1", 1, 14).bytes(),
        status,
        work: Some(1),
        faults: &[],
    }
}

fn fault(sequence: u32, number: u8, rtype: [u8; 3]) -> Fault
    ensures { (result.sequence ≡ sequence) × (result.number ≡ number) }
{
    Fault {
        sequence,
        number,
        rtype,
    }
}

/// A rejected item: the first of the first group.
pub(crate) fn rejected<'a>(title: &[u8], number: &[u8], faults: &'a [Fault]) -> AckItem<'a>
    requires { AllByRecursion FitsFault faults.now }
    ensures fits { FitsItem result }
    ensures told { reported_faults result ≡ faults.now }
{
    AckItem {
        group: 1,
        sequence: 0,
        kind: WorkKind::Nwr,
        title: cut(title, 1, 60).bytes(),
        number: cut(number, 1, 14).bytes(),
        status: Status::Rejected,
        work: None,
        faults,
    }
}

/// The acknowledgement of these items.
pub(crate) fn acknowledged(alloc: Global, items: &[AckItem]) -> Result<Vec<u8>, Fail>
    requires few { length items.now + reported_fault_count items.now ≤ max_ack_records }
    requires fit { AllByRecursion FitsItem items.now }
{
    Ok(ack_file(alloc, &stamp()?, &header(alloc)?, items)?)
}

/// The acknowledgement of these items must be these texts, with its memory allocated once, and the same when it is
/// sent.
fn expect_text(alloc: Global, items: &[AckItem], wanted: &[&str]) -> Result<(), Fail>
    requires few { length items.now + reported_fault_count items.now ≤ max_ack_records }
    requires fit { AllByRecursion FitsItem items.now }
{
    let text = acknowledged(alloc, items)?;
    expect_spelled(alloc, &text, wanted)?;
    expect_sent(alloc, items, &text)
}

/// An acknowledgement must be these texts, and have no more capacity than it needs.
fn expect_spelled(alloc: Global, text: &Vec<u8>, wanted: &[&str]) -> Result<(), Fail> {
    same_bytes("an acknowledgement", text, &spelled(alloc, wanted)?)?;
    same("its room", &text.capacity(), &text.len())
}

/// The acknowledgement of one work that is registered.
const REGISTERED: [&str; 5] = [
    START,
    ONE,
    "00000000NWRSONG ONE~52~W1~18~00000001~12~20240601AS\r\n",
    "GRT000010000000100000003~13~\r\n",
    "TRL000010000000100000005\r\n",
];

#[test]
fn acknowledges_one_work(rt: HostRuntime) -> Result<(), Fail> {
    same("its length", &spelled(rt.alloc(), &REGISTERED)?.len(), &425)?;
    let items = [item(0, WorkKind::Nwr, Status::Accepted)];
    expect_text(rt.alloc(), &items, &REGISTERED)
}

#[test]
fn acknowledges_no_work(rt: HostRuntime) -> Result<(), Fail> {
    expect_text(
        rt.alloc(),
        &[],
        &[
            START,
            "GRT000010000000000000002~13~\r\n",
            "TRL000010000000000000004\r\n",
        ],
    )
}

#[test]
fn acknowledges_a_work_twice(rt: HostRuntime) -> Result<(), Fail> {
    let items = [
        item(0, WorkKind::Nwr, Status::Accepted),
        item(1, WorkKind::Nwr, Status::Duplicate),
    ];
    expect_text(
        rt.alloc(),
        &items,
        &[
            START,
            ONE,
            "00000000NWRSONG ONE~52~W1~18~00000001~12~20240601AS\r\n",
            TWO,
            "00000001NWRSONG ONE~52~W1~18~00000001~12~20240601DU\r\n",
            "GRT000010000000200000004~13~\r\n",
            "TRL000010000000200000006\r\n",
        ],
    )
}

#[test]
fn acknowledges_a_conflict(rt: HostRuntime) -> Result<(), Fail> {
    let items = [item(0, WorkKind::Rev, Status::Conflict)];
    expect_text(
        rt.alloc(),
        &items,
        &[
            START,
            ONE,
            "00000000REVSONG ONE~52~W1~18~00000001~12~20240601CO\r\n",
            "GRT000010000000100000003~13~\r\n",
            "TRL000010000000100000005\r\n",
        ],
    )
}

/// A header alone: no title, no number, no writer.
#[test]
fn tells_three_faults(rt: HostRuntime) -> Result<(), Fail> {
    let faults = [
        fault(0, 2, *b"NWR"),
        fault(0, 3, *b"NWR"),
        fault(0, 10, *b"NWR"),
    ];
    let items = [rejected(b"", b"", &faults)];
    expect_text(
        rt.alloc(),
        &items,
        &[
            START,
            ONE,
            "00000000NWR~100~20240601RJ\r\n",
            "MSG0000000000000001T00000000NWRT002TITLE IS BLANK~136~\r\n",
            "MSG0000000000000002T00000000NWRT003SUBMITTER WORK NUMBER IS BLANK~120~\r\n",
            "MSG0000000000000003T00000000NWRT010NO WRITER~141~\r\n",
            "GRT000010000000100000006~13~\r\n",
            "TRL000010000000100000008\r\n",
        ],
    )
}

/// The writer's record, with a share of 10001.
#[test]
fn tells_a_share(rt: HostRuntime) -> Result<(), Fail> {
    let faults = [fault(1, 6, *b"SWR")];
    let items = [rejected(b"SONG ONE", b"W1", &faults)];
    expect_text(
        rt.alloc(),
        &items,
        &[
            START,
            ONE,
            "00000000NWRSONG ONE~52~W1~38~20240601RJ\r\n",
            "MSG0000000000000001T00000001SWRT006SHARE IS NOT VALID~132~\r\n",
            "GRT000010000000100000004~13~\r\n",
            "TRL000010000000100000006\r\n",
        ],
    )
}

/// An item in conflict, which has faults all the same.
fn in_conflict(faults: &[Fault]) -> AckItem<'_>
    ensures fits { FitsItem result }
    ensures told { reported_faults result ≡ [] }
{
    AckItem {
        group: 1,
        sequence: 0,
        kind: WorkKind::Nwr,
        title: cut(b"SONG ONE", 1, 60).bytes(),
        number: cut(b"W1", 1, 14).bytes(),
        status: Status::Conflict,
        work: None,
        faults,
    }
}

/// The acknowledgement of these items has these faults, and no others.
fn expect_told(alloc: Global, items: &[AckItem], wanted: &[Fault]) -> Result<(), Fail>
    requires few { length items.now + reported_fault_count items.now ≤ max_ack_records }
    requires fit { AllByRecursion FitsItem items.now }
{
    expect_messages(&acknowledged(alloc, items)?, wanted)
}

/// A message has this fault.
fn expect_message(line: &[u8], fault: &Fault) -> Result<(), Fail> {
    let message = read_message(line)?;
    same("a sequence", &message.original_record, &fault.sequence)?;
    same(
        "a number",
        &message.validation_number,
        &(fault.number as u16),
    )?;
    same("a type", &message.record_type, &fault.rtype)
}

/// The messages of an acknowledgement have these faults, and no others.
fn expect_messages(text: &[u8], wanted: &[Fault]) -> Result<(), Fail> {
    let mut told: usize = 0;
    for line in Lines::of(text) {
        if line.starts_with(b"MSG") {
            expect_message(line, wanted.get(told).ok_or("one fault too many")?)?;
            told = told.saturating_add(1);
        }
    }
    same("messages", &told, &wanted.len())
}

const TWO_FAULTS: [Fault; 2] = [
    Fault {
        sequence: 1,
        number: 1,
        rtype: *b"SWT",
    },
    Fault {
        sequence: 1,
        number: 6,
        rtype: *b"SWR",
    },
];

/// Faults go into an item and come out again as they were.
#[test]
fn keeps_faults(rt: HostRuntime) -> Result<(), Fail> {
    let faults = Faults::new(TWO_FAULTS.to_vec(rt.alloc())?);
    same_lists("faults", faults.as_slice(), &TWO_FAULTS)?;
    same_lists("faults", &faults.into_vec(), &TWO_FAULTS)
}

/// The acknowledgement has those of a rejected item.
#[test]
fn tells_the_faults_of_a_rejected_item(rt: HostRuntime) -> Result<(), Fail> {
    let items = [rejected(b"SONG ONE", b"W1", &TWO_FAULTS)];
    expect_told(rt.alloc(), &items, &TWO_FAULTS)
}

/// It has those of no other item.
#[test]
fn tells_no_faults_of_a_conflict(rt: HostRuntime) -> Result<(), Fail> {
    let items = [in_conflict(&TWO_FAULTS)];
    expect_told(rt.alloc(), &items, &[])
}
