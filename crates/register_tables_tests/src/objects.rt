//! A register as JSON.

use crate::books::{
    ONE, OTHER, TITLE, W1, W7, decisions, expect_objects, expect_summary_object, hand_in,
};
use cwr_field::filled;
use register_tables::{Audited, Wanted, audit_json};
use std::alloc::Global;
use std::test::Fail;
use test_comparisons::same_bytes;
use work_registry::{Book, Fault, Status, WorkKind};

/// The third entry of the example in the profile's section on decisions, and the sixth and the seventh.
const THIRD: &[u8] =
    b"{\"entry\":3,\"faults\":[],\"iswc\":\"T0345246801\",\"kind\":\"REV\",\"mechanical_control\":5000,\"number\":\"W1            \",\
\"performing_control\":5000,\"status\":\"AS\",\"submitter\":\"PB000000123\",\"synchronization_control\":5000,\
\"title\":\"SONG ONE                                                    \",\"version\":2,\"work\":1}\n";

const SECOND_AND_SIXTH: &[u8] =
    b"{\"entry\":2,\"faults\":[],\"iswc\":\"T0345246801\",\"kind\":\"NWR\",\"mechanical_control\":5000,\"number\":\"W7            \",\
\"performing_control\":5000,\"status\":\"CO\",\"submitter\":\"PB000000456\",\"synchronization_control\":5000,\
\"title\":\"SONG ONE                                                    \",\"version\":null,\"work\":1}\n\
{\"entry\":6,\"faults\":[],\"iswc\":\"T0000000010\",\"kind\":\"REV\",\"mechanical_control\":5000,\"number\":\"W1            \",\
\"performing_control\":5000,\"status\":\"CO\",\"submitter\":\"PB000000123\",\"synchronization_control\":5000,\
\"title\":\"SONG ONE                                                    \",\"version\":null,\"work\":1}\n";

const SEVENTH: &[u8] =
    b"{\"entry\":7,\"faults\":[{\"record\":\"REV\",\"rule\":\"J4\",\"sequence\":0}],\"iswc\":null,\"kind\":\"REV\",\"mechanical_control\":5000,\"number\":\"W1            \",\
\"performing_control\":5000,\"status\":\"RJ\",\"submitter\":\"PB000000123\",\"synchronization_control\":5000,\
\"title\":\"SONG ONE                                                    \",\"version\":null,\"work\":null}\n";

/// The conflicts, the rejection, and the entries of a submitter that does not exist.
fn expect_narrow_objects(alloc: Global, book: &Book) -> Result<(), Fail> {
    let mut wanted = Wanted::all();
    wanted.status = Some(Status::Conflict);
    expect_objects(alloc, book, &wanted, SECOND_AND_SIXTH)?;
    wanted.status = Some(Status::Rejected);
    expect_objects(alloc, book, &wanted, SEVENTH)?;
    wanted.submitter = Some(OTHER);
    expect_objects(alloc, book, &wanted, b"")
}

#[test]
fn tells_entries_as_objects(rt: HostRuntime) -> Result<(), Fail> {
    let alloc = rt.alloc();
    let book = decisions(alloc)?;
    expect_narrow_objects(alloc, &book)
}

/// The object of a transaction in an empty book, whose texts JSON must change, with two faults and three controls.
fn expect_awkward(alloc: Global, book: &mut Book) -> Result<(), Fail> {
    let faults = [(0, 15, *b"NWR"), (12, 8, *b"SWT")];
    let faults = faults.map(|(sequence, number, rtype)| Fault {
        sequence,
        number,
        rtype,
    });
    let title = filled(b"SAY, \"CAF\xc9\" \\ \x7f\xff");
    let told = (ONE, WorkKind::Nwr, title, W7, None, [20000, 0, 5]);
    hand_in(alloc, book, told, &faults)?;
    expect_objects(
        alloc,
        book,
        &Wanted::all(),
        b"{\"entry\":1,\"faults\":[{\"record\":\"NWR\",\"rule\":\"J15\",\"sequence\":0},{\"record\":\"SWT\",\"rule\":\"J8\",\"sequence\":12}],\
\"iswc\":null,\"kind\":\"NWR\",\"mechanical_control\":0,\"number\":\"W7            \",\"performing_control\":20000,\"status\":\"RJ\",\
\"submitter\":\"PB000000123\",\"synchronization_control\":5,\"title\":\"SAY, \\\"CAF\xc3\x89\\\" \\\\ \x7f\xc3\xbf                                            \",\
\"version\":null,\"work\":null}\n",
    )
}

/// A byte above 127 is the character with its number, and a quote and a backslash have a backslash before them.
#[test]
fn tells_each_byte_as_a_character(rt: HostRuntime) -> Result<(), Fail> {
    let alloc = rt.alloc();
    expect_awkward(alloc, &mut Book::new(alloc, 100))
}

/// The works of the example, whose current claims leave nothing, and its conflicts.
#[test]
fn sums_up_decisions_as_an_object(rt: HostRuntime) -> Result<(), Fail> {
    let alloc = rt.alloc();
    let book = decisions(alloc)?;
    expect_summary_object(
        alloc,
        &book,
        b"{\"accepted\":4,\"conflicts\":2,\"current_claims\":2,\"duplicates\":0,\"entries\":7,\"largest_conflicts\":[{\"conflicts\":2,\"work\":1}],\
\"left\":{\"mechanical\":{\"all\":0,\"more_than_half\":0,\"none\":1,\"up_to_half\":0,\"up_to_quarter\":0},\
\"performing\":{\"all\":0,\"more_than_half\":0,\"none\":1,\"up_to_half\":0,\"up_to_quarter\":0},\
\"synchronization\":{\"all\":0,\"more_than_half\":0,\"none\":1,\"up_to_half\":0,\"up_to_quarter\":0}},\
\"most_entries\":[{\"entries\":5,\"submitter\":\"PB000000123\"},{\"entries\":2,\"submitter\":\"PB000000456\"}],\
\"rejected\":1,\"submitters\":2,\"works\":1}\n",
    )
}

/// The summary of two works in an empty book, of which is left, in this order of rights: nothing and 50.01 per cent,
/// 25 per cent and all, 50 and 25.01.
fn expect_bands(alloc: Global, book: &mut Book) -> Result<(), Fail> {
    let told = (ONE, WorkKind::Nwr, TITLE, W1, None, [10000, 7500, 5000]);
    hand_in(alloc, book, told, &[])?;
    let told = (ONE, WorkKind::Nwr, TITLE, W7, None, [4999, 0, 7499]);
    hand_in(alloc, book, told, &[])?;
    expect_summary_object(
        alloc,
        book,
        b"{\"accepted\":2,\"conflicts\":0,\"current_claims\":2,\"duplicates\":0,\"entries\":2,\"largest_conflicts\":[],\
\"left\":{\"mechanical\":{\"all\":1,\"more_than_half\":0,\"none\":0,\"up_to_half\":0,\"up_to_quarter\":1},\
\"performing\":{\"all\":0,\"more_than_half\":1,\"none\":1,\"up_to_half\":0,\"up_to_quarter\":0},\
\"synchronization\":{\"all\":0,\"more_than_half\":0,\"none\":0,\"up_to_half\":2,\"up_to_quarter\":0}},\
\"most_entries\":[{\"entries\":2,\"submitter\":\"PB000000123\"}],\
\"rejected\":0,\"submitters\":1,\"works\":2}\n",
    )
}

#[test]
fn tells_what_is_left_as_an_object(rt: HostRuntime) -> Result<(), Fail> {
    let alloc = rt.alloc();
    expect_bands(alloc, &mut Book::new(alloc, 100))
}

/// What an audit found.
#[test]
fn tells_an_audit_as_an_object(rt: HostRuntime) -> Result<(), Fail> {
    let alloc = rt.alloc();
    let text = audit_json(alloc, Audited::Entries(2))?;
    same_bytes("of entries", &text, b"{\"entries\":2,\"fault\":null}\n")?;
    let text = audit_json(
        alloc,
        Audited::Fault {
            number: 3,
            line: 12,
        },
    )?;
    same_bytes(
        "of a fault",
        &text,
        b"{\"entries\":null,\"fault\":{\"line\":12,\"rule\":\"G3\"}}\n",
    )
}
