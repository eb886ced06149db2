//! What a book says, found by going through its history.

use work_registry::{Call, Claim, Entry, Reply, WorkKind};

/// The work that an entry was accepted for.
fn accepted(entry: &Entry) -> Option<u32> {
    match entry.reply() {
        Reply::Accepted { work, version: _ } => Some(work),
        Reply::Duplicate { .. } | Reply::Conflict { .. } | Reply::Rejected => None,
    }
}

fn is_of_key(entry: &Entry, submitter: &[u8; 11], number: &[u8; 14]) -> bool {
    entry.call().number() == *number && entry.call().submitter() == *submitter
}

/// Whether some entry is accepted under a key.
fn has_row(entries: &[Entry], submitter: &[u8; 11], number: &[u8; 14]) -> bool {
    for entry in entries {
        if is_of_key(entry, submitter, number) && accepted(entry).is_some() {
            return true;
        }
    }
    false
}

/// The last entry accepted under a key, and the number of such entries.
pub(crate) fn claim(entries: &[Entry], submitter: &[u8; 11], number: &[u8; 14]) -> Option<Claim> {
    let mut found = None;
    let mut version: u32 = 0;
    for entry in entries {
        if !is_of_key(entry, submitter, number) {
            continue;
        }
        if let Some(work) = accepted(entry) {
            version = version.saturating_add(1);
            found = Some(Claim {
                work,
                version,
                control: entry.call().control(),
            });
        }
    }
    found
}

/// The work of the last accepted entry with an ISWC.
pub(crate) fn work_of_iswc(entries: &[Entry], iswc: u64) -> Option<u32> {
    let mut found = None;
    for entry in entries {
        if entry.call().iswc() == Some(iswc) {
            found = accepted(entry).or(found);
        }
    }
    found
}

/// The ISWC of the last accepted entry of a work that has one.
fn iswc_of(entries: &[Entry], work: u32) -> Option<u64> {
    let mut found = None;
    for entry in entries {
        if accepted(entry) == Some(work) {
            found = entry.call().iswc().or(found);
        }
    }
    found
}

/// The number of works: each that an entry is accepted for has a number, from 1 on.
fn works(entries: &[Entry]) -> u32 {
    let mut greatest = 0;
    for entry in entries {
        if let Some(work) = accepted(entry) {
            greatest = greatest.max(work);
        }
    }
    greatest
}

fn add(sum: &mut [u64; 3], control: [u64; 3]) {
    sum[0] = sum[0].saturating_add(control[0]);
    sum[1] = sum[1].saturating_add(control[1]);
    sum[2] = sum[2].saturating_add(control[2]);
}

/// The control of a work, by the accepted entries that no later one of their key replaces. Those of one call's key can
/// be left out.
pub(crate) fn control_of(entries: &[Entry], work: u32, without: Option<&Call>) -> [u64; 3] {
    let mut sum = [0; 3];
    for place in 0..entries.len() {
        let entry = &entries[place];
        if accepted(entry) != Some(work) || is_left_out(entry, without) {
            continue;
        }
        let submitter = entry.call().submitter();
        let number = entry.call().number();
        if !has_row(&entries[place + 1..], &submitter, &number) {
            add(&mut sum, entry.call().control());
        }
    }
    sum
}

fn is_left_out(entry: &Entry, without: Option<&Call>) -> bool {
    match without {
        None => false,
        Some(call) => is_of_key(entry, &call.submitter(), &call.number()),
    }
}

fn is_over(sum: [u64; 3]) -> bool {
    sum[0] > 10006 || sum[1] > 10006 || sum[2] > 10006
}

/// The reply to a call for a work. Its key has been accepted `versions` times.
fn reply_for_work(entries: &[Entry], call: &Call, work: u32, versions: u32) -> Reply {
    let mut sum = control_of(entries, work, Some(call));
    add(&mut sum, call.control());
    if is_over(sum) {
        return Reply::Conflict { work };
    }
    Reply::Accepted {
        work,
        version: versions.saturating_add(1),
    }
}

/// Whether the ISWC of a call is that of another work, or the work has another.
fn clashes(entries: &[Entry], call: &Call, work: u32) -> bool {
    let Some(iswc) = call.iswc() else {
        return false;
    };
    let named = work_of_iswc(entries, iswc);
    let had = iswc_of(entries, work);
    (named.is_some() && named != Some(work)) || (had.is_some() && had != Some(iswc))
}

/// The reply to a call after these entries.
pub(crate) fn reply(entries: &[Entry], call: &Call) -> Reply {
    if !call.faults().is_empty() {
        return Reply::Rejected;
    }
    let Some(claim) = claim(entries, &call.submitter(), &call.number()) else {
        let named = call.iswc().and_then(|iswc| work_of_iswc(entries, iswc));
        let work = named.unwrap_or(works(entries).saturating_add(1));
        return reply_for_work(entries, call, work, 0);
    };
    match call.kind() {
        WorkKind::Nwr => Reply::Duplicate { work: claim.work },
        WorkKind::Rev => {
            if clashes(entries, call, claim.work) {
                return Reply::Conflict { work: claim.work };
            }
            reply_for_work(entries, call, claim.work, claim.version)
        }
    }
}
