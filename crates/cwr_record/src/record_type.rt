ghost use Rattle.std.specs.Prelude.{◌≡◌, ◌+◌, ◌*◌, slice_index, if◌then◌else◌};
ghost use Rattle.std.specs.List.{list_all};
ghost use Rattle.std.specs.Str.{bytes_eq};
ghost use Rattle.std.specs.Char.{is_ascii_uppercase};
ghost use Rattle.cwr_record.specs.RecordTypes.{type_of, is_other};
ghost use Rattle.cwr_record.specs.Parties.{has_ownership, has_collection};

use crate::columns::field_at;

/// The type of a record. The first three bytes of its line name it: [`RecordType::COLUMN`].
#[derive(Clone, Copy, Debug, PartialEq, Eq, Hash)]
pub enum RecordType {
    /// HDR, Transmission Header.
    Hdr,
    /// GRH, Group Header.
    Grh,
    /// GRT, Group Trailer.
    Grt,
    /// TRL, Transmission Trailer.
    Trl,
    /// NWR, New Work Registration.
    Nwr,
    /// REV, Revised Registration.
    Rev,
    /// ACK, Acknowledgement of Transaction.
    Ack,
    /// SPU, Publisher Controlled by Submitter.
    Spu,
    /// SPT, Publisher Territory of Control.
    Spt,
    /// OPU, Other Publisher.
    Opu,
    /// SWR, Writer Controlled by Submitter.
    Swr,
    /// SWT, Writer Territory of Control.
    Swt,
    /// PWR, Publisher for Writer.
    Pwr,
    /// OWR, Other Writer.
    Owr,
    /// ALT, Alternate Title.
    Alt,
    /// XRF, Work ID Cross Reference.
    Xrf,
    /// The header of another transaction: AGR, ISW or EXC.
    Other,
    /// Any other three capitals, from A to Z: a record that is carried along unread.
    Carried,
    /// No type: one of the three bytes is not a capital, or the line is too short.
    Bad,
}

impl RecordType {
    /// Whether a record of the type names a publisher or a writer and the shares that it owns: SPU, OPU, SWR, OWR.
    pub fn has_ownership(self) -> bool
        ensures { result ≡ has_ownership self }
    {
        matches!(
            self,
            RecordType::Spu | RecordType::Opu | RecordType::Swr | RecordType::Owr
        )
    }

    /// Whether a record of the type names the shares that a party collects in a territory: SPT, SWT.
    pub fn has_collection(self) -> bool
        ensures { result ≡ has_collection self }
    {
        matches!(self, RecordType::Spt | RecordType::Swt)
    }
}

/// The type of the record that a line has.
#[inline(always)]
pub fn type_of(line: &[u8]) -> RecordType
    ensures { result ≡ type_of line.now }
{
    let name = field_at(line, RecordType::COLUMN).bytes::<3>();
    if are_same(&name, b"NWR") {
        RecordType::Nwr
    } else if are_same(&name, b"REV") {
        RecordType::Rev
    } else if are_same(&name, b"SPU") {
        RecordType::Spu
    } else if are_same(&name, b"SPT") {
        RecordType::Spt
    } else if are_same(&name, b"OPU") {
        RecordType::Opu
    } else if are_same(&name, b"SWR") {
        RecordType::Swr
    } else if are_same(&name, b"SWT") {
        RecordType::Swt
    } else if are_same(&name, b"PWR") {
        RecordType::Pwr
    } else if are_same(&name, b"OWR") {
        RecordType::Owr
    } else if are_same(&name, b"ALT") {
        RecordType::Alt
    } else if are_same(&name, b"XRF") {
        RecordType::Xrf
    } else if are_same(&name, b"HDR") {
        RecordType::Hdr
    } else if are_same(&name, b"GRH") {
        RecordType::Grh
    } else if are_same(&name, b"GRT") {
        RecordType::Grt
    } else if are_same(&name, b"TRL") {
        RecordType::Trl
    } else if are_same(&name, b"ACK") {
        RecordType::Ack
    } else if is_other(&name) {
        RecordType::Other
    } else {
        unread(&name)
    }
}

/// Three bytes as one number, the first of them the most significant.
fn packed(name: &[u8; 3]) -> u32
    ensures { result ≡ slice_index name.now 0 * 65536 + slice_index name.now 1 * 256 + slice_index name.now 2 }
{
    name[0] as u32 * 65536 + name[1] as u32 * 256 + name[2] as u32
}

/// Whether two names have the same bytes. They are compared as one number each.
fn are_same(one: &[u8; 3], other: &[u8; 3]) -> bool
    ensures { result ≡ bytes_eq one.now other.now }
{
    packed(one) == packed(other)
}

/// Whether a name is that of another transaction's header.
fn is_other(name: &[u8; 3]) -> bool
    ensures { result ≡ is_other name.now }
{
    are_same(name, b"AGR") || are_same(name, b"ISW") || are_same(name, b"EXC")
}

/// The type of a record that has no layout here.
fn unread(name: &[u8; 3]) -> RecordType
    ensures { result ≡ (if list_all is_ascii_uppercase name.now then RecordType.Carried else RecordType.Bad) }
{
    if name.iter().all(|byte| byte.is_ascii_uppercase()) {
        RecordType::Carried
    } else {
        RecordType::Bad
    }
}
