ghost use Rattle.std.specs.Prelude.{◌≡◌, ◌≤◌, ◌+◌};
ghost use Rattle.cwr_remarks.specs.Layouts.{last_of, layout_of, past_layout};

use crate::remark::Remarked;
use cwr_record::{
    Ack, AltTitle, Column, CrossRef, FileTrailer, GroupHead, GroupTrailer, Header, Link, Publisher,
    PublisherTerritory, RecordType, WorkHead, Writer, WriterTerritory,
};

/// That a line of this length is longer than the layout of its type, if that has one.
pub(crate) fn past_layout(length: usize, record_type: RecordType) -> Option<Remarked>
    ensures { result ≡ past_layout length (layout_of record_type) }
{
    let layout = layout_of(record_type)?;
    if length <= layout {
        return None;
    }
    Some(Remarked::PastLayout {
        length: length as u64,
        layout: layout as u64,
    })
}

/// The position of the last byte of a type's layout.
fn layout_of(record_type: RecordType) -> Option<usize>
    ensures { result ≡ layout_of record_type }
{
    let last = match record_type {
        RecordType::Hdr => Header::SOFTWARE_VERSION,
        RecordType::Grh => GroupHead::SUBMISSION_TYPE,
        RecordType::Grt => GroupTrailer::MONETARY_VALUE,
        RecordType::Trl => FileTrailer::RECORDS,
        RecordType::Nwr | RecordType::Rev => WorkHead::CONTACT_ID,
        RecordType::Ack => Ack::STATUS,
        RecordType::Spu | RecordType::Opu => Publisher::SYNCHRONIZATION_OWNERSHIP,
        RecordType::Spt => PublisherTerritory::SEQUENCE,
        RecordType::Swr | RecordType::Owr => Writer::SYNCHRONIZATION_OWNERSHIP,
        RecordType::Swt => WriterTerritory::SEQUENCE,
        RecordType::Pwr => Link::WRITER_PARTY,
        RecordType::Alt => AltTitle::LANGUAGE,
        RecordType::Xrf => CrossRef::VALIDITY,
        RecordType::Other | RecordType::Carried | RecordType::Bad => return None,
    };
    Some(last_of(last))
}

fn last_of(column: Column) -> usize
    requires { column.start + column.width ≤ 5000 }
    ensures { result ≡ last_of column }
{
    (column.start + column.width).saturating_sub(1)
}
