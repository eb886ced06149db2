ghost use Rattle.std.specs.Prelude.{◌≡◌, IsTrue};
ghost use Rattle.cwr_field.specs.Iswc.{iswc_of};
ghost use Rattle.cwr_call.specs.Lawful.{is_iswc};
ghost use Rattle.cwr_record.specs.Columns.{field_at, work_head_copyright_date, work_head_duration, work_head_iswc, work_head_submitter_number, work_head_title};
ghost use Rattle.cwr_rules.specs.Head.{has_no_title, has_no_number, has_wrong_iswc, has_wrong_date, is_copyright_date, is_duration, number_in};
ghost use Rattle.cwr_rules.specs.HeaderFields.{header_fields};

use cwr_field::{Iswc, date, is_blank, iswc, time};
use cwr_record::{WorkHead, WorkKind, field_at, is_no_day};

/// What the call and the rules need of a transaction's header line, NWR or REV.
#[derive(Clone, Copy)]
pub(crate) struct HeaderFields {
    pub(crate) kind: WorkKind,
    pub(crate) title: [u8; 60],
    /// The submitter's number of the work.
    pub(crate) number: [u8; 14],
    /// The number of the ISWC; `None` where it is blank or wrong.
    pub(crate) iswc: Option<u64>,
    /// The title is blank (J2).
    pub(crate) has_no_title: bool,
    /// The submitter's number is blank (J3).
    pub(crate) has_no_number: bool,
    /// The ISWC is neither blank nor valid (J4).
    pub(crate) has_wrong_iswc: bool,
    /// The copyright date or the duration is wrong (J5).
    pub(crate) has_wrong_date: bool,
}

impl HeaderFields {
    /// The fields of a header's line.
    pub(crate) fn of(kind: WorkKind, head: &[u8]) -> HeaderFields
        ensures value { result ≡ header_fields kind head.now }
        ensures nine_digits { IsTrue (is_iswc result.iswc) }
    {
        let mut kept = HeaderFields {
            kind,
            title: [b' '; 60],
            number: [b' '; 14],
            iswc: None,
            has_no_title: true,
            has_no_number: true,
            has_wrong_iswc: false,
            has_wrong_date: false,
        };
        kept.read(kind, head);
        kept
    }

    /// Replaces the fields by those of another header's line.
    pub(crate) fn read(&mut self, kind: WorkKind, head: &[u8])
        ensures value { self.new ≡ header_fields kind head.now }
        ensures nine_digits { IsTrue (is_iswc self.new.iswc) }
    {
        let (has_wrong_iswc, iswc) = work_iswc(head);
        self.kind = kind;
        self.iswc = iswc;
        self.has_wrong_iswc = has_wrong_iswc;
        self.has_wrong_date = has_wrong_date(head);
        // The number, which stands behind the title, ends at byte 95.
        match head.first_chunk::<95>() {
            Some(front) => self.read_names(front),
            None => self.read_names(head),
        }
    }

    /// Replaces the title and the number by those of another header's line. Of a line that has both whole, as most
    /// have, `head` is the front that ends with them, so that their lengths are not tested one by one.
    #[inline(always)]
    fn read_names(&mut self, head: &[u8])
        ensures { self.new ≡ record self.old {
          title = field_at head.now work_head_title;
          number = field_at head.now work_head_submitter_number;
          has_no_title = has_no_title head.now;
          has_no_number = has_no_number head.now;
        } }
    {
        self.title = field_at(head, WorkHead::TITLE).bytes();
        self.number = field_at(head, WorkHead::SUBMITTER_NUMBER).bytes();
        self.has_no_title = has_no_title(head);
        self.has_no_number = has_no_number(head);
    }
}

/// Whether the ISWC is neither blank nor valid (J4), and its number, which is `None` where it is blank or wrong.
fn work_iswc(head: &[u8]) -> (bool, Option<u64>)
    ensures wrong { result.0 ≡ has_wrong_iswc head.now }
    ensures value { result.1 ≡ number_in (iswc_of (field_at head.now work_head_iswc)) }
    ensures nine_digits { IsTrue (is_iswc result.1) }
{
    // Many lines end before the ISWC: it is blank, and no bytes are read for it.
    if head.len() < WorkHead::ISWC.start {
        return (false, None);
    }
    match iswc(field_at(head, WorkHead::ISWC)) {
        Iswc::Valid(number) => (false, Some(number)),
        Iswc::Blank => (false, None),
        Iswc::Wrong => (true, None),
    }
}

/// Whether the title is blank (J2).
fn has_no_title(head: &[u8]) -> bool
    ensures { result ≡ has_no_title head.now }
{
    is_blank(field_at(head, WorkHead::TITLE))
}

/// Whether the submitter work number is blank (J3).
fn has_no_number(head: &[u8]) -> bool
    ensures { result ≡ has_no_number head.now }
{
    is_blank(field_at(head, WorkHead::SUBMITTER_NUMBER))
}

/// Whether the copyright date of a header's line is blank, zeros or a day, as rule J5 requires.
#[inline(always)]
pub fn is_copyright_date(head: &[u8]) -> bool
    ensures { result ≡ is_copyright_date (field_at head.now work_head_copyright_date) }
{
    let text = field_at(head, WorkHead::COPYRIGHT_DATE);
    is_no_day(&text) || date(text).is_some()
}

/// Whether the duration of a header's line is blank or a time, as rule J5 requires.
pub fn is_duration(head: &[u8]) -> bool
    ensures { result ≡ is_duration (field_at head.now work_head_duration) }
{
    let text = field_at(head, WorkHead::DURATION);
    text.is_blank() || time(text).is_some()
}

/// Whether the copyright date or the duration is wrong (J5).
fn has_wrong_date(head: &[u8]) -> bool
    ensures { result ≡ has_wrong_date head.now }
{
    // Many lines end before both: they are blank, and no bytes are read for them.
    if head.len() < WorkHead::COPYRIGHT_DATE.start {
        return false;
    }
    !(is_copyright_date(head) && is_duration(head))
}
