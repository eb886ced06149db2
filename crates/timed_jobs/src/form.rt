//! Transactions to be filled in.

use crate::digits::{eight, five, nine, put};
use cwr_field::Memory;
use std::alloc::Global;

/// What ends each line of a file.
pub(crate) type LineEnd = &'static [u8];

/// The end of a line as CWR has it.
pub(crate) const CRLF: LineEnd = b"\r\n";

/// The end of a line as many programs write it, without CR.
pub(crate) const LF: LineEnd = b"\n";

/// A field of a record: its first column, from 1, and its bytes.
type Field<'a> = (usize, &'a [u8]);

/// The records of a transaction as a text, which is copied for each work and then filled in.
#[derive(Drop)]
pub(crate) struct Form {
    text: Vec<u8>,
    /// Where each record begins.
    starts: Vec<usize>,
    /// The number of records.
    records: u32,
    line_end: LineEnd,
}

impl Form {
    /// The header of a work, of this record type, whose title, number and ISWC are not filled in.
    pub(crate) fn new(alloc: Global, kind: &[u8], line_end: LineEnd) -> Result<Form, Memory> {
        Form::dated(alloc, kind, line_end, b"20010203", b"000330")
    }

    /// The same, with a copyright date and duration. `alloc` allocates, `kind` is the record type of the header, and
    /// `line_end` ends each line. `date` and `duration` are the bytes of these fields.
    pub(crate) fn dated<'f>(
        alloc: Global,
        kind: &[u8],
        line_end: LineEnd,
        date: &'f [u8],
        duration: &'f [u8],
    ) -> Result<Form, Memory> {
        let mut form = Form {
            text: Vec::new(alloc),
            starts: Vec::new(alloc),
            records: 0,
            line_end,
        };
        form.push(kind, 194, &[(107, date), (130, duration), (136, b"U")])?;
        Ok(form)
    }

    /// The records, one after the other.
    pub(crate) fn text(&self) -> &[u8] {
        &self.text
    }

    /// Where each record begins.
    pub(crate) fn starts(&self) -> &[usize] {
        &self.starts
    }

    /// The number of records.
    pub(crate) fn records(&self) -> u32 {
        self.records
    }

    /// Appends a record of this type and width with these fields, and with blanks between them.
    pub(crate) fn push(
        &mut self,
        kind: &[u8],
        width: usize,
        fields: &[Field],
    ) -> Result<(), Memory> {
        let start = self.text.len();
        self.starts.push(start)?;
        for _ in 0..width {
            self.text.push(b' ')?;
        }
        self.put(start, 1, kind);
        self.put(start, 4, b"00000000");
        self.put(start, 12, &eight(self.records));
        for (column, field) in fields {
            self.put(start, *column, field);
        }
        self.text.extend_from_slice(self.line_end)?;
        self.records = self.records.saturating_add(1);
        Ok(())
    }

    /// Puts a field at a column of the record that begins there.
    fn put(&mut self, start: usize, column: usize, field: &[u8]) {
        let at = start.saturating_add(column.saturating_sub(1));
        put(self.text.as_mut_slice(), at, field);
    }

    /// Appends a publisher with this share of each right, and the territory where it collects that.
    fn push_publisher(&mut self, party: u32, share: u32) -> Result<(), Memory> {
        self.push_publisher_alone(&nine(party), &five(share))?;
        self.push_publisher_territory(&nine(party), &five(share))
    }

    fn push_publisher_alone<'f>(
        &mut self,
        party: &'f [u8; 9],
        share: &'f [u8; 5],
    ) -> Result<(), Memory> {
        self.push(
            b"SPU",
            136,
            &[
                (20, b"01"),
                (22, party),
                (31, b"MUSIC HOUSE"),
                (77, b"E"),
                (116, share),
                (124, share),
                (132, share),
            ],
        )
    }

    fn push_publisher_territory<'f>(
        &mut self,
        party: &'f [u8; 9],
        share: &'f [u8; 5],
    ) -> Result<(), Memory> {
        self.push(
            b"SPT",
            58,
            &[
                (20, party),
                (35, share),
                (40, share),
                (45, share),
                (50, b"I2136"),
                (56, b"001"),
            ],
        )
    }

    /// Appends a writer of the submitter with this share of each right.
    pub(crate) fn push_writer(&mut self, party: u32, share: u32) -> Result<(), Memory> {
        self.push_any_writer(b"SWR", party, share)
    }

    /// Appends another writer with this share of each right.
    pub(crate) fn push_other_writer(&mut self, party: u32, share: u32) -> Result<(), Memory> {
        self.push_any_writer(b"OWR", party, share)
    }

    fn push_any_writer(&mut self, kind: &[u8], party: u32, share: u32) -> Result<(), Memory> {
        let (party, share) = (nine(party), five(share));
        self.push(
            kind,
            150,
            &[
                (20, &party),
                (29, b"DOE"),
                (74, b"JANE"),
                (105, b"CA"),
                (130, &share),
                (138, &share),
                (146, &share),
            ],
        )
    }

    /// Appends the territory where a writer collects this share, and the link to the writer's publisher.
    fn push_collection(&mut self, party: u32, share: u32, publisher: u32) -> Result<(), Memory> {
        self.push_writer_territory(&nine(party), &five(share), b"I2136")?;
        self.push_link(&nine(party), &nine(publisher))
    }

    /// Appends a writer's territory: the party, the share of each right that is collected, and the TIS code with its
    /// indicator in front of it.
    pub(crate) fn push_writer_territory<'f>(
        &mut self,
        party: &'f [u8; 9],
        share: &'f [u8; 5],
        territory: &'f [u8; 5],
    ) -> Result<(), Memory> {
        self.push(
            b"SWT",
            52,
            &[
                (20, party),
                (29, share),
                (34, share),
                (39, share),
                (44, territory),
                (50, b"001"),
            ],
        )
    }

    fn push_link<'f>(&mut self, party: &'f [u8; 9], publisher: &'f [u8; 9]) -> Result<(), Memory> {
        self.push(
            b"PWR",
            110,
            &[(20, publisher), (29, b"MUSIC HOUSE"), (102, party)],
        )
    }
}

/// A work of two records: its header, and a writer who has all of it.
pub(crate) fn thin(alloc: Global, kind: &[u8], line_end: LineEnd) -> Result<Form, Memory> {
    let mut form = Form::new(alloc, kind, line_end)?;
    form.push_writer(1, 10_000)?;
    Ok(form)
}

/// A work of which the submitter has this share, and another writer the rest.
pub(crate) fn part(
    alloc: Global,
    kind: &[u8],
    line_end: LineEnd,
    share: u32,
) -> Result<Form, Memory> {
    let mut form = Form::new(alloc, kind, line_end)?;
    form.push_writer(1, share)?;
    form.push_other_writer(2, 10_000u32.saturating_sub(share))?;
    Ok(form)
}

/// A work of 3 to 20 records: publishers, writers, where they collect, other titles and cross-references. The number of
/// each follows from `number`: any sixteen numbers in a row give each count of publishers, none to three, with each
/// count of writers, one to four.
pub(crate) fn mixed(
    alloc: Global,
    number: u32,
    kind: &[u8],
    line_end: LineEnd,
) -> Result<Form, Memory> {
    let mut form = Form::new(alloc, kind, line_end)?;
    let publishers = number % 4;
    for publisher in 0..publishers {
        form.push_publisher(100 + publisher, 5_000 / publishers.max(1))?;
    }
    let writers = 1 + number / 4 % 4;
    let half = if publishers == 0 { 10_000 } else { 5_000 };
    for writer in 0..writers {
        let share = half / writers.max(1);
        form.push_writer(writer + 1, share)?;
        if publishers > 0 {
            form.push_collection(writer + 1, share, 100)?;
        }
    }
    for _ in 0..1 + number % 5 % 2 {
        form.push(b"ALT", 83, &[(20, b"ANOTHER TITLE"), (80, b"AT")])?;
    }
    if number % 3 == 1 {
        form.push(b"XRF", 38, &[(20, b"052ID12345"), (37, b"WY")])?;
    }
    Ok(form)
}

/// Sixteen works of 3 to 20 records, the same ones with every seed: so every catalogue is of nearly the same size.
pub(crate) fn many_mixed(
    alloc: Global,
    kind: &[u8],
    line_end: LineEnd,
) -> Result<Vec<Form>, Memory> {
    let mut forms = Vec::new(alloc);
    for number in 0..16 {
        forms.push(mixed(alloc, number, kind, line_end)?)?;
    }
    Ok(forms)
}
