ghost use Rattle.std.specs.Prelude.{◌≡◌, ◌∷◌, ℕ, List, [], IsTrue};
ghost use Rattle.cwr_report.specs.Latest.{latest_of};

use cwr_record::{Publisher, RecordType, Writer, field_at, type_of};

/// What the earlier lines of a transaction say that a rule needs. Blanks, if there was no such line.
#[derive(Clone, Copy)]
pub(crate) struct Latest {
    /// The interested party number of the last SPU.
    pub(crate) publisher: [u8; 9],
    /// That of the last SWR.
    pub(crate) writer: [u8; 9],
    /// The type of the last record that says what may follow.
    pub(crate) leading: [u8; 3],
}

impl Latest {
    /// Before the first line.
    pub(crate) fn new() -> Latest
        ensures { result ≡ latest_of [] }
    {
        Latest {
            publisher: *b"         ",
            writer: *b"         ",
            leading: *b"   ",
        }
    }

    /// Consumes a line.
    fn add(&mut self, line: &[u8])
        ensures { (before : List (List ℕ)) → self.old ≡ latest_of before → self.new ≡ latest_of (line.now ∷ before) }
    {
        match type_of(line) {
            RecordType::Spt | RecordType::Swt | RecordType::Pwr | RecordType::Carried => return,
            RecordType::Spu => self.publisher = field_at(line, Publisher::PARTY).bytes(),
            RecordType::Swr => self.writer = field_at(line, Writer::PARTY).bytes(),
            _ => {}
        }
        self.leading = field_at(line, RecordType::COLUMN).bytes();
    }

    /// Consumes a line, if what the lines say is kept.
    #[inline(always)]
    pub(crate) fn add_where(&mut self, keeps: bool, line: &[u8])
        ensures { IsTrue keeps → (before : List (List ℕ)) → self.old ≡ latest_of before → self.new ≡ latest_of (line.now ∷ before) }
    {
        if keeps {
            self.add(line);
        }
    }
}
