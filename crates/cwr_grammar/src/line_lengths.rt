ghost use Rattle.std.specs.Prelude.{◌<◌};

/// How many slots there are for the names of records.
const SLOTS: usize = 64;

/// How many bytes the last line of each record type had. The next line of that type mostly has as many.
///
/// This is a guess that the search for a line's end tries first. No contract rests on it.
#[derive(Drop)]
pub(crate) struct LineLengths {
    /// The lengths, by the slot of the record's name. Names that share a slot only spoil each other's guess.
    last: [usize; SLOTS],
}

impl LineLengths {
    /// Before the first line.
    pub(crate) fn new() -> LineLengths {
        LineLengths { last: [0; SLOTS] }
    }

    /// The guess for the length in bytes of the line at the front of a text.
    #[inline(always)]
    pub(crate) fn guess(&self, text: &[u8]) -> usize {
        self.last[slot(text)]
    }

    /// Keeps the length of a line.
    #[inline(always)]
    pub(crate) fn pass(&mut self, line: &[u8]) {
        self.last[slot(line)] = line.len();
    }
}

/// The slot of the name that a line begins with. Most names of CWR's details have a slot of their own.
#[inline(always)]
fn slot(line: &[u8]) -> usize
    ensures { result < 64 }
{
    match line {
        [first, second, third, ..] => {
            (*first as usize + 3 * (*second as usize + *third as usize)) % SLOTS
        }
        _ => 0,
    }
}
