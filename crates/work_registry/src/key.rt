ghost use Rattle.work_registry.specs.KeyWrites.{key_writes, same-writes};

use std::hash::{Hash, Hasher};

/// A submitter and the submitter's number of a work: the key of a claim.
#[derive(Clone, Copy, PartialEq, Eq)]
pub(crate) struct Key {
    /// Sender type and sender id of the file's HDR.
    pub(crate) submitter: [u8; 11],
    /// The submitter work number of NWR or REV.
    pub(crate) number: [u8; 14],
}

/// Each text is hashed as one, not byte by byte.
impl Hash for Key {
    ghost hash_input = { key_writes };

    ghost respects_eq = { same-writes };

    fn hash<H: Hasher>(&self, state: &mut H) {
        state.write(&self.submitter);
        state.write(&self.number);
    }
}
