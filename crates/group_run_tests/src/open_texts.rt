//! Readers and writers that are open from their first read or write until they are told that their text has ended.
ghost use Rattle.std.specs.Prelude.{◌≡◌, None, false};

use byte_streams::{Failed, ReadCount, Sink, Source};
use std::sync::atomic::{AtomicU64, Ordering};

/// The number of texts that are open, and the most that were at any time.
#[derive(Drop)]
pub(crate) struct OpenTexts {
    open: AtomicU64,
    most: AtomicU64,
}

impl OpenTexts {
    /// None is open.
    pub(crate) fn none() -> OpenTexts {
        OpenTexts {
            open: AtomicU64::new(0),
            most: AtomicU64::new(0),
        }
    }

    /// One more is open.
    fn open_one(&self) {
        let open = self.open.fetch_add(1, Ordering::SeqCst).wrapping_add(1);
        self.most.fetch_max(open, Ordering::SeqCst);
    }

    /// One is open no more.
    fn close_one(&self) {
        self.open.fetch_sub(1, Ordering::SeqCst);
    }

    /// How many are open.
    pub(crate) fn open(&self) -> u64 {
        self.open.load(Ordering::SeqCst)
    }

    /// The most that were open at any time.
    pub(crate) fn most(&self) -> u64 {
        self.most.load(Ordering::SeqCst)
    }
}

/// One text: whether it is open, and how often it was told that it has ended.
#[derive(Drop)]
pub(crate) struct Text<'a> {
    texts: &'a OpenTexts,
    is_open: bool,
    ends: u32,
}

impl<'a> Text<'a> {
    /// A text that is not open, and was not told anything.
    pub(crate) fn closed(texts: &'a OpenTexts) -> Text<'a> {
        Text {
            texts,
            is_open: false,
            ends: 0,
        }
    }

    /// Opens it, if it is not open.
    fn open(&mut self) {
        if !self.is_open {
            self.is_open = true;
            self.texts.open_one();
        }
    }

    /// Counts that it has ended, and closes it.
    fn end(&mut self) {
        self.ends = self.ends.saturating_add(1);
        if self.is_open {
            self.is_open = false;
            self.texts.close_one();
        }
    }

    /// How often it was told that it has ended.
    pub(crate) fn ends(&self) -> u32 {
        self.ends
    }
}

/// A source over bytes in memory.
#[derive(Drop)]
pub(crate) struct OpenReader<'a> {
    pub(crate) left: &'a [u8],
    pub(crate) text: Text<'a>,
    /// Whether its first read fails.
    pub(crate) fails: bool,
    pub(crate) failed: bool,
    pub(crate) reads: ReadCount,
}

impl Source for OpenReader<'_> {
    ghost left = { λ _. None };

    ghost reads = { λ s. s.reads };

    ghost has_failed = { λ s. s.failed };

    fn failed(&self) -> bool {
        self.failed
    }

    fn read_some(&mut self, room: &mut [u8]) -> Result<usize, Failed> {
        self.reads.count();
        self.text.open();
        if self.fails {
            self.failed = true;
            return Err(Failed);
        }
        let n = self.left.len().min(room.len());
        let (given, left) = self.left.split_at(n);
        room[..n].copy_from_slice(given);
        self.left = left;
        Ok(n)
    }

    fn end_text(&mut self) {
        self.text.end();
    }
}

/// A sink that takes all bytes, or none.
#[derive(Drop)]
pub(crate) struct OpenWriter<'a> {
    pub(crate) text: Text<'a>,
    /// Whether its first write fails.
    pub(crate) fails: bool,
    pub(crate) failed: bool,
}

impl Sink for OpenWriter<'_> {
    ghost taken = { λ _. None };

    ghost has_failed = { λ s. s.failed };

    fn failed(&self) -> bool {
        self.failed
    }

    fn write_some(&mut self, bytes: &[u8]) -> Result<usize, Failed> {
        self.text.open();
        if self.fails {
            self.failed = true;
            return Err(Failed);
        }
        Ok(bytes.len())
    }

    fn end_text(&mut self) {
        self.text.end();
    }
}
