//! The bytes of a source, through a window.

ghost use Rattle.std.specs.Prelude.{◌≡◌, ◌+◌, ◌-◌, ◌≤◌, ◌<◌, ◌++◌, List, ℕ, [], true, false, length, take, drop, vec_len, IfOk, IfErr, OnOk};
ghost use Rattle.std.specs.Io.KnownBytes.{IsAtEnd};
ghost use Rattle.byte_streams.specs.GivenBytes.{HasGiven};
ghost use Rattle.byte_streams.specs.Window.{HasRead, IsRest, IsStopped, between, size_with_room};

use crate::{ReadRefused, Source};
use cwr_field::{Memory, line_end};
use std::alloc::{Allocator, Global};
use std::marker::Model;

/// How many bytes a window has at first, unless its capacity is less.
const FIRST_ROOM: usize = 8192;

/// The bytes of a source that were read and not passed yet.
///
/// It begins small, grows to its capacity for a source that fills it, and grows beyond that only for a line that is
/// longer. A contract sees the bytes that are held, how many were read, the limit, and whether the source has ended.
#[derive(Drop)]
pub struct Window<A: Allocator = Global> {
    bytes: Vec<u8, A>,
    /// Its size in bytes, unless a line is longer.
    capacity: usize,
    /// Where the bytes that were read and not passed begin (`start`) and end (`end`).
    start: usize,
    end: usize,
    read: usize,
    limit: usize,
    is_ended: bool,
}

impl<A: Allocator> Model for Window<A> {
    ghost use Rattle.std.specs.Prelude.{◌≤◌, vec_len};
    ghost use Rattle.byte_streams.specs.Window.{WindowState, between};

    ghost Value = { WindowState };

    ghost view = { λ w. record { held = between w.bytes.items w.start w.end; read = w.read; limit = w.limit; is_ended = w.is_ended } };

    ghost invariant = { λ w. (w.start ≤ w.end) × (w.end ≤ vec_len w.bytes) };
}

impl<A: Allocator> Window<A> {
    /// A window on a source of at most `limit` bytes, of which none was read. It has at most `capacity` bytes, unless a
    /// line is longer.
    pub fn new(alloc: A, limit: usize, capacity: usize) -> Result<Window<A>, Memory>
        ensures { IfOk result (λ window. window ≡ record { held = []; read = 0; limit = limit; is_ended = false }) }
    {
        Ok(Window {
            bytes: vec![in alloc; 0; capacity.min(FIRST_ROOM)]?,
            capacity,
            start: 0,
            end: 0,
            read: 0,
            limit,
            is_ended: false,
        })
    }

    /// Reads to the end of the source, and keeps none of its bytes.
    pub fn drain<R: Source>(&mut self, reader: &mut R) -> Result<(), ReadRefused>
        requires going { R.has_failed reader.old ≡ false }
        requires at_end { self.old.is_ended ≡ true → IsAtEnd (R.left reader.old) }
        requires within { self.old.read ≤ self.old.limit }
        ensures rest { OnOk result ((rest : List ℕ) × IsRest self.old (R.left reader.old) (R.left reader.new) rest) }
        ensures stopped { IfErr result (IsStopped self.old (R.left reader.old) (R.left reader.new) (R.has_failed reader.new)) }
        ensures going { OnOk result (R.has_failed reader.new ≡ false) }
        ensures read_on { HasGiven (R.left reader.old) (R.left reader.new) }
        ensures few_reads { R.reads reader.new + self.old.read ≤ R.reads reader.old + self.old.limit + 1 }
        ensures none { self.old.is_ended ≡ true → R.reads reader.new ≡ R.reads reader.old }
    {
        while !self.is_ended {
            self.start = self.end;
            self.fill(reader)?;
        }
        Ok(())
    }

    /// Whether the source has ended.
    pub fn is_ended(&self) -> bool
        ensures { result ≡ self.now.is_ended }
    {
        self.is_ended
    }

    /// The bytes that were read and not passed.
    pub fn held(&self) -> &[u8]
        ensures { result.now ≡ self.now.held }
    {
        &self.bytes[self.start..self.end]
    }

    /// Passes the first `count` of the bytes that are held: they are held no longer.
    pub fn pass(&mut self, count: usize)
        requires { count ≤ length self.old.held }
        ensures { self.new ≡ record self.old { held = drop count self.old.held } }
    {
        self.start += count;
    }

    /// Reads behind the bytes that are held, until an LF was read or the source has ended.
    ///
    /// So a long line is searched once, however few bytes a read gives.
    pub fn fill_line<R: Source>(&mut self, reader: &mut R) -> Result<(), ReadRefused>
        requires going { R.has_failed reader.old ≡ false }
        requires open { self.old.is_ended ≡ false }
        requires within { self.old.read ≤ self.old.limit }
        ensures read { OnOk result ((chunk : List ℕ) × HasRead self.old self.new (R.left reader.old) (R.left reader.new) chunk) }
        ensures stopped { IfErr result (IsStopped self.old (R.left reader.old) (R.left reader.new) (R.has_failed reader.new)) }
        ensures going { OnOk result (R.has_failed reader.new ≡ false) }
        ensures read_on { HasGiven (R.left reader.old) (R.left reader.new) }
        ensures few_reads { R.reads reader.new + self.old.read ≤ R.reads reader.old + self.old.limit + 1 }
        ensures counted { OnOk result (R.reads reader.new + self.old.read ≤ R.reads reader.old + self.new.read + 1) }
        ensures each { OnOk result (self.new.is_ended ≡ false → R.reads reader.new + self.old.read ≤ R.reads reader.old + self.new.read) }
    {
        let mut seen = self.held().len();
        self.fill(reader)?;
        while !self.is_ended && line_end(&self.held()[seen..]).is_none() {
            seen = self.held().len();
            self.fill(reader)?;
        }
        Ok(())
    }

    /// Reads once, behind the bytes that are held.
    fn fill<R: Source>(&mut self, reader: &mut R) -> Result<(), ReadRefused>
        requires going { R.has_failed reader.old ≡ false }
        requires within { self.old.read ≤ self.old.limit }
        ensures read { OnOk result ((chunk : List ℕ) × HasRead self.old self.new (R.left reader.old) (R.left reader.new) chunk) }
        ensures stopped { IfErr result (IsStopped self.old (R.left reader.old) (R.left reader.new) (R.has_failed reader.new)) }
        ensures going { OnOk result (R.has_failed reader.new ≡ false) }
        ensures read_on { HasGiven (R.left reader.old) (R.left reader.new) }
        ensures counted { R.reads reader.new ≤ R.reads reader.old + 1 }
    {
        let Ok(()) = make_room(&mut self.bytes, self.start, self.end, self.capacity) else {
            return Err(ReadRefused::Memory);
        };
        let end = self.end - self.start;
        self.start = 0;
        self.end = end;
        match reader.read_some(&mut self.bytes[end..]) {
            Err(_) => Err(ReadRefused::Read),
            Ok(n) if n > self.limit - self.read => Err(ReadRefused::TooLong),
            Ok(n) => {
                self.end = end + n;
                self.read += n;
                self.is_ended = n == 0;
                Ok(())
            }
        }
    }
}

/// Moves the bytes from `start` to `end` to the front of a window, and makes the window larger where it is full.
///
/// A window below `capacity` whose bytes reach its end grows to `capacity`. Any other window that is full of held bytes
/// doubles, and an empty one gets one byte.
fn make_room<A: Allocator>(
    bytes: &mut Vec<u8, A>,
    start: usize,
    end: usize,
    capacity: usize,
) -> Result<(), Memory>
    requires ordered { start ≤ end }
    requires inside { end ≤ vec_len bytes.old }
    ensures kept { OnOk result (take (end - start) bytes.new.items ≡ between bytes.old.items start end) }
    ensures room { OnOk result (end - start < vec_len bytes.new) }
    ensures no_smaller { vec_len bytes.old ≤ vec_len bytes.new }
    ensures size { OnOk result (vec_len bytes.new ≡ size_with_room (vec_len bytes.old) start end capacity) }
{
    let size = bytes.len();
    if start > 0 {
        bytes.copy_within(start..end, 0);
    }
    if end == size && size < capacity {
        bytes.resize(capacity, 0)?;
    } else if end - start == size {
        bytes.resize(if size == 0 { 1 } else { 2 * size }, 0)?;
    }
    Ok(())
}
