ghost use Rattle.std.specs.Prelude.{◌≡◌, ◌+◌, ◌≤◌, ◌<◌, ◌==◌, ◌^◌, ◌⊎◌, ℕ, List, Some, None, true, false, drop, length, map, IfOk, IfErr, OnOk};
ghost use Rattle.std.specs.List.{position};
ghost use Rattle.std.specs.Str.Lines.{lines};
ghost use Rattle.cwr_grammar.specs.Awaited.{next_detail, next_header};
ghost use Rattle.cwr_grammar.specs.Counted.{counts_of, AreSmall};
ghost use Rattle.cwr_grammar.specs.FaultTests.{has_control, is_file_header, is_tail};
ghost use Rattle.cwr_grammar.specs.File.{IsPlain};
ghost use Rattle.cwr_grammar.specs.FirstFault.{line_fault};
ghost use Rattle.cwr_grammar.specs.ReadUpTo.{IsNextLine, IsPast, IsReadUpTo, StandsAt, HeadAfter, at_start};
ghost use Rattle.cwr_record.specs.RecordTypes.{type_of};
ghost use Rattle.cwr_grammar.specs.Roles.{role_of};
ghost use Rattle.cwr_grammar.specs.Spans.{IsLineAt, Placed};
ghost use Rattle.cwr_grammar.specs.Submitted.{IsRefusal};
ghost use Rattle.cwr_grammar.specs.Visiting.{WasGiven};
ghost use Rattle.cwr_grammar.specs.declared.refusal.FileRefusal.TheVariants.{Fault};
ghost use Rattle.cwr_grammar.specs.declared.role.Role.TheVariants.{FileHeader};

use crate::awaited::{Awaited, PREFIX_SIZE};
use crate::envelope::Envelope;
use crate::fault::{LONGEST_LINE, fault_of, is_tail};
use crate::file_counts::FileCounts;
use crate::line_lengths::LineLengths;
use crate::lines::{FirstLine, first_line_near};
use crate::refusal::FileRefusal;
use crate::role::{Role, leaves_open, role_at};
use crate::span::{Open, Span, take_line};
use crate::visitor::{Visitor, give};
use cwr_record::{Header, RecordType, WorkKind, read_header, type_of};
use std::alloc::Allocator;
use std::marker::Model;

/// Reads a file whose bytes come a chunk at a time, and gives its header and its transactions to a visitor as it comes
/// to them.
///
/// It keeps no byte of the file but its header. A file that comes as one text is read by
/// [`visit_file`](crate::visit_file). After an error it is of no further use.
#[derive(Drop)]
pub struct FileReader {
    counts: FileCounts,
    /// The sequence numbers of the next detail.
    awaited: Awaited,
    /// A transaction is open.
    is_open: bool,
    /// The file's head, once its line was read.
    header: Option<Header>,
    /// How many lines follow the file's end.
    tail: u64,
}

impl Model for FileReader {
    ghost use Rattle.std.specs.Prelude.{◌≡◌, true, false};
    ghost use Rattle.cwr_grammar.specs.Awaited.{Awaits};
    ghost use Rattle.cwr_grammar.specs.ReadUpTo.{ReaderState};

    ghost Value = { ReaderState };

    ghost view = { λ r. record { counts = r.counts; is_open = r.is_open; header = r.header; tail = r.tail } };

    ghost invariant = { λ r. Awaits r.counts r.awaited × (r.is_open ≡ true → r.counts.is_ended ≡ false) };
}

impl FileReader {
    /// Before the first line.
    pub fn new() -> FileReader
        ensures { result ≡ at_start }
    {
        FileReader {
            counts: FileCounts::new(),
            awaited: Awaited::new(),
            is_open: false,
            header: None,
            tail: 0,
        }
    }

    /// Consumes the complete lines at the front of the bytes, up to the last LF, and returns how many bytes these are.
    /// The bytes behind them are part of a line: they must come again, at the front of the next bytes.
    ///
    /// A fault is the file's first, whatever follows. No memory is asked for but by the visitor.
    pub fn take_lines<V: Visitor>(
        &mut self,
        visitor: &mut V,
        bytes: &[u8],
    ) -> Result<usize, FileRefusal>
        requires { (first : V) × (text : List ℕ) × (at : ℕ) × IsReadUpTo (V.keeps first visitor.old) self.old text at × StandsAt bytes.now text at × (at + length bytes.now < 2 ^ 63) }
        ensures inside { IfOk result (λ n. n ≤ length bytes.now) }
        ensures all { IfOk result (λ n. position (λ b. b == 10) (drop n bytes.now) ≡ None) }
        ensures taken { IfOk result (λ n. (first : V) (text : List ℕ) (at : ℕ) → StandsAt bytes.now text at → IsReadUpTo (V.keeps first visitor.old) self.old text at → IsReadUpTo (V.keeps first visitor.new) self.new text (at + n)) }
        ensures fault { IfErr result (λ refusal. (first : V) (text : List ℕ) (at : ℕ) → StandsAt bytes.now text at → IsReadUpTo (V.keeps first visitor.old) self.old text at → IsRefusal (lines text) refusal) }
    {
        let mut lengths = LineLengths::new();
        let mut at = 0;
        let mut guess = lengths.guess(bytes);
        while let Some(line) = first_line_near(&bytes[at..], guess) {
            if !line.is_whole {
                return Ok(at);
            }
            if line.bytes.len() != guess {
                lengths.pass(line.bytes);
            }
            self.take_line(visitor, line.bytes, line.is_clean)?;
            at += line.size;
            guess = lengths.guess(&bytes[at..]);
        }
        Ok(at)
    }

    /// Consumes the last bytes of the file, and returns its envelope.
    ///
    /// The visitor was then given the header and all transactions of a well-formed file, in order. Of any other file
    /// the first fault is returned, and what the visitor was given belongs to no file. No memory is asked for but by
    /// the visitor.
    pub fn finish<V: Visitor>(
        mut self,
        visitor: &mut V,
        last: &[u8],
    ) -> Result<Envelope, FileRefusal>
        requires { (first : V) × (text : List ℕ) × (at : ℕ) × IsReadUpTo (V.keeps first visitor.old) self text at × (drop at text ≡ last.now) × (at + length last.now < 2 ^ 63) }
        ensures given { IfOk result (λ envelope. (first : V) (text : List ℕ) (at : ℕ) → drop at text ≡ last.now → IsReadUpTo (V.keeps first visitor.old) self text at
            → WasGiven (V.keeps first visitor.new) text envelope.header envelope.groups envelope.records) }
        ensures fault { IfErr result (λ refusal. (first : V) (text : List ℕ) (at : ℕ) → drop at text ≡ last.now → IsReadUpTo (V.keeps first visitor.old) self text at → IsRefusal (lines text) refusal) }
    {
        let mut lengths = LineLengths::new();
        let mut at = 0;
        while let Some(line) = first_line_near(&last[at..], lengths.guess(&last[at..])) {
            lengths.pass(line.bytes);
            self.take_line(visitor, line.bytes, line.is_clean)?;
            at += line.size;
        }
        self.envelope()
    }

    /// The envelope of a file of which no line is left. It is a fault where the file lacks its end.
    pub(crate) fn envelope(self) -> Result<Envelope, FileRefusal>
        requires few { self.counts.lines < 2 ^ 63 }
        requires ended { self.counts.is_ended ≡ true → (self.counts.groups < 10 ^ 5) × (self.counts.lines < 10 ^ 8) × (self.header ≡ None → ⊥) }
        ensures found { IfOk result (λ envelope. (self.counts.is_ended ≡ true) × (self.header ≡ Some envelope.header) × (envelope.groups ≡ self.counts.groups) × (envelope.records ≡ self.counts.lines)) }
        ensures fault { IfErr result (λ refusal. (self.counts.is_ended ≡ false) × (number : ℕ) × (refusal ≡ Fault number (self.counts.lines + 1)) × (((self.counts.lines ≡ 0) × (number ≡ 1)) ⊎ ((0 < self.counts.lines) × (number ≡ 11)))) }
    {
        let FileReader {
            counts,
            awaited: _,
            is_open: _,
            header,
            tail: _,
        } = self;
        if !counts.is_ended {
            return Err(FileRefusal::Fault {
                number: if counts.lines == 0 { 1 } else { 11 },
                line: counts.lines + 1,
            });
        }
        let Some(header) = header else { unreachable!() };
        Ok(Envelope {
            header,
            groups: counts.groups as u32,
            records: counts.lines as u32,
        })
    }

    /// Consumes the next line.
    #[inline(always)]
    fn take_line<V: Visitor>(
        &mut self,
        visitor: &mut V,
        line: &[u8],
        is_clean: bool,
    ) -> Result<(), FileRefusal>
        requires clean { is_clean ≡ true → has_control line.now ≡ false }
        requires next { (first : V) × (text : List ℕ) × (at : ℕ) × (n : ℕ) × IsReadUpTo (V.keeps first visitor.old) self.old text at × IsNextLine line.now text at n × (at + n < 2 ^ 63) }
        ensures taken { OnOk result ((first : V) (text : List ℕ) (at n : ℕ) → IsNextLine line.now text at n → IsReadUpTo (V.keeps first visitor.old) self.old text at → IsReadUpTo (V.keeps first visitor.new) self.new text (at + n)) }
        ensures fault { IfErr result (λ refusal. (first : V) (text : List ℕ) (at n : ℕ) → IsNextLine line.now text at n → IsReadUpTo (V.keeps first visitor.old) self.old text at → IsRefusal (lines text) refusal) }
    {
        // Most lines are the next detail of the open transaction, and most others the header of the next one.
        if self.is_open && is_plain(line, is_clean) {
            let record_type = type_of(line);
            if self.awaited.is_next(&self.counts, record_type, line) {
                return self.take_detail(visitor, line, record_type);
            }
            if let Some(kind) = self.awaited.next_kind(&self.counts, record_type, line) {
                return self.take_header(visitor, line, record_type, kind);
            }
        }
        self.take_other(visitor, line, is_clean)
    }

    /// Consumes the next detail of the open transaction, which therefore has no fault.
    #[inline(always)]
    fn take_detail<V: Visitor>(
        &mut self,
        visitor: &mut V,
        line: &[u8],
        record_type: RecordType,
    ) -> Result<(), FileRefusal>
        requires opened { self.old.is_open ≡ true }
        requires goes { self.old.counts.is_ended ≡ false }
        requires plain { IsPlain line.now }
        requires read { record_type ≡ type_of line.now }
        requires role { role_of line.now ≡ next_detail self.old.counts }
        requires next { (first : V) × (text : List ℕ) × (at : ℕ) × (n : ℕ) × IsReadUpTo (V.keeps first visitor.old) self.old text at × IsNextLine line.now text at n × (at + n < 2 ^ 63) }
        ensures taken { OnOk result ((first : V) (text : List ℕ) (at n : ℕ) → IsNextLine line.now text at n → IsReadUpTo (V.keeps first visitor.old) self.old text at → IsReadUpTo (V.keeps first visitor.new) self.new text (at + n)) }
        ensures fault { IfErr result (λ refusal. (first : V) (text : List ℕ) (at n : ℕ) → IsNextLine line.now text at n → IsReadUpTo (V.keeps first visitor.old) self.old text at → IsRefusal (lines text) refusal) }
    {
        visitor.detail(line, record_type)?;
        self.pass_detail();
        Ok(())
    }

    /// Consumes the next detail of the open transaction: counts it, without a visitor.
    #[inline(always)]
    fn pass_detail(&mut self)
        requires opened { self.old.is_open ≡ true }
        requires small { AreSmall self.old.counts }
        ensures { (line : List ℕ) → IsPast self.old self.new line (next_detail self.old.counts) }
    {
        self.awaited.pass_line(&self.counts);
        self.counts.add_line();
    }

    /// Consumes the header of the transaction that comes next in the group of the open one, which therefore has no
    /// fault.
    #[inline(never)]
    fn take_header<V: Visitor>(
        &mut self,
        visitor: &mut V,
        line: &[u8],
        record_type: RecordType,
        kind: WorkKind,
    ) -> Result<(), FileRefusal>
        requires opened { self.old.is_open ≡ true }
        requires goes { self.old.counts.is_ended ≡ false }
        requires plain { IsPlain line.now }
        requires read { record_type ≡ type_of line.now }
        requires kind { self.old.counts.kind ≡ Some kind }
        requires role { role_of line.now ≡ next_header kind self.old.counts }
        requires next { (first : V) × (text : List ℕ) × (at : ℕ) × (n : ℕ) × IsReadUpTo (V.keeps first visitor.old) self.old text at × IsNextLine line.now text at n × (at + n < 2 ^ 63) }
        ensures taken { OnOk result ((first : V) (text : List ℕ) (at n : ℕ) → IsNextLine line.now text at n → IsReadUpTo (V.keeps first visitor.old) self.old text at → IsReadUpTo (V.keeps first visitor.new) self.new text (at + n)) }
        ensures fault { IfErr result (λ refusal. (first : V) (text : List ℕ) (at n : ℕ) → IsNextLine line.now text at n → IsReadUpTo (V.keeps first visitor.old) self.old text at → IsRefusal (lines text) refusal) }
    {
        let role = Role::TransactionHeader(Some(kind), Some(self.counts.transactions), Some(0));
        self.take_clear(visitor, line, record_type, role)
    }

    /// Consumes the next line, whatever it is.
    #[inline(never)]
    fn take_other<V: Visitor>(
        &mut self,
        visitor: &mut V,
        line: &[u8],
        is_clean: bool,
    ) -> Result<(), FileRefusal>
        requires clean { is_clean ≡ true → has_control line.now ≡ false }
        requires next { (first : V) × (text : List ℕ) × (at : ℕ) × (n : ℕ) × IsReadUpTo (V.keeps first visitor.old) self.old text at × IsNextLine line.now text at n × (at + n < 2 ^ 63) }
        ensures taken { OnOk result ((first : V) (text : List ℕ) (at n : ℕ) → IsNextLine line.now text at n → IsReadUpTo (V.keeps first visitor.old) self.old text at → IsReadUpTo (V.keeps first visitor.new) self.new text (at + n)) }
        ensures fault { IfErr result (λ refusal. (first : V) (text : List ℕ) (at n : ℕ) → IsNextLine line.now text at n → IsReadUpTo (V.keeps first visitor.old) self.old text at → IsRefusal (lines text) refusal) }
    {
        if self.counts.is_ended {
            self.take_tail(line)?;
            return Ok(());
        }
        let record_type = type_of(line);
        let role = self.clear_role(record_type, line, is_clean)?;
        if let Role::FileHeader(_) = role {
            self.take_file_header(visitor, line);
            return Ok(());
        }
        self.take_clear(visitor, line, record_type, role)
    }

    /// Consumes the file's header, which has no fault, and therefore is its first line.
    #[cold]
    #[inline(never)]
    fn take_file_header<V: Visitor>(&mut self, visitor: &mut V, line: &[u8])
        requires goes { self.old.counts.is_ended ≡ false }
        requires role { role_of line.now ≡ FileHeader true }
        requires clear { (before : List (List ℕ)) → self.old.counts ≡ counts_of (map role_of before) → None ≡ line_fault before line.now }
        requires next { (first : V) × (text : List ℕ) × (at : ℕ) × (n : ℕ) × IsReadUpTo (V.keeps first visitor.old) self.old text at × IsNextLine line.now text at n × (at + n < 2 ^ 63) }
        ensures { (first : V) (text : List ℕ) (at n : ℕ) → IsNextLine line.now text at n → IsReadUpTo (V.keeps first visitor.old) self.old text at → IsReadUpTo (V.keeps first visitor.new) self.new text (at + n) }
    {
        self.pass(line, &Role::FileHeader(true));
        let Some(header) = &self.header else {
            unreachable!()
        };
        visitor.header(header);
    }

    /// Consumes the next line, of this role, which has no fault and is not the file's header.
    #[inline(always)]
    fn take_clear<V: Visitor>(
        &mut self,
        visitor: &mut V,
        line: &[u8],
        record_type: RecordType,
        role: Role,
    ) -> Result<(), FileRefusal>
        requires goes { self.old.counts.is_ended ≡ false }
        requires read { record_type ≡ type_of line.now }
        requires role { role ≡ role_of line.now }
        requires behind { is_file_header role ≡ false }
        requires clear { (before : List (List ℕ)) → self.old.counts ≡ counts_of (map role_of before) → None ≡ line_fault before line.now }
        requires next { (first : V) × (text : List ℕ) × (at : ℕ) × (n : ℕ) × IsReadUpTo (V.keeps first visitor.old) self.old text at × IsNextLine line.now text at n × (at + n < 2 ^ 63) }
        ensures taken { OnOk result ((first : V) (text : List ℕ) (at n : ℕ) → IsNextLine line.now text at n → IsReadUpTo (V.keeps first visitor.old) self.old text at → IsReadUpTo (V.keeps first visitor.new) self.new text (at + n)) }
        ensures fault { IfErr result (λ refusal. (first : V) (text : List ℕ) (at n : ℕ) → IsNextLine line.now text at n → IsReadUpTo (V.keeps first visitor.old) self.old text at → IsRefusal (lines text) refusal) }
    {
        give(
            visitor,
            self.is_open,
            line,
            record_type,
            &role,
            &self.counts,
        )?;
        self.pass(line, &role);
        Ok(())
    }

    /// Consumes the next line, and appends the span of the transaction that it ends. Returns the transaction that is
    /// open then.
    ///
    /// - `spans` are the spans of the transactions that have ended.
    /// - `current` is the open transaction, or `None`.
    /// - `at` is the index of the line's first byte in the file, counted from 0.
    /// - `line` is the line.
    pub(crate) fn place_line<A: Allocator>(
        &mut self,
        spans: &mut Vec<Span, A>,
        current: Option<Open>,
        at: usize,
        line: &FirstLine<'_>,
    ) -> Result<Option<Open>, FileRefusal>
        requires clean { line.now.is_clean ≡ true → has_control line.now.bytes.now ≡ false }
        requires next { (text : List ℕ) × IsReadUpTo (λ _. Placed text spans.old.items current at) self.old text at × IsNextLine line.now.bytes.now text at line.now.size × (at + line.now.size < 2 ^ 63) }
        ensures taken { IfOk result (λ next. (text : List ℕ) → IsNextLine line.now.bytes.now text at line.now.size → IsLineAt line.now.bytes.now text at line.now.size → IsReadUpTo (λ _. Placed text spans.old.items current at) self.old text at
            → IsReadUpTo (λ _. Placed text spans.new.items next (at + line.now.size)) self.new text (at + line.now.size)) }
        ensures fault { IfErr result (λ refusal. (text : List ℕ) → IsNextLine line.now.bytes.now text at line.now.size → IsReadUpTo (λ _. Placed text spans.old.items current at) self.old text at → IsRefusal (lines text) refusal) }
    {
        if self.is_next_detail(line) {
            self.pass_detail();
            return Ok(current);
        }
        if self.counts.is_ended {
            self.take_tail(line.bytes)?;
            return Ok(current);
        }
        let role = self.clear_role(type_of(line.bytes), line.bytes, line.is_clean)?;
        let next = take_line(spans, current, at, &role, &self.counts)?;
        self.pass(line.bytes, &role);
        Ok(next)
    }

    /// Whether the next line is the next detail of the open transaction, which therefore has no fault.
    #[inline(always)]
    fn is_next_detail(&self, line: &FirstLine<'_>) -> bool
        requires clean { line.now.is_clean ≡ true → has_control line.now.bytes.now ≡ false }
        requires small { self.now.is_open ≡ true → AreSmall self.now.counts }
        ensures { result ≡ true → (self.now.is_open ≡ true) × (self.now.counts.is_ended ≡ false) × IsPlain line.now.bytes.now × (role_of line.now.bytes.now ≡ next_detail self.now.counts) }
    {
        self.is_open
            && is_plain(line.bytes, line.is_clean)
            && self
                .awaited
                .is_next(&self.counts, type_of(line.bytes), line.bytes)
    }

    /// The role of the next line, which comes before the file's end; or its fault.
    #[inline(always)]
    fn clear_role(
        &self,
        record_type: RecordType,
        line: &[u8],
        is_clean: bool,
    ) -> Result<Role, FileRefusal>
        requires clean { is_clean ≡ true → has_control line.now ≡ false }
        requires goes { self.now.counts.is_ended ≡ false }
        requires small { AreSmall self.now.counts }
        requires read { record_type ≡ type_of line.now }
        ensures role { IfOk result (λ role. role ≡ role_of line.now) }
        ensures clear { OnOk result ((before : List (List ℕ)) → self.now.counts ≡ counts_of (map role_of before) → None ≡ line_fault before line.now) }
        ensures fault { IfErr result (λ refusal. (number : ℕ) × (refusal ≡ Fault number (self.now.counts.lines + 1)) × ((before : List (List ℕ)) → self.now.counts ≡ counts_of (map role_of before) → Some number ≡ line_fault before line.now)) }
    {
        let role = role_at(record_type, line);
        if let Some(number) = fault_of(&self.counts, line, is_clean, &role) {
            return Err(FileRefusal::Fault {
                number,
                line: self.counts.lines + 1,
            });
        }
        Ok(role)
    }

    /// Consumes a line of this role, which has no fault.
    #[inline(always)]
    fn pass(&mut self, line: &[u8], role: &Role)
        requires role { role.now ≡ role_of line.now }
        requires goes { self.old.counts.is_ended ≡ false }
        requires clear { (before : List (List ℕ)) × (self.old.counts ≡ counts_of (map role_of before)) × (None ≡ line_fault before line.now) × (length before < 2 ^ 63) }
        ensures { IsPast self.old self.new line.now role.now }
    {
        keep_header(&mut self.header, role, line);
        self.awaited.pass(&self.counts, role);
        self.counts.add(role);
        self.is_open = leaves_open(role);
    }

    /// Consumes a line that follows the file's end.
    fn take_tail(&mut self, line: &[u8]) -> Result<(), FileRefusal>
        requires few { self.old.counts.lines + self.old.tail < 2 ^ 63 }
        ensures taken { OnOk result (is_tail line.now ≡ true) }
        ensures new { OnOk result (self.new ≡ record self.old { tail = self.old.tail + 1 }) }
        ensures faulty { IfErr result (λ refusal. (is_tail line.now ≡ false) × (refusal ≡ Fault 11 (self.old.counts.lines + self.old.tail + 1))) }
    {
        if !is_tail(line) {
            return Err(FileRefusal::Fault {
                number: 11,
                line: self.counts.lines + self.tail + 1,
            });
        }
        self.tail += 1;
        Ok(())
    }
}

/// Whether a line has no fault of its own, and is long enough for record type and sequence numbers. Then these columns
/// are read without a test of each.
#[inline(always)]
fn is_plain(line: &[u8], is_clean: bool) -> bool
    requires { is_clean ≡ true → has_control line.now ≡ false }
    ensures { result ≡ true → IsPlain line.now }
{
    is_clean && line.len() >= PREFIX_SIZE && line.len() <= LONGEST_LINE
}

/// Keeps the file's header, where a line is one.
#[inline(always)]
fn keep_header(head: &mut Option<Header>, role: &Role, line: &[u8])
    requires read { role.now ≡ role_of line.now }
    requires valid { role.now ≡ FileHeader false → ⊥ }
    ensures { HeadAfter head.old role.now line.now head.new }
{
    let Role::FileHeader(_) = *role else {
        return;
    };
    let Ok(header) = read_header(line) else {
        unreachable!()
    };
    *head = Some(header);
}
