//! The fields of fixed place in the line of an entry.

ghost use Rattle.std.specs.Prelude.{◌≡◌, length, IfSome, IfNone};
ghost use Rattle.cwr_record.specs.Columns.{field_at};
ghost use Rattle.cwr_record.specs.Layout.{StandsFor};
ghost use Rattle.cwr_record.specs.Lines.{Fits};
ghost use Rattle.work_registry.specs.RegisterColumns as column;
ghost use Rattle.work_registry.specs.RegisterLine.{head};
ghost use Rattle.work_registry.specs.declared.register.head.Head.{Head};

use super::columns;
use super::entry_line::RecordedDecision;
use super::fields::code_at;
use cwr_record::{Status, WorkKind, digits_at, field_at};
use std::marker::Model;

/// What the fields of fixed place contain.
#[derive(Clone, Copy)]
pub(crate) struct Head {
    /// The position of the entry in the register, from 1.
    pub(crate) index: u32,
    pub(crate) submitter: [u8; 11],
    pub(crate) kind: WorkKind,
    pub(crate) title: [u8; 60],
    pub(crate) number: [u8; 14],
    pub(crate) iswc: Option<u64>,
    pub(crate) control: [u64; 3],
    pub(crate) status: Status,
    /// The work that the reply names, or 0.
    pub(crate) work: u32,
    /// The version that the reply names, or 0.
    pub(crate) version: u32,
    /// How many faults follow.
    pub(crate) faults: u32,
}

/// The fields of fixed place of a line that was read. It borrows the line, and copies none of its texts.
///
/// A contract sees what the fields contain.
#[derive(Drop)]
pub(super) struct HeadInLine<'a> {
    line: &'a [u8],
    pub(super) kind: WorkKind,
    pub(super) iswc: Option<u64>,
    pub(super) control: [u64; 3],
    /// What the line records besides the call.
    pub(super) told: RecordedDecision,
    pub(super) faults: u32,
}

impl<'a> Model for HeadInLine<'a> {
    ghost use Rattle.cwr_record.specs.Columns.{field_at};
    ghost use Rattle.work_registry.specs.RegisterColumns as column;
    ghost use Rattle.work_registry.specs.declared.register.head.Head.{Head};

    ghost Value = { Head };

    ghost view = { λ h. record { index = h.told.index; submitter = field_at h.line.now column.submitter; kind = h.kind; title = field_at h.line.now column.title; number = field_at h.line.now column.number; iswc = h.iswc; control = h.control; status = h.told.status; work = h.told.work; version = h.told.version; faults = h.faults } };
}

impl HeadInLine<'_> {
    #[inline(always)]
    pub(super) fn submitter(&self) -> [u8; 11]
        ensures { result ≡ self.now.submitter }
    {
        field_at(self.line, columns::SUBMITTER).bytes()
    }

    #[inline(always)]
    pub(super) fn title(&self) -> [u8; 60]
        ensures { result ≡ self.now.title }
    {
        field_at(self.line, columns::TITLE).bytes()
    }

    #[inline(always)]
    pub(super) fn number(&self) -> [u8; 14]
        ensures { result ≡ self.now.number }
    {
        field_at(self.line, columns::NUMBER).bytes()
    }
}

/// The fields of fixed place of a line, bytes 1 to 173; `None` where one of them cannot be read.
#[inline(always)]
pub(super) fn read_head(line: &[u8]) -> Option<HeadInLine<'_>>
    ensures some { IfSome result (StandsFor head line.now) }
    ensures fits { IfSome result (Fits head) }
    ensures rights { IfSome result (λ x. length x.control ≡ 3) }
    ensures none { IfNone result ((x : Head) → StandsFor head line.now x → ⊥) }
{
    if field_at(line, columns::MARK).bytes() != *b"ENT" {
        return None;
    }
    Some(HeadInLine {
        line,
        kind: WorkKind::named(&field_at(line, columns::KIND).bytes())?,
        iswc: code_at(line, columns::ISWC)?,
        control: [
            digits_at(line, columns::PERFORMING_CONTROL)?,
            digits_at(line, columns::MECHANICAL_CONTROL)?,
            digits_at(line, columns::SYNCHRONIZATION_CONTROL)?,
        ],
        told: RecordedDecision {
            index: digits_at(line, columns::INDEX)? as u32,
            status: Status::named(&field_at(line, columns::STATUS).bytes())?,
            work: digits_at(line, columns::WORK)? as u32,
            version: digits_at(line, columns::VERSION)? as u32,
        },
        faults: digits_at(line, columns::FAULTS)? as u32,
    })
}
