//! What is kept of a transaction while its lines are read.

ghost use Rattle.std.specs.Prelude.{◌≡◌, ◌∷◌, [], List, IfSome, OnOk};
ghost use Rattle.cwr_rules.specs.declared.record.Record.{Record};
ghost use Rattle.cwr_rules.specs.Records.{record_as, record_of};
ghost use Rattle.cwr_record.specs.RecordTypes.{type_of};
ghost use Rattle.cwr_rules.specs.TransactionState.{IsStateAfter, HasRoom};

use crate::finding::Finding;
use crate::position::Position;
use crate::reading::record_as;
use crate::record::Record;
use crate::record_faults::add_findings;
use crate::summary::Summary;
use crate::whole_record::{
    bare_record, padded_front, whole_opu, whole_owr, whole_pwr, whole_spt, whole_spu, whole_swr,
    whole_swt,
};
use cwr_field::Memory;
use cwr_record::{RecordType, field_at, type_of};
use std::alloc::Allocator;

/// What is kept of a transaction's records that were read so far.
///
/// After an error it is of no use until `clear`.
#[derive(Drop)]
pub(crate) struct TransactionState<A: Allocator> {
    /// How many were read.
    pub(crate) count: u32,
    pub(crate) position: Position,
    pub(crate) summary: Summary<A>,
    pub(crate) findings: Vec<Finding, A>,
}

impl<A: Allocator + Copy> TransactionState<A> {
    /// Before the first record. No memory is asked for.
    pub(crate) fn new(alloc: A) -> TransactionState<A>
        ensures { IsStateAfter result [] }
    {
        TransactionState {
            count: 0,
            position: Position::new(),
            summary: Summary::new(alloc),
            findings: Vec::new(alloc),
        }
    }

    /// Resets it to before the first record. No memory is asked for.
    #[inline(always)]
    pub(crate) fn clear(&mut self, alloc: A)
        ensures { IsStateAfter self.new [] }
    {
        self.count = 0;
        self.position = Position::new();
        self.summary.clear(alloc);
        self.findings.clear();
    }

    /// Consumes a record.
    #[inline(always)]
    fn add(&mut self, detail: &Record) -> Result<(), Memory>
        requires room { HasRoom self.old }
        ensures { OnOk result ((before : List Record) → IsStateAfter self.old before → IsStateAfter self.new (detail.now ∷ before)) }
    {
        self.count += 1;
        add_findings(
            &mut self.findings,
            &self.summary.parties,
            self.count,
            &self.position,
            detail,
        )?;
        self.position.add(detail);
        self.summary.add(detail)?;
        Ok(())
    }

    /// Consumes a line that ends before the last field that the rules read, or is of a type without an arm in `take`.
    #[inline(never)]
    fn take_short_or_rare(&mut self, line: &[u8], record_type: RecordType) -> Result<(), Memory>
        requires room { HasRoom self.old }
        ensures { OnOk result ((before : List Record) → IsStateAfter self.old before → IsStateAfter self.new (record_as record_type line.now ∷ before)) }
    {
        match bare_record(line, record_type) {
            Some(detail) => self.add(&detail)?,
            None => self.take_padded(&padded_front(line), record_type)?,
        }
        Ok(())
    }

    /// Consumes a line of this record type. `front` has its first 150 bytes, with blanks behind the line's end
    /// (`padded_front`). Each type has an arm of its own, as in `take`, with the type as a constant.
    #[inline(never)]
    fn take_padded(&mut self, front: &[u8; 150], record_type: RecordType) -> Result<(), Memory>
        requires room { HasRoom self.old }
        ensures { OnOk result ((before : List Record) → IsStateAfter self.old before → IsStateAfter self.new (record_as record_type front.now ∷ before)) }
    {
        match record_type {
            RecordType::Spu => self.add(&record_as(front, RecordType::Spu))?,
            RecordType::Opu => self.add(&record_as(front, RecordType::Opu))?,
            RecordType::Spt => self.add(&record_as(front, RecordType::Spt))?,
            RecordType::Swr => self.add(&record_as(front, RecordType::Swr))?,
            RecordType::Owr => self.add(&record_as(front, RecordType::Owr))?,
            RecordType::Swt => self.add(&record_as(front, RecordType::Swt))?,
            RecordType::Pwr => self.add(&record_as(front, RecordType::Pwr))?,
            other => self.add(&record_as(front, other))?,
        }
        Ok(())
    }

    /// Adds the record of a line of this type. `detail` is that record where the line has each field that the rules
    /// read. With `None` it is read here, whatever the length of the line.
    #[inline(always)]
    fn add_or_read(
        &mut self,
        line: &[u8],
        record_type: RecordType,
        detail: Option<Record>,
    ) -> Result<(), Memory>
        requires room { HasRoom self.old }
        requires read { IfSome detail (λ r. r ≡ record_as record_type line.now) }
        ensures { OnOk result ((before : List Record) → IsStateAfter self.old before → IsStateAfter self.new (record_as record_type line.now ∷ before)) }
    {
        match detail {
            Some(detail) => self.add(&detail)?,
            None => self.take_short_or_rare(line, record_type)?,
        }
        Ok(())
    }

    /// Consumes a line of this record type. Each type that the rules look at has an arm of its own, with the type as a
    /// constant.
    pub(crate) fn take(&mut self, line: &[u8], record_type: RecordType) -> Result<(), Memory>
        requires room { HasRoom self.old }
        requires read { record_type ≡ type_of line.now }
        ensures { OnOk result ((before : List Record) → IsStateAfter self.old before → IsStateAfter self.new (record_of line.now ∷ before)) }
    {
        match record_type {
            RecordType::Spu => self.add_or_read(line, RecordType::Spu, whole_spu(line))?,
            RecordType::Opu => self.add_or_read(line, RecordType::Opu, whole_opu(line))?,
            RecordType::Spt => self.add_or_read(line, RecordType::Spt, whole_spt(line))?,
            RecordType::Swr => self.add_or_read(line, RecordType::Swr, whole_swr(line))?,
            RecordType::Owr => self.add_or_read(line, RecordType::Owr, whole_owr(line))?,
            RecordType::Swt => self.add_or_read(line, RecordType::Swt, whole_swt(line))?,
            RecordType::Pwr => self.add_or_read(line, RecordType::Pwr, whole_pwr(line))?,
            RecordType::Alt => self.add(&Record::Alt)?,
            RecordType::Xrf => self.add(&Record::Xrf)?,
            RecordType::Carried => {
                let name = field_at(line, RecordType::COLUMN).bytes();
                self.add(&Record::Carried(name))?;
            }
            other => self.take_short_or_rare(line, other)?,
        }
        Ok(())
    }
}
