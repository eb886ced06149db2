//! Judges a transaction line by line.

ghost use Rattle.std.specs.Prelude.{◌≡◌, ◌+◌, ◌∷◌, ◌++◌, ◌≤◌, ℕ, [], List, length, IsTrue, IfOk, OnOk};
ghost use Rattle.cwr_call.specs.Lawful.{is_clean};
ghost use Rattle.cwr_field.specs.Number.{max_count};
ghost use Rattle.cwr_grammar.specs.RawParts.{RawParts};
ghost use Rattle.cwr_record.specs.RecordTypes.{type_of};
ghost use Rattle.cwr_record.specs.declared.works.WorkKind.{WorkKind};
ghost use Rattle.cwr_rules.specs.Added.{added_in};
ghost use Rattle.cwr_rules.specs.Calls.{call_in, call_of};
ghost use Rattle.cwr_rules.specs.Faults.{faults_of};
ghost use Rattle.cwr_rules.specs.HeaderFields.{header_fields};
ghost use Rattle.cwr_rules.specs.Judging.{IsJudging};
ghost use Rattle.cwr_rules.specs.TransactionState.{IsKeptWhole};
ghost use Rattle.cwr_rules.specs.declared.record.Record.{Record};

use crate::added::{AddedShares, first_over};
use crate::header::HeaderFields;
use crate::reading::parts;
use crate::standing::push_standing;
use crate::transaction_faults::push_transaction_faults;
use crate::transaction_state::TransactionState;
use cwr_call::{Call, Fault, Faults};
use cwr_field::Memory;
use cwr_grammar::RawTransaction;
use cwr_record::{RecordType, WorkKind};
use std::alloc::{Allocator, Global};
use std::marker::Model;

/// Judges a transaction line by line: it is given the header's line, and then each detail's.
///
/// It borrows no line. After an error it is of no use until [`TransactionJudge::restart`].
#[derive(Drop)]
pub struct TransactionJudge<A: Allocator = Global> {
    header: HeaderFields,
    read: TransactionState<A>,
    alloc: A,
}

impl<A: Allocator> Model for TransactionJudge<A> {
    ghost use Rattle.cwr_rules.specs.Collected.{entries_in};
    ghost use Rattle.cwr_rules.specs.Judging.{JudgeState};

    ghost Value = { JudgeState };

    ghost view = { λ j. record {
      header = j.header;
      count = j.read.count;
      position = j.read.position;
      sums = j.read.summary.sums;
      first_party = j.read.summary.parties.first;
      parties = j.read.summary.parties.set.keys;
      first_code = j.read.summary.collected.first;
      codes = entries_in j.read.summary.collected.others;
      is_over = j.read.summary.collected.is_over;
      findings = j.read.findings.items;
    } };
}

impl<A: Allocator + Copy> TransactionJudge<A> {
    /// Begins at the header's line, which has no byte below 32. Nothing is allocated.
    #[inline(always)]
    pub fn begin(alloc: A, kind: WorkKind, head: &[u8]) -> TransactionJudge<A>
        requires clean { IsTrue (is_clean head.now) }
        ensures { IsJudging result kind (head.now ∷ []) }
    {
        TransactionJudge {
            header: HeaderFields::of(kind, head),
            read: TransactionState::new(alloc),
            alloc,
        }
    }

    /// Begins again at the line of another transaction's header, which has no byte below 32. Earlier lines do not count
    /// any more, nor does an earlier error. Nothing is allocated.
    #[inline(always)]
    pub fn restart(&mut self, kind: WorkKind, head: &[u8])
        requires clean { IsTrue (is_clean head.now) }
        ensures { IsJudging self.new kind (head.now ∷ []) }
    {
        self.header.read(kind, head);
        self.read.clear(self.alloc);
    }

    /// Consumes a detail's line, of this record type.
    #[inline(always)]
    pub fn take(&mut self, line: &[u8], record_type: RecordType) -> Result<(), Memory>
        requires open { (kind : WorkKind) × (lines : List (List ℕ)) × IsJudging self.old kind lines × (length lines ≤ max_count) }
        requires read { record_type ≡ type_of line.now }
        ensures { OnOk result ((kind : WorkKind) (lines : List (List ℕ)) → IsJudging self.old kind lines → IsJudging self.new kind (lines ++ line.now ∷ [])) }
    {
        self.read.take(line, record_type)?;
        Ok(())
    }

    /// The faults of the transaction whose lines were taken, in the order in which its call has them. Memory is asked
    /// for only where there is a fault.
    pub fn faults(&self) -> Result<Faults<A>, Memory>
        requires open { (kind : WorkKind) × (lines : List (List ℕ)) × IsJudging self.now kind lines × (length lines ≤ max_count + 1) }
        ensures { IfOk result (λ faults. (submitter : List ℕ) (kind : WorkKind) (lines : List (List ℕ)) → IsJudging self.now kind lines → faults ≡ (call_in submitter kind lines).faults) }
    {
        let faults = faults_of(self.alloc, &self.header, &self.read)?;
        Ok(Faults::new(faults))
    }

    /// How many lines were taken, the header's among them.
    pub fn lines(&self) -> u64
        ensures { (kind : WorkKind) (lines : List (List ℕ)) → IsJudging self.now kind lines → result ≡ length lines }
    {
        self.read.count as u64 + 1
    }

    /// What the shares of the transaction whose lines were taken add up to.
    ///
    /// Its lines are read again only where more than the whole is collected in some territory.
    pub fn added(&self, transaction: &RawTransaction) -> AddedShares
        requires read { IsJudging self.now transaction.now.kind transaction.now.lines }
        ensures { result ≡ added_in transaction.now }
    {
        let (_, details) = parts(transaction);
        let summary = &self.read.summary;
        AddedShares {
            ownership: summary.sums.ownership,
            over: first_over(&summary.collected, details),
        }
    }

    /// The call of the transaction whose lines were taken. Memory is asked for only where it has faults.
    pub fn end(&self, submitter: [u8; 11]) -> Result<Call<A>, Memory>
        requires clean { IsTrue (is_clean submitter) }
        requires open { (kind : WorkKind) × (lines : List (List ℕ)) × IsJudging self.now kind lines × (length lines ≤ max_count + 1) }
        ensures { IfOk result (λ call. (transaction : RawParts) → IsJudging self.now transaction.kind transaction.lines → call ≡ call_of submitter transaction) }
    {
        let faults = faults_of(self.alloc, &self.header, &self.read)?;
        let header = &self.header;
        let control = self.read.summary.sums.control;
        let call = Call::of_lawful(
            submitter,
            header.kind,
            header.title,
            header.number,
            header.iswc,
            [
                control.performing,
                control.mechanical,
                control.synchronization,
            ],
            Faults::new(faults),
        );
        Ok(call)
    }
}

/// All faults of a transaction, in order. Memory is asked for only where there is a fault.
fn faults_of<A: Allocator + Copy>(
    alloc: A,
    header: &HeaderFields,
    read: &TransactionState<A>,
) -> Result<Vec<Fault, A>, Memory>
    ensures { IfOk result (λ faults. (kind : WorkKind) (head : List ℕ) (records : List Record)
        → header.now ≡ header_fields kind head → IsKeptWhole read.now records → faults.items ≡ faults_of kind head records) }
{
    let mut faults = Vec::new(alloc);
    push_transaction_faults(&mut faults, header, &read.summary)?;
    push_standing(&mut faults, &read.summary.parties, &read.findings)?;
    Ok(faults)
}
