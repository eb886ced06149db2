ghost use Rattle.std.specs.Prelude.{◌≡◌, ◌==◌, ◌≤◌, ◌<◌, ◌^◌, ◌∷◌, ◌++◌, if◌then◌else◌, ℕ, false, Some, None, [], List, IfOk, OnOk};
ghost use Rattle.cwr_grammar.specs.RawParts.{RawParts};
ghost use Rattle.cwr_check.specs.CheckText.{check_lines, faults_in, faulty_count};
ghost use Rattle.cwr_check.specs.ShortReport.{IsOpenAt, IsPlaceOf, IsTold};

use crate::check_lines::{TransactionPlace, put_total, put_transaction};
use crate::checking::Checked;
use cwr_call::Fault;
use cwr_field::Memory;
use cwr_grammar::Visitor;
use cwr_record::{Header, RecordType, WorkKind};
use cwr_rules::TransactionJudge;
use std::alloc::Allocator;

/// The report on the transactions of a file so far. No fault depends on who submits them.
#[derive(Drop)]
pub(crate) struct ShortReport<A: Allocator> {
    text: Vec<u8, A>,
    /// How many transactions were judged.
    transactions: u64,
    /// How many of them have faults.
    faulty: u64,
    /// Where the open transaction stands.
    place: TransactionPlace,
    /// Whether a transaction is open.
    is_open: bool,
    /// Judges the open transaction. It is reused for the next one.
    judge: TransactionJudge<A>,
}

impl<A: Allocator + Copy> ShortReport<A> {
    /// Before the first transaction. No memory is asked for.
    pub(crate) fn new(alloc: A) -> ShortReport<A>
        ensures told { (submitter : List ℕ) → IsTold submitter result.text.items result.transactions result.faulty [] }
        ensures none { result.is_open ≡ false }
    {
        ShortReport {
            text: Vec::new(alloc),
            transactions: 0,
            faulty: 0,
            place: TransactionPlace {
                group: 0,
                sequence: 0,
                kind: WorkKind::Nwr,
            },
            is_open: false,
            judge: TransactionJudge::begin(alloc, WorkKind::Nwr, b""),
        }
    }

    /// Adds the line of the open transaction, which has these faults.
    fn report(&mut self, faults: &[Fault]) -> Result<(), Memory>
        requires group { self.old.place.group < 10 ^ 5 }
        requires sequence { self.old.place.sequence < 10 ^ 8 }
        requires few { self.old.transactions < 2 ^ 63 }
        requires faulty { self.old.faulty ≤ self.old.transactions }
        ensures same { OnOk result (self.new ≡ record self.old { text = self.new.text; transactions = self.new.transactions; faulty = self.new.faulty }) }
        ensures told { OnOk result ((submitter : List ℕ) (whole : List RawParts) (t : RawParts) → IsPlaceOf self.old.place t → faults.now ≡ faults_in submitter t
            → IsTold submitter self.old.text.items self.old.transactions self.old.faulty whole
            → IsTold submitter self.new.text.items self.new.transactions self.new.faulty (whole ++ t ∷ [])) }
    {
        put_transaction(&mut self.text, self.place, faults)?;
        self.transactions += 1;
        self.faulty += if faults.is_empty() { 0 } else { 1 };
        Ok(())
    }

    /// The report on a file, once all its transactions were judged.
    pub(crate) fn finish(self) -> Result<Checked<A>, Memory>
        ensures lines { IfOk result (λ checked. (submitter : List ℕ) (whole : List RawParts) → IsTold submitter self.text.items self.transactions self.faulty whole → checked.text.items ≡ check_lines submitter whole) }
        ensures clean { IfOk result (λ checked. (submitter : List ℕ) (whole : List RawParts) → IsTold submitter self.text.items self.transactions self.faulty whole → checked.clean ≡ (faulty_count submitter whole == 0)) }
    {
        let mut text = self.text;
        put_total(&mut text, self.transactions, self.faulty)?;
        Ok(Checked {
            text,
            clean: self.faulty == 0,
        })
    }
}

impl<A: Allocator + Copy> Visitor for ShortReport<A> {
    ghost keeps = { λ first l head whole current. ((submitter : List ℕ) → IsTold submitter l.text.items l.transactions l.faulty whole) × IsOpenAt l.place (if l.is_open then Some l.judge else None) current };

    fn header(&mut self, _header: &Header) {}

    fn begin(
        &mut self,
        group: u32,
        sequence: u32,
        kind: WorkKind,
        head: &[u8],
    ) -> Result<(), Memory> {
        self.place = TransactionPlace {
            group,
            sequence,
            kind,
        };
        self.judge.restart(kind, head);
        self.is_open = true;
        Ok(())
    }

    fn detail(&mut self, line: &[u8], record_type: RecordType) -> Result<(), Memory> {
        self.judge.take(line, record_type)?;
        Ok(())
    }

    fn end(&mut self) -> Result<(), Memory> {
        let faults = self.judge.faults()?;
        self.report(faults.as_slice())?;
        self.is_open = false;
        Ok(())
    }
}
