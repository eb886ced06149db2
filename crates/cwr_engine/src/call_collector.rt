ghost use Rattle.std.specs.Prelude.{◌≡◌, [], IfSome};
ghost use Rattle.cwr_engine.specs.CallCollector.{HasCollected, IsOpenAt};

use crate::judged::Judged;
use cwr_field::Memory;
use cwr_grammar::Visitor;
use cwr_record::{Header, RecordType, WorkKind};
use cwr_rules::TransactionJudge;
use std::alloc::Allocator;

/// Collects the judged transactions of a file.
#[derive(Drop)]
pub(crate) struct CallCollector<A: Allocator> {
    /// Who submits the file, once its header is known.
    submitter: [u8; 11],
    pub(crate) judged: Vec<Judged<A>, A>,
    /// The group id and the transaction sequence of the open transaction.
    group: u32,
    sequence: u32,
    /// Judges the open transaction. It is reused for the next one.
    judge: TransactionJudge<A>,
}

impl<A: Allocator + Copy> CallCollector<A> {
    /// Before the header. No memory is asked for.
    pub(crate) fn new(alloc: A) -> CallCollector<A>
        ensures { HasCollected result.submitter result.judged.items [] }
    {
        CallCollector {
            submitter: [b' '; 11],
            judged: Vec::new(alloc),
            group: 0,
            sequence: 0,
            judge: TransactionJudge::begin(alloc, WorkKind::Nwr, b""),
        }
    }
}

impl<A: Allocator + Copy> Visitor for CallCollector<A> {
    ghost keeps = { λ first s head whole current. IfSome head (λ h. s.submitter ≡ h.sender) × HasCollected s.submitter s.judged.items whole × IsOpenAt s.group s.sequence s.judge current };

    #[inline]
    fn header(&mut self, header: &Header) {
        self.submitter = header.sender;
    }

    #[inline]
    fn begin(
        &mut self,
        group: u32,
        sequence: u32,
        kind: WorkKind,
        head: &[u8],
    ) -> Result<(), Memory> {
        self.group = group;
        self.sequence = sequence;
        self.judge.restart(kind, head);
        Ok(())
    }

    #[inline]
    fn detail(&mut self, line: &[u8], record_type: RecordType) -> Result<(), Memory> {
        self.judge.take(line, record_type)?;
        Ok(())
    }

    #[inline]
    fn end(&mut self) -> Result<(), Memory> {
        let call = self.judge.end(self.submitter)?;
        self.judged.push(Judged {
            group: self.group,
            sequence: self.sequence,
            call,
        })?;
        Ok(())
    }
}
