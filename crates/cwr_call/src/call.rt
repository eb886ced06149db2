ghost use Rattle.std.specs.Prelude.{◌≡◌, IsTrue, IfOk, IfSome, is_some};
ghost use Rattle.cwr_call.specs.Lawful.{is_lawful, is_clean, is_iswc, max_sum, are_at_most, is_whole, are_faults};

use crate::kept_control::KeptControl;
use crate::lawful;
use crate::transaction_fault::{Fault, Faults};
use cwr_field::{Memory, is_printable};
use cwr_record::WorkKind;
use std::alloc::{Allocator, Global};
use std::marker::Model;

/// What a transaction requests of the registry, and the faults that forbid it.
///
/// No byte of its texts is below 32, its ISWC has nine digits, and no control is above 999,999,990,000. Its faults rise
/// strictly by sequence and number, and are at most 999,999,999. Without faults no control is above 10006. A contract
/// sees the record of its parts.
#[derive_where(Debug)]
#[derive(Drop)]
pub struct Call<A: Allocator = Global> {
    submitter: [u8; 11],
    kind: WorkKind,
    title: [u8; 60],
    number: [u8; 14],
    /// At most nine digits.
    iswc: Option<u32>,
    control: KeptControl,
    faults: Faults<A>,
}

impl<A: Allocator> Model for Call<A> {
    ghost use Rattle.std.specs.Prelude.{IsTrue};
    ghost use Rattle.cwr_call.specs.CallValue.{CallValue};
    ghost use Rattle.cwr_call.specs.KeptControl.{controls};
    ghost use Rattle.cwr_call.specs.Lawful.{is_lawful};

    ghost Value = { CallValue };

    ghost view = { λ c. record { submitter = c.submitter; kind = c.kind; title = c.title; number = c.number; iswc = c.iswc; control = controls c.control; faults = c.faults } };

    ghost invariant = { λ c. IsTrue (is_lawful (record { submitter = c.submitter; kind = c.kind; title = c.title; number = c.number; iswc = c.iswc; control = controls c.control; faults = c.faults })) };
}

impl<A: Allocator> Call<A> {
    /// The call of these parts, or `None` where they break one of the conditions below. No memory is asked for, and
    /// with `None` the faults are dropped.
    ///
    /// - `submitter` is sender type and sender id of the file's HDR. No byte of it, of `title` or of `number` is below
    ///   32.
    /// - `kind` is NWR or REV.
    /// - `title` is the work's title.
    /// - `number` is the submitter's number of the work.
    /// - `iswc` is the number of the ISWC's nine digits, at most 999,999,999; `None` where it is blank or wrong.
    /// - `control` is what the submitter controls of the performing, the mechanical and the synchronization right, in
    ///   hundredths of one per cent. None is above 999,999,990,000, and without faults none is above 10006.
    /// - `faults` are at most 999,999,999, strictly rising by sequence and number. Each has a sequence of at most eight
    ///   digits, a number from 1 to 15 and a record type of three capitals.
    pub fn of(
        submitter: [u8; 11],
        kind: WorkKind,
        title: [u8; 60],
        number: [u8; 14],
        iswc: Option<u64>,
        control: [u64; 3],
        faults: Faults<A>,
    ) -> Option<Call<A>>
        ensures when { is_some result ≡ is_lawful (record { submitter = submitter; kind = kind; title = title; number = number; iswc = iswc; control = control; faults = faults }) }
        ensures value { IfSome result (λ c. c ≡ record { submitter = submitter; kind = kind; title = title; number = number; iswc = iswc; control = control; faults = faults }) }
    {
        let is_lawful = is_printable(&submitter)
            && is_printable(&title)
            && is_printable(&number)
            && lawful::is_iswc(iswc)
            && lawful::are_at_most(lawful::MAX_SUM, &control)
            && lawful::is_whole(faults.as_slice(), &control)
            && lawful::are_faults(faults.as_slice());
        if !is_lawful {
            return None;
        }
        Some(Call::of_lawful(submitter, kind, title, number, iswc, control, faults))
    }

    /// The call of parts that are known to meet the conditions of [`Call::of`].
    ///
    /// The parts are `submitter`, `kind`, `title`, `number`, `iswc`, `control` and `faults`, each as it stands there.
    /// Nothing is allocated.
    pub fn of_lawful(
        submitter: [u8; 11],
        kind: WorkKind,
        title: [u8; 60],
        number: [u8; 14],
        iswc: Option<u64>,
        control: [u64; 3],
        faults: Faults<A>,
    ) -> Call<A>
        requires { IsTrue (is_lawful (record { submitter = submitter; kind = kind; title = title; number = number; iswc = iswc; control = control; faults = faults })) }
        ensures { result ≡ record { submitter = submitter; kind = kind; title = title; number = number; iswc = iswc; control = control; faults = faults } }
    {
        Call {
            submitter,
            kind,
            title,
            number,
            iswc: iswc_kept(iswc),
            control: KeptControl::of(control),
            faults,
        }
    }

    /// A copy of the call. Memory is asked for only where it has faults.
    #[inline]
    pub fn copied(&self, alloc: A) -> Result<Call<A>, Memory>
        ensures { IfOk result (λ call. call ≡ self.now) }
    {
        Ok(Call {
            submitter: self.submitter,
            kind: self.kind,
            title: self.title,
            number: self.number,
            iswc: self.iswc,
            control: self.control,
            faults: self.faults.copied(alloc)?,
        })
    }

    /// Who submits it: sender type and sender id, `Header::SENDER` of the file's HDR.
    pub fn submitter(&self) -> [u8; 11]
        ensures value { result ≡ self.now.submitter }
        ensures clean { IsTrue (is_clean result) }
    {
        self.submitter
    }

    /// Whether it registers a work or revises a registration.
    pub fn kind(&self) -> WorkKind
        ensures { result ≡ self.now.kind }
    {
        self.kind
    }

    /// The work's title, `WorkHead::TITLE` of NWR or REV.
    pub fn title(&self) -> [u8; 60]
        ensures value { result ≡ self.now.title }
        ensures clean { IsTrue (is_clean result) }
    {
        self.title
    }

    /// The submitter's number of the work, `WorkHead::SUBMITTER_NUMBER` of NWR or REV.
    pub fn number(&self) -> [u8; 14]
        ensures value { result ≡ self.now.number }
        ensures clean { IsTrue (is_clean result) }
    {
        self.number
    }

    /// The nine digits of the work's ISWC as a number; `None` where it is blank or wrong.
    pub fn iswc(&self) -> Option<u64>
        ensures value { result ≡ self.now.iswc }
        ensures nine_digits { IsTrue (is_iswc result) }
    {
        wide_iswc(self.iswc)
    }

    /// What the submitter's publishers and writers own of the performing, the mechanical and the synchronization
    /// right, in hundredths of one per cent.
    pub fn control(&self) -> [u64; 3]
        ensures value { result ≡ self.now.control }
        ensures bound { IsTrue (are_at_most max_sum result) }
        ensures whole { IsTrue (is_whole self.now.faults result) }
    {
        self.control.controls()
    }

    /// The rules that it breaks, in strictly rising order of sequence and number.
    pub fn faults(&self) -> &[Fault]
        ensures value { result.now ≡ self.now.faults }
        ensures faults { IsTrue (are_faults result.now) }
        ensures lawful { IsTrue (is_lawful self.now) }
    {
        self.faults.as_slice()
    }
}

/// The number of an ISWC, in the type in which a call keeps it.
fn iswc_kept(iswc: Option<u64>) -> Option<u32>
    requires { IsTrue (is_iswc iswc) }
    ensures { result ≡ iswc }
{
    match iswc {
        None => None,
        Some(number) => Some(number as u32),
    }
}

/// The number of an ISWC, in the type in which a call returns it.
fn wide_iswc(iswc: Option<u32>) -> Option<u64>
    ensures { result ≡ iswc }
{
    match iswc {
        None => None,
        Some(number) => Some(number as u64),
    }
}
