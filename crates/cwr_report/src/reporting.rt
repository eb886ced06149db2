ghost use Rattle.std.specs.Prelude.{◌≡◌, IfOk, length};
ghost use Rattle.std.specs.Str.Lines.{lines};
ghost use Rattle.cwr_grammar.specs.Faults.{IsLeastFault};
ghost use Rattle.cwr_grammar.specs.File.{File, IsFile};
ghost use Rattle.cwr_grammar.specs.Submitted.{IsSubmission, IsBounded};
ghost use Rattle.cwr_report.specs.Report.{IsReport, IsReportOfFile, IsReportOfFault};
ghost use Rattle.cwr_report.specs.Reported.{is_clean};

use crate::file_finding::{FileFinding, file_finding};
use crate::finding::Finding;
use crate::findings::push_findings;
use cwr_field::Memory;
use cwr_grammar::{FileRefusal, Submission, parse_file};
use std::alloc::{Allocator, Global};
use std::marker::Model;

/// What a check found in a file.
#[derive_where(Debug)]
#[derive(Drop)]
pub struct Report<A: Allocator = Global> {
    /// Every fault of every transaction, in the order of the file; none if the file is refused.
    pub findings: Vec<Finding, A>,
    /// The number of transactions of a well-formed file.
    pub transactions: u64,
    /// The number of transactions with faults.
    pub faulty: u64,
    /// The first fault of a file that is not well-formed.
    pub refused: Option<FileFinding>,
}

impl<A: Allocator> Model for Report<A> {
    ghost use Rattle.cwr_report.specs.Reported.{Reported};

    ghost Value = { Reported };

    ghost view = { λ r. record { findings = r.findings.items; transactions = r.transactions; faulty = r.faulty; refused = r.refused } };
}

impl<A: Allocator> Report<A> {
    /// Whether the file is well-formed and none of its transactions has a fault.
    pub fn is_clean(&self) -> bool
        ensures { result ≡ is_clean self.now }
    {
        self.refused.is_none() && self.faulty == 0
    }
}

/// Checks a file by the rules of files and of transactions, F1 to F12 and J1 to J15, without a registry.
///
/// If the file is well-formed, the report has every fault of its transactions, each once and in order: by record
/// sequence, and within a record by the number of the rule. Otherwise it has the first fault of the file. If an
/// allocation fails, the result is `Memory` alone.
pub fn report_on<A: Allocator + Copy>(alloc: A, bytes: &[u8]) -> Result<Report<A>, Memory>
    ensures { IfOk result (IsReport bytes.now) }
{
    match parse_file(alloc, bytes) {
        Ok(file) => report_of_file(alloc, bytes, &file),
        Err(FileRefusal::Fault { number, line }) => Ok(report_of_fault(alloc, bytes, number, line)),
        Err(FileRefusal::Memory) => Err(Memory),
    }
}

/// The report on a well-formed file.
fn report_of_file<A: Allocator + Copy>(
    alloc: A,
    bytes: &[u8],
    file: &Submission<A>,
) -> Result<Report<A>, Memory>
    requires file { (f : File) × IsFile (lines bytes.now) f × IsSubmission f file.now.header file.now.transactions file.now.groups file.now.records }
    requires bounds { IsBounded (length bytes.now) file.now.header file.now.transactions }
    ensures { IfOk result (IsReportOfFile (lines bytes.now)) }
{
    let mut findings = Vec::new(alloc);
    let faulty = push_findings(alloc, &mut findings, file.header.sender, &file.transactions)?;
    Ok(Report {
        findings,
        transactions: file.transactions.len() as u64,
        faulty,
        refused: None,
    })
}

/// The report on a file that has a fault.
fn report_of_fault<A: Allocator + Copy>(alloc: A, bytes: &[u8], number: u8, line: u64) -> Report<A>
    requires { IsLeastFault (lines bytes.now) line number }
    ensures { IsReportOfFault bytes.now result }
{
    Report {
        findings: Vec::new(alloc),
        transactions: 0,
        faulty: 0,
        refused: Some(file_finding(bytes, number, line)),
    }
}
