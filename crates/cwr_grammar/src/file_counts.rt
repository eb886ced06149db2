ghost use Rattle.std.specs.Prelude.{◌≡◌, ◌+◌, ℕ, List, [], ◌∷◌, map};
ghost use Rattle.cwr_grammar.specs.declared.role.Role.{Role};
ghost use Rattle.cwr_grammar.specs.FaultTests.{is_number, option_next, same_kind};
ghost use Rattle.cwr_grammar.specs.FirstFault.{role_fault, grammar_fault};
ghost use Rattle.cwr_grammar.specs.Counted.{counts_of, AreSmall};
ghost use Rattle.cwr_grammar.specs.Roles.{role_of};

use crate::role::{Role, role_at};
use cwr_record::{WorkKind, type_of};

/// What is counted while a file is read: what the lines so far say, by their roles.
#[derive(Clone, Copy)]
pub struct FileCounts {
    /// How many lines were read.
    pub lines: u64,
    /// How many groups began.
    pub groups: u64,
    /// How many transactions began in the file.
    pub all_transactions: u64,
    /// The file ended.
    pub is_ended: bool,
    /// A group is open.
    pub in_group: bool,
    /// The transaction type of the last group.
    pub kind: Option<WorkKind>,
    /// How many lines follow the last group header.
    pub group_lines: u64,
    /// How many transactions began in the last group.
    pub transactions: u64,
    /// A transaction began in the last group.
    pub in_transaction: bool,
    /// How many lines follow the last transaction header of the group.
    pub details: u64,
}

impl FileCounts {
    /// The counts before the first line.
    pub fn new() -> FileCounts
        ensures { result ≡ counts_of [] }
    {
        FileCounts {
            lines: 0,
            groups: 0,
            all_transactions: 0,
            is_ended: false,
            in_group: false,
            kind: None,
            group_lines: 0,
            transactions: 0,
            in_transaction: false,
            details: 0,
        }
    }

    /// Counts the next line of a file by the record that it names, whether or not it has a fault.
    pub fn add_record(&mut self, line: &[u8])
        requires small { AreSmall self.old }
        ensures { (before : List (List ℕ)) → self.old ≡ counts_of (map role_of before) → self.new ≡ counts_of (map role_of (line.now ∷ before)) }
    {
        self.add(&role_at(type_of(line), line));
    }

    /// Counts a line that has no fault, and that begins and ends nothing.
    #[inline(always)]
    pub(crate) fn add_line(&mut self)
        requires small { AreSmall self.old }
        ensures { self.new ≡ record self.old { lines = self.old.lines + 1; group_lines = self.old.group_lines + 1; details = self.old.details + 1 } }
    {
        self.lines += 1;
        self.group_lines += 1;
        self.details += 1;
    }

    /// Counts a line of this role.
    #[inline(always)]
    pub(crate) fn add(&mut self, role: &Role)
        requires small { AreSmall self.old }
        ensures { (before : List Role) → self.old ≡ counts_of before → self.new ≡ counts_of (role.now ∷ before) }
    {
        self.add_line();
        match *role {
            Role::GroupHeader(kind, _) => {
                self.groups += 1;
                self.in_group = true;
                self.kind = kind;
                self.group_lines = 0;
                self.transactions = 0;
                self.in_transaction = false;
                self.details = 0;
            }
            Role::TransactionHeader(_, _, _) => {
                self.all_transactions += 1;
                self.transactions += 1;
                self.in_transaction = true;
                self.details = 0;
            }
            Role::GroupTrailer(_, _, _) => self.in_group = false,
            Role::FileTrailer(_, _, _) => self.is_ended = true,
            _ => {}
        }
    }

    /// The least fault that the role of the next line has.
    #[inline(always)]
    pub(crate) fn fault(&self, role: &Role) -> Option<u8>
        requires small { AreSmall self.now }
        ensures { (before : List Role) → self.now ≡ counts_of before → result ≡ role_fault before role.now }
    {
        if self.is_ended {
            return Some(11);
        }
        match *role {
            Role::Unnamed => Some(if self.lines == 0 { 1 } else { 3 }),
            Role::FileHeader(_) if self.lines > 0 => Some(4),
            Role::FileHeader(valid) => (!valid).then_some(3),
            _ if self.lines == 0 => Some(1),
            Role::GroupHeader(kind, group) => self.group_header_fault(kind, group),
            Role::TransactionHeader(kind, transaction, place) => {
                self.transaction_header_fault(kind, transaction, place)
            }
            Role::Detail(transaction, place) => self.detail_fault(transaction, place),
            Role::GroupTrailer(group, transactions, records) => {
                self.group_trailer_fault(group, transactions, records)
            }
            Role::FileTrailer(groups, transactions, records) => {
                self.file_trailer_fault(groups, transactions, records)
            }
        }
    }

    fn group_header_fault(&self, kind: Option<WorkKind>, group: Option<u64>) -> Option<u8>
        requires small { AreSmall self.now }
        ensures { (before : List Role) → self.now ≡ counts_of before → result ≡ grammar_fault before (Role.GroupHeader kind group) }
    {
        if self.in_group {
            Some(4)
        } else if kind.is_none() {
            Some(5)
        } else if !is_number(group, self.groups + 1) {
            Some(7)
        } else {
            None
        }
    }

    fn transaction_header_fault(
        &self,
        kind: Option<WorkKind>,
        transaction: Option<u64>,
        place: Option<u64>,
    ) -> Option<u8>
        ensures { (before : List Role) → self.now ≡ counts_of before → result ≡ grammar_fault before (Role.TransactionHeader kind transaction place) }
    {
        if !self.in_group {
            Some(4)
        } else if !same_kind(kind, self.kind) {
            Some(6)
        } else if !is_number(transaction, self.transactions) || !is_number(place, 0) {
            Some(8)
        } else {
            None
        }
    }

    fn detail_fault(&self, transaction: Option<u64>, place: Option<u64>) -> Option<u8>
        requires small { AreSmall self.now }
        ensures { (before : List Role) → self.now ≡ counts_of before → result ≡ grammar_fault before (Role.Detail transaction place) }
    {
        if !self.in_group || !self.in_transaction {
            Some(4)
        } else if !is_next(transaction, self.transactions) || !is_number(place, self.details + 1) {
            Some(8)
        } else {
            None
        }
    }

    fn group_trailer_fault(
        &self,
        group: Option<u64>,
        transactions: Option<u64>,
        records: Option<u64>,
    ) -> Option<u8>
        requires small { AreSmall self.now }
        ensures { (before : List Role) → self.now ≡ counts_of before → result ≡ grammar_fault before (Role.GroupTrailer group transactions records) }
    {
        if !self.in_group {
            Some(4)
        } else if !is_number(group, self.groups) {
            Some(7)
        } else if !is_number(transactions, self.transactions)
            || !is_number(records, self.group_lines + 2)
        {
            Some(9)
        } else {
            None
        }
    }

    fn file_trailer_fault(
        &self,
        groups: Option<u64>,
        transactions: Option<u64>,
        records: Option<u64>,
    ) -> Option<u8>
        requires small { AreSmall self.now }
        ensures { (before : List Role) → self.now ≡ counts_of before → result ≡ grammar_fault before (Role.FileTrailer groups transactions records) }
    {
        if self.in_group {
            Some(4)
        } else if !is_number(groups, self.groups)
            || !is_number(transactions, self.all_transactions)
            || !is_number(records, self.lines + 1)
        {
            Some(10)
        } else {
            None
        }
    }
}

fn is_number(value: Option<u64>, number: u64) -> bool
    ensures { result ≡ is_number value number }
{
    match value {
        None => false,
        Some(value) => value == number,
    }
}

fn is_next(value: Option<u64>, number: u64) -> bool
    ensures { result ≡ is_number (option_next value) number }
{
    match value {
        None => false,
        Some(value) => number > 0 && value == number - 1,
    }
}

fn same_kind(one: Option<WorkKind>, other: Option<WorkKind>) -> bool
    ensures { result ≡ same_kind one other }
{
    match (one, other) {
        (Some(WorkKind::Nwr), Some(WorkKind::Nwr)) => true,
        (Some(WorkKind::Rev), Some(WorkKind::Rev)) => true,
        _ => false,
    }
}
