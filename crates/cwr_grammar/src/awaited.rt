//! The sequence numbers that the next detail of a file must have, as their digits.

ghost use Rattle.std.specs.Prelude.{◌≡◌, ◌+◌, ◌<◌, ◌^◌, ◌∷◌, [], ℕ, Some, true, List, IfSome, IsTrue, get_or};
ghost use Rattle.std.specs.Int.{w64, from_be_bytes};
ghost use Rattle.cwr_field.specs.Number.{number_of};
ghost use Rattle.cwr_record.specs.Columns.{field_at};
ghost use Rattle.cwr_record.specs.Ranges.{is_in_line};
ghost use Rattle.cwr_grammar.specs.Awaited.{Awaits, packed_digits_of, next_detail, next_header};
ghost use Rattle.cwr_grammar.specs.Counted.{counts_of, AreSmall};
ghost use Rattle.cwr_grammar.specs.Roles.{role_at, detail};
ghost use Rattle.cwr_grammar.specs.declared.role.Role.{Role};

use crate::file_counts::FileCounts;
use crate::role::Role;
use cwr_field::{MAX_COUNT, last_digits};
use cwr_record::{Column, Prefix, RecordType, WorkKind, field_at};

/// How many bytes the columns have that distinguish one detail from another: record type and sequence numbers.
pub(crate) const PREFIX_SIZE: usize = 19;

/// The sequence numbers of the next detail.
///
/// Each is kept as its eight ASCII digits, packed into one number: the first digit is the most significant byte. So a
/// line with exactly these digits need not be converted to numbers.
#[derive(Clone, Copy)]
pub(crate) struct Awaited {
    /// Transaction sequence of the transaction that began last in the group; 0 before the first.
    transaction: u64,
    /// Record sequence of the line after the last one.
    detail: u64,
}

impl Awaited {
    /// The state before the first line, and after a group's header, when no transaction of the group has begun:
    /// `transaction` has the digits of 0, and `detail` those of 1.
    pub(crate) fn new() -> Awaited
        ensures { Awaits (counts_of []) result }
    {
        Awaited {
            transaction: packed_digits_of_zero(),
            detail: packed_digits_of_one(),
        }
    }

    /// Whether a line with a record of this type is the next detail.
    #[inline(always)]
    pub(crate) fn is_next(&self, counts: &FileCounts, record_type: RecordType, line: &[u8]) -> bool
        requires small { AreSmall counts.now }
        requires awaits { Awaits counts.now self.now }
        ensures { result ≡ true → role_at record_type line.now ≡ next_detail counts.now }
    {
        is_detail(record_type)
            && counts.lines < MAX_COUNT as u64
            && packed_at(line, Prefix::TRANSACTION) == self.transaction
            && packed_at(line, Prefix::DETAIL) == self.detail
    }

    /// The kind of the transaction that comes next in its group, where a line with a record of this type is its header;
    /// `None` where it is not.
    #[inline(always)]
    pub(crate) fn next_kind(
        &self,
        counts: &FileCounts,
        record_type: RecordType,
        line: &[u8],
    ) -> Option<WorkKind>
        requires small { AreSmall counts.now }
        requires awaits { Awaits counts.now self.now }
        ensures kind { IfSome result (λ kind. counts.now.kind ≡ Some kind) }
        ensures role { IfSome result (λ kind. role_at record_type line.now ≡ next_header kind counts.now) }
    {
        let kind = match (record_type, counts.kind) {
            (RecordType::Nwr, Some(WorkKind::Nwr)) => WorkKind::Nwr,
            (RecordType::Rev, Some(WorkKind::Rev)) => WorkKind::Rev,
            _ => return None,
        };
        let is_next = counts.lines < MAX_COUNT as u64
            && packed_at(line, Prefix::TRANSACTION) == self.next_transaction(counts)
            && packed_at(line, Prefix::DETAIL) == packed_digits_of_zero();
        is_next.then_some(kind)
    }

    /// Consumes a detail, or another line that begins nothing. `counts` do not include that line yet.
    #[inline(always)]
    pub(crate) fn pass_line(&mut self, counts: &FileCounts)
        requires small { AreSmall counts.now }
        requires awaits { Awaits counts.now self.old }
        ensures transaction { self.new.transaction ≡ self.old.transaction }
        ensures detail { self.new.detail ≡ packed_digits_of (counts.now.details + 2) }
    {
        self.detail = next_digits(self.detail, counts.details + 1);
    }

    /// The packed digits of the sequence of the transaction that begins next.
    fn next_transaction(&self, counts: &FileCounts) -> u64
        requires small { AreSmall counts.now }
        requires awaits { Awaits counts.now self.now }
        ensures { result ≡ packed_digits_of counts.now.transactions }
    {
        if counts.transactions == 0 {
            return packed_digits_of_zero();
        }
        next_digits(self.transaction, counts.transactions - 1)
    }

    /// Consumes a line of a role. `counts` do not include that line yet.
    #[inline(always)]
    pub(crate) fn pass(&mut self, counts: &FileCounts, role: &Role)
        requires small { AreSmall counts.now }
        requires awaits { Awaits counts.now self.old }
        ensures { (before : List Role) → counts.now ≡ counts_of before → Awaits (counts_of (role.now ∷ before)) self.new }
    {
        match *role {
            Role::Detail(_, _) => self.pass_line(counts),
            Role::TransactionHeader(_, _, _) => {
                self.transaction = self.next_transaction(counts);
                self.detail = packed_digits_of_one();
            }
            Role::GroupHeader(_, _) => *self = Awaited::new(),
            _ => self.pass_line(counts),
        }
    }
}

/// Eight bytes packed into one number, the first byte the most significant.
#[inline(always)]
fn packed(bytes: [u8; 8]) -> u64
    ensures value { result ≡ from_be_bytes w64 bytes }
    ensures small { (i : ℕ) → get_or bytes i 0 < 256 }
{
    u64::from_be_bytes(bytes)
}

/// The last eight decimal digits of a number, with leading zeros, in ASCII, packed into one number.
#[inline(always)]
fn packed_digits_of(number: u64) -> u64
    ensures { result ≡ packed_digits_of number }
{
    packed(last_digits(number))
}

/// The packed digits of 0. They are a constant, so that no line has to compute them.
#[inline(always)]
fn packed_digits_of_zero() -> u64
    ensures { result ≡ packed_digits_of 0 }
{
    0x3030_3030_3030_3030
}

/// The packed digits of 1.
#[inline(always)]
fn packed_digits_of_one() -> u64
    ensures { result ≡ packed_digits_of 1 }
{
    0x3030_3030_3030_3031
}

/// The packed digits of `number` + 1, from `digits`, which are those of `number`.
#[inline(always)]
fn next_digits(digits: u64, number: u64) -> u64
    requires digits { digits ≡ packed_digits_of number }
    requires small { number + 1 < 2 ^ 64 }
    ensures { result ≡ packed_digits_of (number + 1) }
{
    if digits % 256 == b'9' as u64 {
        return packed_digits_of(number + 1);
    }
    digits + 1
}

/// The eight bytes of a column, packed into one number. If these are the packed digits of a number below 10^8, the
/// column spells that number.
#[inline(always)]
fn packed_at(line: &[u8], column: Column) -> u64
    requires column { IsTrue (is_in_line column) }
    requires width { column.width ≡ 8 }
    ensures { (n : ℕ) → n < 10 ^ 8 → result ≡ packed_digits_of n → number_of (field_at line.now column) ≡ Some n }
{
    packed(field_at(line, column).bytes())
}

/// Whether a record is a detail of a transaction.
#[inline(always)]
fn is_detail(record_type: RecordType) -> bool
    ensures { result ≡ true → (line : List ℕ) → role_at record_type line ≡ detail line }
{
    matches!(
        record_type,
        RecordType::Spu
            | RecordType::Spt
            | RecordType::Opu
            | RecordType::Swr
            | RecordType::Swt
            | RecordType::Pwr
            | RecordType::Owr
            | RecordType::Alt
            | RecordType::Xrf
            | RecordType::Carried
    )
}
