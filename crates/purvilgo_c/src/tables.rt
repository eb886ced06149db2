ghost use Rattle.std.specs.Prelude.{◌≡◌, ◌≢◌, length};
ghost use Rattle.work_registry.specs.Numbers.{max_entries};
ghost use Rattle.c_values.specs.Answers.{no_memory, faulty, IsTold};
ghost use Rattle.c_values.specs.Registers.{IsFirstFault};
ghost use Rattle.c_values.specs.Tables.{IsTableOf};
ghost use Rattle.c_values.specs.declared.tables.Table.TheVariants as table;

use c_values::{RegisterFault, Table, write_table};
use std::alloc::Global;

/// The current claims of a register as CSV, with a header line, at the front of `out`.
///
/// `alloc` allocates, `register` is read, and `length` is set to the length of the text, in bytes. `NO_ROOM` if the
/// text does not fit: then `length` is set, and `out` stays as it was. `FAULTY` sets `fault` to the first fault of a
/// text that is no register of one registry; every other status leaves `fault` as it was. `FAULTY` and `NO_MEMORY`
/// leave `out` and `length`.
#[unsafe(no_mangle)]
pub extern "C" fn purvilgo_claims(
    alloc: Global,
    register: &[u8],
    out: &mut [u8],
    length: &mut usize,
    fault: &mut RegisterFault,
) -> u32
    ensures told { result ≢ faulty → result ≢ no_memory → IsTold (IsTableOf table.Claims register.now) out.old out.new length.new result }
    ensures faulty { result ≡ faulty → IsFirstFault max_entries register.now fault.new × (out.new ≡ out.old) × (length.new ≡ length.old) }
    ensures same { result ≡ no_memory → (out.new ≡ out.old) × (length.new ≡ length.old) }
    ensures untold { result ≢ faulty → fault.new ≡ fault.old }
{
    write_table(alloc, register, Table::Claims, out, length, fault)
}

/// The works of a register as CSV, with a header line, at the front of `out`.
///
/// `alloc` allocates, `register` is read, and `length` is set to the length of the text, in bytes. `fault` is set to
/// the register's fault, if it has one. What each status leaves is as for [`purvilgo_claims`].
#[unsafe(no_mangle)]
pub extern "C" fn purvilgo_works(
    alloc: Global,
    register: &[u8],
    out: &mut [u8],
    length: &mut usize,
    fault: &mut RegisterFault,
) -> u32
    ensures told { result ≢ faulty → result ≢ no_memory → IsTold (IsTableOf table.Works register.now) out.old out.new length.new result }
    ensures faulty { result ≡ faulty → IsFirstFault max_entries register.now fault.new × (out.new ≡ out.old) × (length.new ≡ length.old) }
    ensures same { result ≡ no_memory → (out.new ≡ out.old) × (length.new ≡ length.old) }
    ensures untold { result ≢ faulty → fault.new ≡ fault.old }
{
    write_table(alloc, register, Table::Works, out, length, fault)
}

/// Every entry of a register as CSV, with a header line, at the front of `out`.
///
/// `alloc` allocates, `register` is read, and `length` is set to the length of the text, in bytes. `fault` is set to
/// the register's fault, if it has one. What each status leaves is as for [`purvilgo_claims`].
#[unsafe(no_mangle)]
pub extern "C" fn purvilgo_history(
    alloc: Global,
    register: &[u8],
    out: &mut [u8],
    length: &mut usize,
    fault: &mut RegisterFault,
) -> u32
    ensures told { result ≢ faulty → result ≢ no_memory → IsTold (IsTableOf table.History register.now) out.old out.new length.new result }
    ensures faulty { result ≡ faulty → IsFirstFault max_entries register.now fault.new × (out.new ≡ out.old) × (length.new ≡ length.old) }
    ensures same { result ≡ no_memory → (out.new ≡ out.old) × (length.new ≡ length.old) }
    ensures untold { result ≢ faulty → fault.new ≡ fault.old }
{
    write_table(alloc, register, Table::History, out, length, fault)
}

/// A summary of a register, as a page of lines, at the front of `out`.
///
/// `alloc` allocates, `register` is read, and `length` is set to the length of the text, in bytes. `fault` is set to
/// the register's fault, if it has one. What each status leaves is as for [`purvilgo_claims`].
#[unsafe(no_mangle)]
pub extern "C" fn purvilgo_summary(
    alloc: Global,
    register: &[u8],
    out: &mut [u8],
    length: &mut usize,
    fault: &mut RegisterFault,
) -> u32
    ensures told { result ≢ faulty → result ≢ no_memory → IsTold (IsTableOf table.Summary register.now) out.old out.new length.new result }
    ensures faulty { result ≡ faulty → IsFirstFault max_entries register.now fault.new × (out.new ≡ out.old) × (length.new ≡ length.old) }
    ensures same { result ≡ no_memory → (out.new ≡ out.old) × (length.new ≡ length.old) }
    ensures untold { result ≢ faulty → fault.new ≡ fault.old }
{
    write_table(alloc, register, Table::Summary, out, length, fault)
}
