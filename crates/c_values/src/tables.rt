ghost use Rattle.std.specs.Prelude.{◌≡◌, ◌≢◌, IfOk, length};
ghost use Rattle.work_registry.specs.Numbers.{max_entries};
ghost use Rattle.c_values.specs.Answers.{no_memory, faulty, IsTold};
ghost use Rattle.c_values.specs.Registers.{IsFirstFault};
ghost use Rattle.c_values.specs.Tables.{table_text, IsTableOf};

use crate::handing::hand_out;
use crate::registers::{RegisterFault, fill_register_fault};
use crate::status::NO_MEMORY;
use cwr_engine::MAX_ENTRIES;
use register_tables::{TableError, Wanted, claims_text, history_text, summary_text, works_text};
use std::alloc::Global;
use work_registry::{Book, read_register};

/// What a call gives of a register.
#[derive(Clone, Copy)]
pub enum Table {
    /// The current claims, in the order of their entries.
    Claims,
    /// The works, by number.
    Works,
    /// Every entry, in order.
    History,
    /// A summary.
    Summary,
}

/// Hands out a table of a register. `alloc` allocates, `register` is read, and `table` names the table. Its text goes
/// to `out`, and its length, in bytes, to `length`. `fault` is set to the register's fault, if it has one. What each
/// status leaves is as for `purvilgo_claims`, which calls this.
pub fn write_table(
    alloc: Global,
    register: &[u8],
    table: Table,
    out: &mut [u8],
    length: &mut usize,
    fault: &mut RegisterFault,
) -> u32
    ensures told { result ≢ faulty → result ≢ no_memory → IsTold (IsTableOf table register.now) out.old out.new length.new result }
    ensures faulty { result ≡ faulty → IsFirstFault max_entries register.now fault.new × (out.new ≡ out.old) × (length.new ≡ length.old) }
    ensures same { result ≡ no_memory → (out.new ≡ out.old) × (length.new ≡ length.old) }
    ensures untold { result ≢ faulty → fault.new ≡ fault.old }
{
    match read_register(alloc, register, MAX_ENTRIES) {
        Ok(book) => match text_of(alloc, &book, table) {
            Ok(text) => hand_out(&text, out, length),
            Err(_) => NO_MEMORY,
        },
        Err(refusal) => fill_register_fault(refusal, fault),
    }
}

/// A table of a book. A write into memory fails only if an allocation fails.
fn text_of(alloc: Global, book: &Book, table: Table) -> Result<Vec<u8>, TableError>
    ensures { IfOk result (λ text. text.items ≡ table_text table book.now.history) }
{
    let text = Vec::new(alloc);
    let all = Wanted::all();
    match table {
        Table::Claims => claims_text(alloc, text, book, &all),
        Table::Works => works_text(alloc, text, book, &all),
        Table::History => history_text(alloc, text, book, &all),
        Table::Summary => summary_text(alloc, text, book),
    }
}
