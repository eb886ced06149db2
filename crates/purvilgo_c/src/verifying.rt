ghost use Rattle.std.specs.Prelude.{◌≡◌, ◌≢◌};
ghost use Rattle.work_registry.specs.Numbers.{max_entries};
ghost use Rattle.c_values.specs.Answers.{done, no_memory, faulty, unverified};
ghost use Rattle.c_values.specs.Registers.{IsFirstFault};
ghost use Rattle.c_values.specs.Verified.{sent_in, IsMisfit, IsVerified, IsVerifyStatus};

use c_values::status::{DONE, NO_MEMORY};
use c_values::{
    Misfit, RegisterFault, SentBytes, fill_misfit, fill_register_fault, owned_count, sent_files,
};
use cwr_engine::MAX_ENTRIES;
use cwr_verify::verify;
use std::alloc::Global;
use work_registry::read_register;

/// Checks a register against files that were sent, and against their acknowledgements: each transaction of each file is
/// judged again. Each has an entry of its own, with the reply that its acknowledgement has. Files are given in the
/// order in which they were run.
///
/// `alloc` allocates, `register` is read, and `files` has the files, each with its acknowledgement. `DONE` sets
/// `transactions` to the number of transactions. `UNVERIFIED` sets `misfit` to the first file that does not fit, and
/// `FAULTY` sets `fault` to the first fault of a text that is no register of one registry. Every other status leaves
/// these as they were, and `NO_MEMORY` all three.
#[unsafe(no_mangle)]
pub extern "C" fn purvilgo_verify(
    alloc: Global,
    register: &[u8],
    files: &[SentBytes],
    transactions: &mut u64,
    fault: &mut RegisterFault,
    misfit: &mut Misfit,
) -> u32
    ensures verified { result ≡ done → IsVerified register.now (sent_in files.now) transactions.new }
    ensures misfit { result ≡ unverified → IsMisfit register.now (sent_in files.now) misfit.new }
    ensures fault { result ≡ faulty → IsFirstFault max_entries register.now fault.new }
    ensures status { IsVerifyStatus result }
    ensures uncounted { result ≢ done → transactions.new ≡ transactions.old }
    ensures fitting { result ≢ unverified → misfit.new ≡ misfit.old }
    ensures faultless { result ≢ faulty → fault.new ≡ fault.old }
{
    let book = match read_register(alloc, register, MAX_ENTRIES) {
        Ok(book) => book,
        Err(refusal) => return fill_register_fault(refusal, fault),
    };
    let Ok(sent) = sent_files(alloc, files) else {
        return NO_MEMORY;
    };
    match verify(alloc, &book, &sent) {
        Ok(owners) => {
            *transactions = owned_count(&owners, sent.len());
            DONE
        }
        Err(told) => fill_misfit(told, misfit),
    }
}
