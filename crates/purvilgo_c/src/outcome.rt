ghost use Rattle.std.specs.Prelude.{◌≡◌, ◌≢◌, ◌<◌, ◌^◌};
ghost use Rattle.cwr_engine.specs.declared.outcome.FileOutcome.{FileOutcome};
ghost use Rattle.cwr_engine.specs.OutcomeText.{outcome_line};
ghost use Rattle.c_values.specs.Answers.{no_memory, no_outcome, IsGiven};
ghost use Rattle.c_values.specs.Outcomes.{numbers_of};

use c_values::status::{NO_MEMORY, NO_OUTCOME};
use c_values::{Outcome, hand_out, outcome_of};
use std::alloc::Global;

/// The line of an outcome: the file's name, a colon, the outcome and LF, at the front of `out`.
///
/// `alloc` allocates, `name` is the file's name, and `outcome` has the numbers of the outcome. `length` is set to the
/// length of the line, in bytes. `NO_ROOM` if it does not fit, and sets `length`. `NO_MEMORY` and `NO_OUTCOME` (for
/// numbers that no outcome has) leave both as they were.
#[unsafe(no_mangle)]
pub extern "C" fn purvilgo_outcome_line(
    alloc: Global,
    name: &[u8],
    outcome: &Outcome,
    out: &mut [u8],
    length: &mut usize,
) -> u32
    ensures line { (o : FileOutcome) → outcome.now ≡ numbers_of o → outcome.now.fault < 2 ^ 8 → result ≢ no_memory
        → IsGiven (outcome_line name.now o) out.old out.new length.new result }
    ensures no_outcome { result ≡ no_outcome → (o : FileOutcome) → outcome.now ≡ numbers_of o → outcome.now.fault < 2 ^ 8 → ⊥ }
    ensures same_memory { result ≡ no_memory → (out.new ≡ out.old) × (length.new ≡ length.old) }
    ensures same_outcome { result ≡ no_outcome → (out.new ≡ out.old) × (length.new ≡ length.old) }
{
    let Some(outcome) = outcome_of(outcome) else {
        return NO_OUTCOME;
    };
    match cwr_engine::outcome_line(alloc, name, &outcome) {
        Ok(line) => hand_out(&line, out, length),
        Err(_) => NO_MEMORY,
    }
}
