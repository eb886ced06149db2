ghost use Rattle.std.specs.Prelude.{◌≡◌, IfOk};
ghost use Rattle.cwr_engine.specs.OutcomeText.{outcome_line};

use crate::outcome::FileOutcome;
use cwr_field::Memory;
use std::alloc::Allocator;

/// The line that reports how a job ended: the file's name, a colon and the outcome, with LF at its end.
pub fn outcome_line<A: Allocator + Copy>(
    alloc: A,
    name: &[u8],
    outcome: &FileOutcome,
) -> Result<Vec<u8, A>, Memory>
    ensures { IfOk result (λ line. line.items ≡ outcome_line name.now outcome.now) }
{
    let text = format!(in alloc; ": {outcome}\n")?;
    let mut line = Vec::with_capacity(alloc, name.len())?;
    line.extend_from_slice(name)?;
    line.extend_from_slice(text.as_bytes())?;
    Ok(line)
}
