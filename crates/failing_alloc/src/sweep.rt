//! Each request of a call, refused in turn.
ghost use Rattle.std.specs.Prelude.{◌≡◌, true, false, IfOk, IsOk, ◌↔◌};

use crate::allocator::FailingAlloc;
use std::alloc::Global;
use std::test::Fail;

/// How a call ended with an allocator that refuses one request: whether it was refused, or what is wrong with its end.
pub type Ended = Result<bool, Fail>;

/// A call that allocates.
pub trait Sweep {
    /// Makes what the call needs, makes the call, all in this memory, and says how it ended.
    ///
    /// If the refused request is one of those for what the call needs, that is a refusal too.
    fn ends(&self, memory: &FailingAlloc) -> Ended;
}

/// The end of a call that was answered, if what it answered and left is right.
pub fn answered(is_right: Result<(), Fail>) -> Ended
    ensures value { IfOk result (λ r. r ≡ false) }
    ensures right { IsOk result ↔ IsOk is_right }
{
    is_right?;
    Ok(false)
}

/// The end of a call that was refused, if what it left is right.
pub fn refused(is_right: Result<(), Fail>) -> Ended
    ensures value { IfOk result (λ r. r ≡ true) }
    ensures right { IsOk result ↔ IsOk is_right }
{
    is_right?;
    Ok(true)
}

/// A call must have been refused exactly if it made the n-th request, which is refused. So no call makes a refusal up,
/// and none hides one. Returns whether it was refused.
pub fn check_refusal(memory: &FailingAlloc, n: u64, is_refused: bool) -> Ended
    ensures { IfOk result (λ r. r ≡ is_refused) }
{
    let requests = memory.requests();
    if is_refused == (requests >= n) {
        return Ok(is_refused);
    }
    let told = if is_refused { "refused" } else { "answered" };
    Err(Fail::new(format_args!("{told} after {requests} requests, of which the {n}th is refused")))
}

/// More requests than any call makes.
const MANY: u64 = 1000;

/// Makes a call once for each request that it makes, with that request refused, and once more with none refused. It
/// must make at least one.
pub fn refuse_each<S: Sweep>(alloc: Global, call: &S) -> Result<(), Fail> {
    for n in 1..MANY {
        let memory = FailingAlloc::nth(alloc, n);
        let is_refused = call.ends(&memory)?;
        if !check_refusal(&memory, n, is_refused)? {
            return asks(n > 1);
        }
    }
    Err(Fail::new("no end of requests"))
}

/// The call must have allocated.
fn asks(asked: bool) -> Result<(), Fail> {
    if asked {
        Ok(())
    } else {
        Err(Fail::new("no request for memory"))
    }
}
