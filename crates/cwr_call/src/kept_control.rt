ghost use Rattle.std.specs.Prelude.{◌≡◌, ◌+◌, ◌*◌, ◌/◌, ◌%◌, ◌<◌, ◌^◌, IsTrue};
ghost use Rattle.cwr_call.specs.KeptControl.{controls};
ghost use Rattle.cwr_call.specs.Lawful.{are_at_most, max_sum};

use std::fmt;

/// How many numbers four bytes can hold.
const LOW_COUNT: u64 = 4_294_967_296;

/// The control of each right as a call keeps it, in fifteen bytes. None is above 999,999,990,000, so the low four bytes
/// of each and one more suffice.
#[derive(Clone, Copy)]
pub(crate) struct KeptControl {
    low: [u32; 3],
    high: [u8; 3],
}

impl KeptControl {
    /// These controls.
    pub(crate) fn of(control: [u64; 3]) -> KeptControl
        requires { IsTrue (are_at_most max_sum control) }
        ensures { controls result ≡ control }
    {
        let [performing, mechanical, synchronization] = control;
        KeptControl {
            low: [low(performing), low(mechanical), low(synchronization)],
            high: [high(performing), high(mechanical), high(synchronization)],
        }
    }

    /// The controls.
    pub(crate) fn controls(self) -> [u64; 3]
        ensures { result ≡ controls self }
    {
        let [performing, mechanical, synchronization] = self.low;
        let [over_performing, over_mechanical, over_synchronization] = self.high;
        [
            joined(performing, over_performing),
            joined(mechanical, over_mechanical),
            joined(synchronization, over_synchronization),
        ]
    }
}

/// It is shown as the three controls.
impl fmt::Debug for KeptControl {
    fn fmt<W: fmt::Write>(&self, f: &mut fmt::Formatter<W>) -> fmt::Result {
        self.controls().fmt(f)
    }
}

/// The low four bytes of a number.
fn low(number: u64) -> u32
    ensures { result ≡ number % 2 ^ 32 }
{
    (number % LOW_COUNT) as u32
}

/// The byte above the low four of a number.
fn high(number: u64) -> u8
    requires { number < 2 ^ 40 }
    ensures { result ≡ number / 2 ^ 32 }
{
    (number / LOW_COUNT) as u8
}

/// The number of four low bytes and one above.
fn joined(low: u32, high: u8) -> u64
    ensures { result ≡ high * 2 ^ 32 + low }
{
    high as u64 * LOW_COUNT + low as u64
}
