ghost use Rattle.std.specs.Prelude.{◌≡◌, length};
ghost use Rattle.c_values.specs.Answers.{IsGiven};

use crate::handing::hand_out;
use cwr_check::Checked;

/// Hands out the result of a check.
pub fn write_checked(checked: &Checked, out: &mut [u8], length: &mut usize, clean: &mut bool) -> u32
    ensures clean { clean.new ≡ checked.now.clean }
    ensures text { IsGiven checked.now.text.items out.old out.new length.new result }
{
    *clean = checked.clean;
    hand_out(&checked.text, out, length)
}
