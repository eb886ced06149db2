ghost use Rattle.std.specs.Prelude.{◌≡◌, ℕ, true, false, List, map};
ghost use Rattle.cwr_grammar.specs.declared.role.Role.{Role};
ghost use Rattle.cwr_grammar.specs.Roles.{role_of};
ghost use Rattle.cwr_grammar.specs.FaultTests.{is_headless, has_control, is_tail};
ghost use Rattle.cwr_grammar.specs.FirstFault.{line_fault};
ghost use Rattle.cwr_grammar.specs.Counted.{counts_of, AreSmall};

use crate::file_counts::FileCounts;
use crate::role::Role;
use cwr_field::is_printable;

/// The greatest number of bytes of a line, up to the end of the file.
pub(crate) const LONGEST_LINE: usize = 4096;

/// The least fault of the next line, where the file did not end before it.
#[inline(always)]
pub(crate) fn fault_of(counts: &FileCounts, line: &[u8], is_clean: bool, role: &Role) -> Option<u8>
    requires small { AreSmall counts.now }
    requires goes { counts.now.is_ended ≡ false }
    requires clean { is_clean ≡ true → has_control line.now ≡ false }
    requires role { role.now ≡ role_of line.now }
    ensures { (before : List (List ℕ)) → counts.now ≡ counts_of (map role_of before) → result ≡ line_fault before line.now }
{
    if is_headless(counts, role) {
        return Some(1);
    }
    if holds_control(line, is_clean) {
        return Some(2);
    }
    if let Some(number) = counts.fault(role) {
        return Some(number);
    }
    if line.len() > LONGEST_LINE {
        Some(12)
    } else {
        None
    }
}

/// Whether a line may follow the end of the file.
pub(crate) fn is_tail(line: &[u8]) -> bool
    ensures { result ≡ is_tail line.now }
{
    line.iter().all(|byte| *byte == b' ' || *byte == 26)
}

fn is_headless(counts: &FileCounts, role: &Role) -> bool
    ensures { (before : List Role) → counts.now ≡ counts_of before → result ≡ is_headless before role.now }
{
    if counts.lines > 0 {
        return false;
    }
    !matches!(role, Role::FileHeader(_))
}

fn holds_control(line: &[u8], is_clean: bool) -> bool
    requires { is_clean ≡ true → has_control line.now ≡ false }
    ensures { result ≡ has_control line.now }
{
    if is_clean {
        return false;
    }
    has_control(line)
}

fn has_control(line: &[u8]) -> bool
    ensures { result ≡ has_control line.now }
{
    !is_printable(line)
}
