ghost use Rattle.std.specs.Prelude.{◌≡◌, ◌≤◌, length};
ghost use Rattle.cwr_acknowledgement.specs.Messages.{message_text};

/// The text of the MSG record for a fault with this number, from 1 to 15, without blanks at its end.
pub fn message_text(number: u8) -> &'static [u8]
    requires { (1 ≤ number) × (number ≤ 15) }
    ensures text { result.now ≡ message_text number }
    ensures fits { length result.now ≤ 150 }
{
    match number {
        1 => b"RECORD OUT OF ORDER",
        2 => b"TITLE IS BLANK",
        3 => b"SUBMITTER WORK NUMBER IS BLANK",
        4 => b"ISWC IS NOT VALID",
        5 => b"DATE OR DURATION IS NOT VALID",
        6 => b"SHARE IS NOT VALID",
        7 => b"INTERESTED PARTY NUMBER IS BLANK",
        8 => b"TERRITORY RECORD OF ANOTHER PARTY",
        9 => b"PUBLISHER OF WRITER IS NOT IN THE TRANSACTION",
        10 => b"NO WRITER",
        11 => b"PR OWNERSHIP TOTAL IS NOT VALID",
        12 => b"MR OWNERSHIP TOTAL IS NOT VALID",
        13 => b"SR OWNERSHIP TOTAL IS NOT VALID",
        14 => b"INDICATOR OR TERRITORY IS NOT VALID",
        15 => b"COLLECTION TOTAL IS ABOVE 100.06",
        _ => unreachable!(),
    }
}
