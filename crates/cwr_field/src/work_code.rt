//! The code of a musical work (ISWC): its check digit, its text, and what a field holds for it.

ghost use Rattle.std.specs.Prelude.{◌≡◌, ◌≤◌, ◌<◌, ◌+◌, ◌%◌, ◌^◌, ℕ, Some, length};
ghost use Rattle.cwr_field.specs.declared.codes.Iswc.TheVariants.{Valid};
ghost use Rattle.cwr_field.specs.Iswc.{check_digit, iswc_of, iswc_text, max_code};
ghost use Rattle.cwr_field.specs.Number.{number_of};

use crate::codes::Iswc;
use crate::field::{Field, are_blank};
use crate::number::{last_digits, number_of_nine};

/// The greatest number of nine digits, which an ISWC has.
pub const MAX_CODE: u64 = 999999999;

/// The letter that an ISWC begins with.
const MARK: u8 = b'T';

/// The check digit of nine digits, all in ASCII. The weights apply to the bytes as they stand, without subtracting '0':
/// what '0' contributes to the sum over all nine is a multiple of 10.
#[inline(always)]
fn check_of(digits: [u8; 9]) -> u8
    ensures { (n : ℕ) → number_of digits ≡ Some n → result ≡ 48 + check_digit n }
{
    let [a, b, c, d, e, f, g, h, i] = digits;
    let front = a as u32 + 2 * b as u32 + 3 * c as u32 + 4 * d as u32 + 5 * e as u32;
    let sum = 1 + front + 6 * f as u32 + 7 * g as u32 + 8 * h as u32 + 9 * i as u32;
    b'0' + ((10 - sum % 10) % 10) as u8
}

/// The check digit of an ISWC's nine digits (ISO 15707).
pub fn check_digit(number: u64) -> u8
    requires { number ≤ max_code }
    ensures value { result ≡ check_digit number }
    ensures digit { result < 10 }
{
    check_of(last_digits::<9>(number)) - b'0'
}

/// The last digit of a number, in ASCII.
#[inline(always)]
fn ascii_digit(number: u32) -> u8
    ensures { result ≡ 48 + number % 10 }
{
    b'0' + (number % 10) as u8
}

/// The text of an ISWC, from the number of its nine digits: `T`, the digits, and their check digit (ISO 15707). The
/// check digit is computed from the digits as written.
pub fn iswc_text(number: u32) -> [u8; 11]
    requires { number ≤ max_code }
    ensures { result ≡ iswc_text number }
{
    let eight = number / 10;
    let seven = eight / 10;
    let six = seven / 10;
    let five = six / 10;
    let four = five / 10;
    let three = four / 10;
    let two = three / 10;
    let one = two / 10;
    let front = one % 10 + 2 * (two % 10) + 3 * (three % 10) + 4 * (four % 10) + 5 * (five % 10);
    let sum = 1 + front + 6 * (six % 10) + 7 * (seven % 10) + 8 * (eight % 10) + 9 * (number % 10);
    [
        MARK,
        ascii_digit(one),
        ascii_digit(two),
        ascii_digit(three),
        ascii_digit(four),
        ascii_digit(five),
        ascii_digit(six),
        ascii_digit(seven),
        ascii_digit(eight),
        ascii_digit(number),
        ascii_digit(10 - sum % 10),
    ]
}

/// What a field of eleven bytes holds for a musical work's code.
#[inline(always)]
pub fn iswc(text: Field) -> Iswc
    requires { length text ≡ 11 }
    ensures value { result ≡ iswc_of text.entry }
    ensures bound { (n : ℕ) → result ≡ Valid n → n < 10 ^ 9 }
{
    let code = text.bytes::<11>();
    if are_blank(&code) {
        return Iswc::Blank;
    }
    let [mark, a, b, c, d, e, f, g, h, i, check] = code;
    let digits = [a, b, c, d, e, f, g, h, i];
    match number_of_nine(digits) {
        Some(number) if mark == MARK && check == check_of(digits) => Iswc::Valid(number),
        _ => Iswc::Wrong,
    }
}
