ghost use Rattle.std.specs.Prelude.{◌≡◌, ◌≤◌, ◌<◌, ◌^◌, ◌+◌, ◌∷◌, ◌++◌, [], None, IfSome, OnOk, OnErr, length, take, drop, vec_len, vec_capacity};
ghost use Rattle.std.specs.Fmt.{decimal};
ghost use Rattle.cwr_field.specs.Number.{number_of, number_text, digit_pair};
ghost use Rattle.cwr_field.specs.Share.{share_of, whole};

use crate::field::{Field, are_blank};
use crate::memory::Memory;
use itoa::Buffer;
use std::alloc::Allocator;
use std::simd::prelude::*;

/// The whole of a right (100 per cent), in hundredths of one per cent.
pub const WHOLE: u64 = 10000;

/// The whole of a right less the tolerance of 0.06 per cent.
pub const MIN_WHOLE: u64 = 9994;

/// The whole of a right and the tolerance of 0.06 per cent.
pub const MAX_WHOLE: u64 = 10006;

/// The greatest number of eight digits, which sequences, counts and the numbers of works have.
pub const MAX_COUNT: u32 = 99999999;

/// A zero (`0`) in each of the last three of eight bytes, the first byte being the least.
const ZEROS: u64 = 0x3030_3000_0000_0000;

/// What a digit is worth at each of eight places.
const WORTHS: [u32; 8] = [10000000, 1000000, 100000, 10000, 1000, 100, 10, 1];

/// The number that eight bytes spell, where each is a digit. All eight are tested, and added up by their worths, at
/// once.
#[inline(always)]
pub(crate) fn number_of_eight(bytes: [u8; 8]) -> Option<u64>
    ensures value { result ≡ number_of bytes }
    ensures bound { IfSome result (λ n. n < 10 ^ 8) }
{
    let digits = u8x8::from_array(bytes) - u8x8::splat(b'0');
    if digits.simd_gt(u8x8::splat(9)).to_bitmask() != 0 {
        return None;
    }
    let parts = digits.cast::<u32>() * u32x8::from_array(WORTHS);
    Some(parts.reduce_sum() as u64)
}

/// The number that the first five of eight bytes spell, where each of the five is a digit. The others are zeros (`0`).
///
/// All are tested at once. Times 10 and one byte further on, each digit is added to the next. So the second byte of the
/// product is the number of the first two digits, and the fourth that of the next two.
#[inline(always)]
fn number_of_front(bytes: [u8; 8]) -> Option<u64>
    requires { drop 5 bytes ≡ 48 ∷ 48 ∷ 48 ∷ [] }
    ensures value { result ≡ number_of (take 5 bytes) }
    ensures bound { IfSome result (λ n. n < 10 ^ 5) }
{
    let lanes = u8x8::from_array(bytes) - u8x8::splat(b'0');
    if lanes.simd_gt(u8x8::splat(9)).to_bitmask() != 0 {
        return None;
    }
    let five = u64::from_le_bytes(lanes.to_array());
    let pairs = five * (10 * 256 + 1);
    let first = pairs / 256 % 256;
    let second = pairs / 16777216 % 256;
    Some(first * 1000 + second * 10 + five / 4294967296)
}

/// The number that five bytes spell, where each is a digit.
#[inline(always)]
fn number_of_five(bytes: [u8; 5]) -> Option<u64>
    ensures value { result ≡ number_of bytes }
    ensures bound { IfSome result (λ n. n < 10 ^ 5) }
{
    let [a, b, c, d, e] = bytes;
    let word = ZEROS + u32::from_le_bytes([a, b, c, d]) as u64 + e as u64 * 4294967296;
    number_of_front(word.to_le_bytes())
}

/// The number that four bytes spell, where each is a digit. All four are tested at once, by what remains of them above
/// 9, and added up in pairs, as in `number_of_front`.
#[inline(always)]
pub fn number_of_four(bytes: [u8; 4]) -> Option<u64>
    ensures value { result ≡ number_of bytes }
    ensures bound { IfSome result (λ n. n < 10 ^ 4) }
{
    let lanes = u8x4::from_array(bytes) - u8x4::splat(b'0');
    let above = lanes.saturating_sub(u8x4::splat(9));
    if u32::from_le_bytes(above.to_array()) != 0 {
        return None;
    }
    let four = u32::from_le_bytes(lanes.to_array()) as u64;
    let pairs = four * (10 * 256 + 1);
    let front_pair = pairs / 256 % 256;
    let back_pair = pairs / 16777216 % 256;
    Some(front_pair * 100 + back_pair)
}

/// The number that nine bytes spell, where each is a digit: eight at once, and the last.
#[inline(always)]
pub(crate) fn number_of_nine(bytes: [u8; 9]) -> Option<u64>
    ensures value { result ≡ number_of bytes }
    ensures bound { IfSome result (λ n. n < 10 ^ 9) }
{
    let [a, b, c, d, e, f, g, h, last] = bytes;
    match number_of_eight([a, b, c, d, e, f, g, h]) {
        Some(number) if last.is_ascii_digit() => Some(number * 10 + (last - b'0') as u64),
        _ => None,
    }
}

/// The number that twelve bytes spell, where each is a digit. Most fields begin with four zeros; then the other eight
/// bytes give the number.
#[inline(always)]
fn number_of_twelve(bytes: [u8; 12]) -> Option<u64>
    ensures value { result ≡ number_of bytes }
    ensures bound { IfSome result (λ n. n < 10 ^ 12) }
{
    let [i, j, k, l, a, b, c, d, e, f, g, h] = bytes;
    if [i, j, k, l] != *b"0000" {
        return number_in(&bytes);
    }
    number_of_eight([a, b, c, d, e, f, g, h])
}

/// The number that at most 18 bytes spell, where each is a digit, byte by byte.
#[inline(always)]
pub(crate) fn number_in(bytes: &[u8]) -> Option<u64>
    requires { length bytes.now ≤ 18 }
    ensures value { result ≡ number_of bytes.now }
    ensures bound { IfSome result (λ n. n < 10 ^ length bytes.now) }
{
    let mut number = 0;
    for byte in bytes {
        if !byte.is_ascii_digit() {
            return None;
        }
        number = number * 10 + (*byte - b'0') as u64;
    }
    Some(number)
}

/// The number that a field spells, where each of its bytes is a digit.
///
/// Of eight, nine or twelve bytes, eight are tested at once, and of five, as the group ID has, all five.
#[inline(always)]
pub fn digits(text: Field) -> Option<u64>
    requires { length text ≤ 18 }
    ensures value { result ≡ number_of text.entry }
    ensures bound { IfSome result (λ n. n < 10 ^ length text.entry) }
{
    match text.width() {
        5 => number_of_five(text.whole_bytes::<5>()?),
        8 => number_of_eight(text.whole_bytes::<8>()?),
        9 => number_of_nine(text.whole_bytes::<9>()?),
        12 => number_of_twelve(text.whole_bytes::<12>()?),
        _ => number_of_others(text),
    }
}

/// The number that a field of any width spells, where each of its bytes is a digit. It is read byte by byte.
#[inline(never)]
fn number_of_others(text: Field) -> Option<u64>
    requires { length text ≤ 18 }
    ensures value { result ≡ number_of text.entry }
    ensures bound { IfSome result (λ n. n < 10 ^ length text.entry) }
{
    number_in(text.whole()?)
}

/// A share of a right in a field of five bytes, in hundredths of one per cent.
///
/// Five blanks are 0, and five digits up to 10000 are their number.
#[inline(always)]
pub fn share(text: Field) -> Option<u16>
    requires { length text ≡ 5 }
    ensures value { result ≡ share_of text.entry }
    ensures bound { IfSome result (λ n. n ≤ whole) }
{
    let bytes = text.bytes::<5>();
    match number_of_five(bytes) {
        Some(number) if number <= WHOLE => Some(number as u16),
        Some(_) => None,
        None => no_share(&bytes),
    }
}

/// The share in five bytes that are not all digits: 0 for five blanks, and otherwise no share. A call would have all
/// shares, those of digits too, stored in memory first.
#[inline(always)]
fn no_share(bytes: &[u8]) -> Option<u16>
    requires { number_of bytes.now ≡ None }
    ensures { result ≡ share_of bytes.now }
{
    if are_blank(bytes) { Some(0) } else { None }
}

/// The two digits of each number below 100, one pair after another.
static PAIRS: [u8; 200] =
    *b"00010203040506070809101112131415161718192021222324252627282930313233343536373839404142434445464748495051525354555657585960616263646566676869707172737475767778798081828384858687888990919293949596979899";

/// The two digits of a number below 100.
#[inline(always)]
fn pair_of(number: u64) -> [u8; 2]
    requires { number < 100 }
    ensures { result ≡ digit_pair number }
{
    let at = number as usize * 2;
    [PAIRS[at], PAIRS[at + 1]]
}

/// Overwrites the bytes with the last digits of a number, one digit for each byte, with leading zeros.
#[inline(always)]
pub fn fill_digits(buffer: &mut [u8], value: u64)
    ensures { buffer.new ≡ number_text (length buffer.old) value }
{
    let mut rest = value;
    let mut end = buffer.len();
    while 2 <= end {
        end -= 2;
        buffer[end..end + 2].copy_from_slice(&pair_of(rest % 100));
        rest /= 100;
    }
    if end == 1 {
        buffer[0] = b'0' + (rest % 10) as u8;
    }
}

/// The last `N` digits of a number, with leading zeros.
#[inline]
pub fn last_digits<const N: usize>(value: u64) -> [u8; N]
    ensures { result ≡ number_text N value }
{
    let mut digits = [b'0'; N];
    fill_digits(&mut digits, value);
    digits
}

/// Appends a number in `width` digits, at most 18, with leading zeros. The number has at most that many digits.
///
/// A refusal leaves the vector as it was.
pub fn put_digits<A: Allocator>(
    out: &mut Vec<u8, A>,
    value: u64,
    width: usize,
) -> Result<(), Memory>
    requires fits { value < 10 ^ width }
    requires width { width ≤ 18 }
    ensures ok { OnOk result (out.new.items ≡ out.old.items ++ number_text width value) }
    ensures err { OnErr result (out.new.items ≡ out.old.items) }
    ensures len { OnOk result (vec_len out.new ≡ vec_len out.old + width) }
    // The capacity never shrinks, and `Memory` is returned only where the capacity was too small.
    ensures capacity { vec_capacity out.old ≤ vec_capacity out.new }
    ensures full { OnErr result (vec_capacity out.old < vec_len out.old + width) }
{
    let mut digits = [b'0'; 18];
    fill_digits(&mut digits[..width], value);
    out.extend_from_slice(&digits[..width])?;
    Ok(())
}

/// Appends a number in decimal digits, without leading zeros.
///
/// A refusal leaves the vector as it was.
pub fn put_decimal<A: Allocator>(out: &mut Vec<u8, A>, number: u64) -> Result<(), Memory>
    ensures ok { OnOk result (out.new.items ≡ out.old.items ++ decimal number) }
    ensures err { OnErr result (out.new.items ≡ out.old.items) }
    // `Memory` is returned only where the capacity was too small.
    ensures full { OnErr result (vec_capacity out.old < vec_len out.old + length (decimal number)) }
{
    let mut digits = Buffer::new();
    out.extend_from_slice(digits.format(number).as_bytes())?;
    Ok(())
}

/// Appends a number in decimal digits. A number of one digit, as most are, is appended as one byte.
///
/// A refusal leaves the vector as it was.
#[inline(always)]
pub fn put_number<A: Allocator>(out: &mut Vec<u8, A>, number: u64) -> Result<(), Memory>
    ensures ok { OnOk result (out.new.items ≡ out.old.items ++ decimal number) }
    ensures err { OnErr result (out.new.items ≡ out.old.items) }
    // `Memory` is returned only where the capacity was too small.
    ensures full { OnErr result (vec_capacity out.old < vec_len out.old + length (decimal number)) }
{
    if number < 10 {
        out.push(b'0' + number as u8)?;
        return Ok(());
    }
    put_decimal(out, number)
}
