//! Fields of a fixed width.

/// A number in `N` digits, the last ones if it has more.
fn digits<const N: usize>(number: u32) -> [u8; N] {
    let mut digits = [b'0'; N];
    let mut left = number;
    for digit in digits.iter_mut().rev() {
        *digit = b'0' + (left % 10) as u8;
        left /= 10;
    }
    digits
}

/// A number in five digits.
pub(crate) fn five(number: u32) -> [u8; 5] {
    digits(number)
}

/// A number in eight digits.
pub(crate) fn eight(number: u32) -> [u8; 8] {
    digits(number)
}

/// A number in nine digits.
pub(crate) fn nine(number: u32) -> [u8; 9] {
    digits(number)
}

/// The check digit of ISO 15707 for the nine digits of an ISWC.
fn check_digit(number: &[u8; 9]) -> u8 {
    let mut sum: u64 = 1;
    let mut place: u64 = 0;
    for digit in number {
        place = place.saturating_add(1);
        let value = digit.saturating_sub(b'0') as u64;
        sum = sum.saturating_add(place.saturating_mul(value));
    }
    b'0' + ((10 - sum % 10) % 10) as u8
}

/// An ISWC: `T`, nine digits and the check digit.
pub(crate) fn iswc(number: u32) -> [u8; 11] {
    let digits = nine(number);
    let mut code = [b'T'; 11];
    code[1..10].copy_from_slice(&digits);
    code[10] = check_digit(&digits);
    code
}

/// A submitter work number: `W` and eight digits.
pub(crate) fn work_number(number: u32) -> [u8; 14] {
    let mut field = [b' '; 14];
    field[0] = b'W';
    field[1..9].copy_from_slice(&eight(number));
    field
}

/// Puts a field into a text at a position, from 0, if it fits there.
pub(crate) fn put(text: &mut [u8], at: usize, field: &[u8]) {
    if at <= text.len() && field.len() <= text.len() - at {
        text[at..at + field.len()].copy_from_slice(field);
    }
}
