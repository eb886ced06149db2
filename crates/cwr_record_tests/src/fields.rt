//! Values of the CWR 2.2 manual, of ISO 15707 and of the calendar.
use cwr_field::{
    CONTROLS, Iswc, Memory, Sought, check_digit, cut, date, digits, is_blank, is_free_before, iswc,
    iswc_text, party, put_decimal, put_digits, put_text, share, time,
};
use std::test::Fail;
use test_comparisons::{same, same_bytes, same_text};

#[test]
fn cuts_fields_of_short_lines() -> Result<(), Fail> {
    let line = b"SWR00000012";
    for (start, wanted) in [
        (1, *b"SWR"),
        (4, *b"000"),
        (10, *b"12 "),
        (11, *b"2  "),
        (12, *b"   "),
        (4096, *b"   "),
    ] {
        same("what is cut", &cut(line, start, 3).bytes::<3>(), &wanted)?;
    }
    let code = cut(line, 10, 4);
    same("the width", &code.width(), &4)?;
    same("values", &code.byte(1), &b'2')?;
    same("values", &code.byte(2), &b' ')?;
    same(
        "whether that is blank",
        &is_blank(cut(line, 12, 150)),
        &true,
    )?;
    same(
        "whether that is blank",
        &is_blank(cut(line, 11, 150)),
        &false,
    )
}

#[test]
fn reads_numbers() -> Result<(), Fail> {
    for (text, wanted) in [
        ("00042", Some(42)),
        ("000000000000000000", Some(0)),
        ("999999999999999999", Some(999999999999999999)),
        ("4 2", None),
        ("-42", None),
        ("1234", Some(1234)),
        ("12 4", None),
        ("54321", Some(54321)),
        ("/4321", None),
        ("12345678", Some(12345678)),
        ("1234567:", None),
        ("123456789", Some(123456789)),
        ("12345678 ", None),
        ("1234567 9", None),
        ("000012345678", Some(12345678)),
        ("120012345678", Some(120012345678)),
        ("0000123 5678", None),
        (" 00012345678", None),
        ("   ", None),
    ] {
        let bytes = text.as_bytes();
        if bytes.is_empty() || 18 < bytes.len() {
            return Err(Fail::from("up to 18 digits"));
        }
        same("the number", &digits(cut(bytes, 1, bytes.len())), &wanted)?;
    }
    // The line ends inside the number.
    same("the number", &digits(cut(b"GRT0000", 4, 5)), &None)
}

#[test]
fn reads_shares_in_hundredths_of_one_per_cent() -> Result<(), Fail> {
    for (text, wanted) in [
        (b"10000", Some(10000)),
        (b"10001", None),
        (b"     ", Some(0)),
        (b" 5000", None),
        (b"05000", Some(5000)),
        (b"00000", Some(0)),
    ] {
        same("the share", &share(cut(text, 1, 5)), &wanted)?;
    }
    Ok(())
}

#[test]
fn reads_days_of_the_calendar() -> Result<(), Fail> {
    for (text, wanted) in [
        (b"20240229", Some(20240229)),
        (b"20230229", None),
        (b"20240230", None),
        (b"19000229", None),
        (b"20000229", Some(20000229)),
        (b"00000000", None),
        (b"00010101", Some(10101)),
        (b"99991231", Some(99991231)),
        (b"20240431", None),
        (b"20241301", None),
        (b"2024 501", None),
    ] {
        same(
            "date",
            &date(cut(text, 1, 8)).map(|day| day.number()),
            &wanted,
        )?;
    }
    Ok(())
}

#[test]
fn reads_times_of_a_day() -> Result<(), Fail> {
    for (text, wanted) in [
        (b"235959", Some(235959)),
        (b"240000", None),
        (b"000000", Some(0)),
        (b"006100", None),
        (b"235960", None),
        (b"12 000", None),
    ] {
        same(
            "time",
            &time(cut(text, 1, 6)).map(|clock| clock.number()),
            &wanted,
        )?;
    }
    Ok(())
}

#[test]
fn reads_work_codes() -> Result<(), Fail> {
    for (text, wanted) in [
        (b"T0345246801", Iswc::Valid(34524680)),
        (b"T0000000010", Iswc::Valid(1)),
        (b"           ", Iswc::Blank),
        (b"T0345246802", Iswc::Wrong),
        (b"T0000000019", Iswc::Wrong),
        (b"t0345246801", Iswc::Wrong),
        (b"T034524680 ", Iswc::Wrong),
        (b"T03452 6801", Iswc::Wrong),
    ] {
        same("the work code", &iswc(cut(text, 1, 11)), &wanted)?;
    }
    for (number, digit, text) in [(34524680, 1, b"T0345246801"), (1, 0, b"T0000000010")] {
        same("the check digit", &check_digit(number), &digit)?;
        same("the code", &iswc_text(number as u32), text)?;
    }
    Ok(())
}

#[test]
fn reads_interested_party_numbers() -> Result<(), Fail> {
    same(
        "the party",
        &party(cut(b"SWR0000000000000001000000001DOE", 20, 9)),
        &Some(*b"000000001"),
    )?;
    same(
        "the party",
        &party(cut(b"SWR0000000000000001  7", 20, 9)),
        &Some(*b"  7      "),
    )?;
    same(
        "the party",
        &party(cut(b"SWR0000000000000001", 20, 9)),
        &None,
    )
}

/// A text must be found free of the sought bytes up to the one at index `at`, and no further.
fn expect_free(bytes: &[u8], at: usize, sought: Sought) -> Result<(), Fail> {
    for end in [0, 31, 32, 33, 63, 64, 65, 127, 128, 129, 150] {
        let end = end.min(bytes.len());
        same(
            "whether it is free",
            &is_free_before(bytes, end, sought),
            &(end <= at),
        )?;
    }
    Ok(())
}

/// One byte among 150, at each place.
#[test]
fn finds_the_bytes_that_are_sought() -> Result<(), Fail> {
    for (sought, kept, found) in [(CONTROLS, b' ', 31), (Sought::Above(126), 126, 127)] {
        for at in 0..150 {
            let mut bytes = [kept; 150];
            bytes[at] = found;
            expect_free(&bytes, at, sought)?;
        }
    }
    Ok(())
}

#[test]
fn writes_fields(rt: HostRuntime) -> Result<(), Fail> {
    same_text(
        "want of memory",
        &format!(in rt.alloc(); "{Memory}")?,
        "memory",
    )?;
    let mut out = Vec::new(rt.alloc());
    put_fields(&mut out)?;
    same_bytes(
        "the fields",
        &out,
        b"00042AB  999999999999999999 018446744073709551615",
    )
}

fn put_fields(out: &mut Vec<u8>) -> Result<(), Memory> {
    put_digits(out, 42, 5)?;
    put_text(out, b"AB", 4)?;
    put_digits(out, 999999999999999999, 18)?;
    put_text(out, b"", 1)?;
    put_decimal(out, 0)?;
    put_decimal(out, 18446744073709551615)
}
