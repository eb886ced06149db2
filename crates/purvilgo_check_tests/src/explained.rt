//! What `explain` prints of rules and answers.

use purvilgo_command::run_program;
use std::process::ExitCode;
use std::str::Lines;
use std::sync::Wait;
use std::test::Fail;
use std::thread::Threads;
use test_comparisons::{same, same_bytes};
use test_program::{Fake, expect_program};

/// The pages of a rule of each kind, in the order of the words.
#[test]
fn tells_the_rules_that_are_named(rt: HostRuntime) -> Result<(), Fail> {
    let words = ["purvilgo", "explain", "G3", "J11", "F9", "J11"];
    let fake = Fake::new(&rt, &words, b"");
    expect_program(
        fake,
        ExitCode::SUCCESS,
        b"G3 a decision is not that of the registry\n  \
requires: status, work and version are the decision on the entry's transaction, after the entries before it\n  \
broken by: DU where the key has no row\n  \
fixed by: compare with an older copy: the entry, or one before it, was changed\n\
J11 PR OWNERSHIP TOTAL IS NOT VALID\n  \
requires: the PR ownership shares of SPU, OPU, SWR and OWR add up to 0, or from 99.94 to 100.06 per cent\n  \
broken by: 05007 and 05000: 100.07 per cent\n  \
fixed by: correct the shares, first those that J6 names: these count as nothing\n\
F9 the counts of GRT are not those of the group\n  \
requires: GRT has the number of transactions of its group, and of its records, GRH and GRT included\n  \
broken by: 2 records, where there are 4\n  \
fixed by: count GRH and GRT in\n\
J11 PR OWNERSHIP TOTAL IS NOT VALID\n  \
requires: the PR ownership shares of SPU, OPU, SWR and OWR add up to 0, or from 99.94 to 100.06 per cent\n  \
broken by: 05007 and 05000: 100.07 per cent\n  \
fixed by: correct the shares, first those that J6 names: these count as nothing\n",
        "",
    )
}

/// The page of each answer, whatever the case of the word.
#[test]
fn tells_the_answers_that_are_named(rt: HostRuntime) -> Result<(), Fail> {
    let words = ["purvilgo", "explain", "co", "AS", "Rj", "dU"];
    let fake = Fake::new(&rt, &words, b"");
    expect_program(
        fake,
        ExitCode::SUCCESS,
        b"CO conflict\n  \
means: nothing is registered: claims on a work meet that cannot stand beside one another, and the registry does not choose\n  \
given for: shares that come to more than 100.06 per cent in a right, with those of the other claims on the work; \
or an ISWC that is another than the work's, or that of another work\n  \
then: ask the society which claims meet, by the work number of the ACK record (purvilgo history --work N REGISTER prints it); \
settle it with the other submitter, and send it again\n\
AS accepted\n  \
means: the claim is registered, as the current one under its submitter and submitter work number\n  \
given for: a transaction that breaks no rule, is no duplicate, and meets no claim that it cannot stand beside\n  \
then: keep the work number of the ACK record; to change the claim, send REV under the same submitter work number\n\
RJ rejected\n  \
means: nothing is registered: the transaction breaks rules\n  \
given for: faults of J1 to J15, for each of which an MSG record stands behind the ACK record\n  \
then: see what the rules of the MSG records require (purvilgo explain 011) and what stands in the file \
(purvilgo check --long FILE); correct it, and send it again\n\
DU duplicate\n  \
means: nothing is changed: what was registered before stands\n  \
given for: an NWR under a submitter work number that this submitter has registered already\n  \
then: nothing, where it was sent twice; to change the claim, send REV; \
a work of its own needs a submitter work number of its own\n",
        "",
    )
}

/// A rule is named in either case, with zeros before its number, and by the number that an MSG record has.
#[test]
fn takes_the_words_that_people_have(rt: HostRuntime) -> Result<(), Fail> {
    let cases = [
        (["j8", "J08", "J008", "8"], "J8 "),
        (["011", "11", "j11", "J011"], "J11 "),
        (["f9", "F09", "f009", "F9"], "F9 "),
        (["g3", "G03", "G003", "g003"], "G3 "),
        (["1", "01", "001", "j1"], "J1 "),
        (["15", "015", "j015", "J15"], "J15 "),
    ];
    for (words, heading) in cases {
        for word in words {
            let words = ["purvilgo", "explain", word];
            let fake = Fake::new(&rt, &words, b"");
            expect_heading(fake, heading)?;
        }
    }
    Ok(())
}

/// The program must end with status 0, and print one page, with this heading.
fn expect_heading<T: AllocGlobal + Threads + Wait + Sync>(
    fake: Fake<T>,
    heading: &str,
) -> Result<(), Fail> {
    let ended = run_program(&fake);
    let (printed, _) = fake.into_texts();
    same(heading, &ended, &ExitCode::SUCCESS)?;
    let text = str::from_utf8(&printed)?;
    same(heading, &text.starts_with(heading), &true)?;
    same(heading, &text.lines().count(), &4)
}

/// A word that is no rule is reported alone, also after rules.
#[test]
fn tells_what_is_no_rule(rt: HostRuntime) -> Result<(), Fail> {
    let cases = [
        ("F13", "no rule F13\n"),
        ("F0", "no rule F0\n"),
        ("J16", "no rule J16\n"),
        ("G5", "no rule G5\n"),
        ("J0011", "no rule J0011\n"),
        ("016", "no rule 016\n"),
        ("0", "no rule 0\n"),
        ("0011", "no rule 0011\n"),
        ("H1", "no rule H1\n"),
        ("j", "no rule j\n"),
        ("AC", "no rule AC\n"),
        ("ASS", "no rule ASS\n"),
        ("", "no rule \n"),
    ];
    for (word, complained) in cases {
        for words in [
            ["purvilgo", "explain", word, "F1"],
            ["purvilgo", "explain", "F1", word],
        ] {
            let fake = Fake::new(&rt, &words, b"");
            expect_program(fake, ExitCode::from(2), b"", complained)?;
        }
    }
    Ok(())
}

/// The first lines of all pages. Those of J1 to J15 end with the texts of their MSG records, as the profile has them.
const HEADINGS: [&str; 35] = [
    "F1 ",
    "F2 ",
    "F3 ",
    "F4 ",
    "F5 ",
    "F6 ",
    "F7 ",
    "F8 ",
    "F9 ",
    "F10 ",
    "F11 ",
    "F12 ",
    "J1 RECORD OUT OF ORDER",
    "J2 TITLE IS BLANK",
    "J3 SUBMITTER WORK NUMBER IS BLANK",
    "J4 ISWC IS NOT VALID",
    "J5 DATE OR DURATION IS NOT VALID",
    "J6 SHARE IS NOT VALID",
    "J7 INTERESTED PARTY NUMBER IS BLANK",
    "J8 TERRITORY RECORD OF ANOTHER PARTY",
    "J9 PUBLISHER OF WRITER IS NOT IN THE TRANSACTION",
    "J10 NO WRITER",
    "J11 PR OWNERSHIP TOTAL IS NOT VALID",
    "J12 MR OWNERSHIP TOTAL IS NOT VALID",
    "J13 SR OWNERSHIP TOTAL IS NOT VALID",
    "J14 INDICATOR OR TERRITORY IS NOT VALID",
    "J15 COLLECTION TOTAL IS ABOVE 100.06",
    "G1 ",
    "G2 ",
    "G3 ",
    "G4 ",
    "AS accepted",
    "DU duplicate",
    "CO conflict",
    "RJ rejected",
];

/// What the further lines of the page with this heading begin with.
fn labels_of(heading: &str) -> [&'static str; 3] {
    match heading {
        "AS accepted" | "DU duplicate" | "CO conflict" | "RJ rejected" => {
            ["  means: ", "  given for: ", "  then: "]
        }
        _ => ["  requires: ", "  broken by: ", "  fixed by: "],
    }
}

/// The next lines must be the page of this heading.
fn expect_page(lines: &mut Lines, heading: &str) -> Result<(), Fail> {
    let line = lines.next().ok_or("a heading")?;
    same(heading, &line.starts_with(heading), &true)?;
    for label in labels_of(heading) {
        let line = lines.next().ok_or("a line of a page")?;
        same(heading, &line.starts_with(label), &true)?;
    }
    Ok(())
}

/// All pages must be printed, and nothing more.
fn expect_pages(ended: ExitCode, printed: &[u8], complained: &str) -> Result<(), Fail> {
    same("its status", &ended, &ExitCode::SUCCESS)?;
    same_bytes("its standard error", complained.as_bytes(), b"")?;
    let text = str::from_utf8(printed)?;
    let mut lines = text.lines();
    for heading in HEADINGS {
        expect_page(&mut lines, heading)?;
    }
    same("a line more", &lines.next(), &None)
}

/// Without words all rules and then all answers are printed.
#[test]
fn tells_every_rule(rt: HostRuntime) -> Result<(), Fail> {
    let fake = Fake::new(&rt, &["purvilgo", "explain"], b"");
    let ended = run_program(&fake);
    let (printed, complained) = fake.into_texts();
    expect_pages(ended, &printed, &complained)
}
