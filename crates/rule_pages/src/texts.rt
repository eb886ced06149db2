ghost use Rattle.std.specs.Prelude.{◌≡◌};
ghost use Rattle.rule_pages.specs.Pages.{title_of, requirement_of, violation_of, fix_of};

use crate::rule::Rule;
use cwr_acknowledgement::message_text;
use report_texts::file_rule_text;

/// The name of a rule's fault: for F1 to F12 as a report prints it, for J1 to J15 the text of its MSG record.
pub fn title(rule: Rule) -> &'static [u8]
    ensures { result.now ≡ title_of rule }
{
    match rule {
        Rule::F1 => file_rule_text(1),
        Rule::F2 => file_rule_text(2),
        Rule::F3 => file_rule_text(3),
        Rule::F4 => file_rule_text(4),
        Rule::F5 => file_rule_text(5),
        Rule::F6 => file_rule_text(6),
        Rule::F7 => file_rule_text(7),
        Rule::F8 => file_rule_text(8),
        Rule::F9 => file_rule_text(9),
        Rule::F10 => file_rule_text(10),
        Rule::F11 => file_rule_text(11),
        Rule::F12 => file_rule_text(12),
        Rule::J1 => message_text(1),
        Rule::J2 => message_text(2),
        Rule::J3 => message_text(3),
        Rule::J4 => message_text(4),
        Rule::J5 => message_text(5),
        Rule::J6 => message_text(6),
        Rule::J7 => message_text(7),
        Rule::J8 => message_text(8),
        Rule::J9 => message_text(9),
        Rule::J10 => message_text(10),
        Rule::J11 => message_text(11),
        Rule::J12 => message_text(12),
        Rule::J13 => message_text(13),
        Rule::J14 => message_text(14),
        Rule::J15 => message_text(15),
        Rule::G1 => b"a line is not of the register's form",
        Rule::G2 => b"entries are not as line 1 counts them",
        Rule::G3 => b"a decision is not that of the registry",
        Rule::G4 => b"more entries than the limit",
    }
}

/// What a rule requires.
pub fn requirement(rule: Rule) -> &'static [u8]
    ensures { result.now ≡ requirement_of rule }
{
    match rule {
        Rule::F1 => b"line 1 is the HDR of the file",
        Rule::F2 => b"no line up to TRL has a byte below 32",
        Rule::F3 =>
            b"each line begins with three capitals, and the dates and the time of HDR are real",
        Rule::F4 =>
            b"HDR, then groups from GRH to GRT, then TRL; in a group each work is a header and its details",
        Rule::F5 => b"each GRH names NWR or REV",
        Rule::F6 => b"each header has the type that its GRH names",
        Rule::F7 =>
            b"the GRH of a file have the group IDs 00001, 00002, .., and each GRT that of its GRH",
        Rule::F8 =>
            b"transactions run from 00000000 in each group, records from 00000000 in each transaction",
        Rule::F9 =>
            b"GRT has the number of transactions of its group, and of its records, GRH and GRT included",
        Rule::F10 =>
            b"TRL has the numbers of groups, transactions and records of the file, HDR and TRL included",
        Rule::F11 => b"the file ends with TRL; after it only blanks, bytes 26 and line ends",
        Rule::F12 => b"a line up to TRL has at most 4,096 bytes, its line end not counted",
        Rule::J1 =>
            b"blocks of SPU and its SPT, OPU, SWR and its SWT and PWR, OWR and its PWR, in any order; after them ALT and XRF",
        Rule::J2 => b"the title is not blank",
        Rule::J3 => b"the submitter work number is not blank",
        Rule::J4 => b"the ISWC is T, nine digits and their check digit, or blank",
        Rule::J5 =>
            b"the copyright date is a date, blank or 00000000, and the duration a time of a day or blank",
        Rule::J6 =>
            b"a share is five digits from 00000 to 10000, in hundredths of one per cent, or five blanks",
        Rule::J7 => b"each SPU and SWR has an interested party number",
        Rule::J8 => b"an SPT has the party of the last SPU before it, an SWT that of the last SWR",
        Rule::J9 => b"a PWR of an SWR names an SPU or OPU of the transaction, or none",
        Rule::J10 => b"there is an SWR or OWR",
        Rule::J11 =>
            b"the PR ownership shares of SPU, OPU, SWR and OWR add up to 0, or from 99.94 to 100.06 per cent",
        Rule::J12 =>
            b"the MR ownership shares of SPU, OPU, SWR and OWR add up to 0, or from 99.94 to 100.06 per cent",
        Rule::J13 =>
            b"the SR ownership shares of SPU, OPU, SWR and OWR add up to 0, or from 99.94 to 100.06 per cent",
        Rule::J14 =>
            b"the indicator of an SPT or SWT is I or E, and its TIS code one to four digits",
        Rule::J15 =>
            b"for each TIS code and each right, the collection shares with the indicator I add up to at most 100.06 per cent",
        Rule::G1 => b"a line has its widths, digits, codes and LF, and is that of a transaction",
        Rule::G2 =>
            b"entries are numbered from 00000001, line 1 says how many there are, and nothing follows",
        Rule::G3 =>
            b"status, work and version are the decision on the entry's transaction, after the entries before it",
        Rule::G4 => b"line 1 counts no more entries than the reader takes",
    }
}

/// An example of what breaks a rule.
pub fn violation(rule: Rule) -> &'static [u8]
    ensures { result.now ≡ violation_of rule }
{
    match rule {
        Rule::F1 => b"a byte order mark before HDR",
        Rule::F2 => b"a TAB in a title",
        Rule::F3 => b"creation date 20240230",
        Rule::F4 => b"NWR directly after HDR: no GRH",
        Rule::F5 => b"GRHAGR",
        Rule::F6 => b"REV in a group of NWR",
        Rule::F7 => b"the first group is 00002",
        Rule::F8 => b"the first detail has record sequence 00000002",
        Rule::F9 => b"2 records, where there are 4",
        Rule::F10 => b"7 records, where there are 6",
        Rule::F11 => b"the file ends after GRT",
        Rule::F12 => b"4,097 bytes, most of them blanks",
        Rule::J1 => b"an ALT before an SWR",
        Rule::J2 => b"60 blanks at byte 20",
        Rule::J3 => b"14 blanks at byte 82",
        Rule::J4 => b"T0345246802, where the check digit is 1",
        Rule::J5 => b"duration 006100: 61 minutes",
        Rule::J6 => b"10001, which is 100.01 per cent",
        Rule::J7 => b"9 blanks at byte 20 of an SWR",
        Rule::J8 => b"SWT of 000000009 after the SWR of 000000001",
        Rule::J9 => b"publisher 000000009, where the SPU is of 000000002",
        Rule::J10 => b"a header and one OPU",
        Rule::J11 => b"05007 and 05000: 100.07 per cent",
        Rule::J12 => b"09993 alone: 99.93 per cent",
        Rule::J13 => b"10000 and 00007: 100.07 per cent",
        Rule::J14 => b"indicator X",
        Rule::J15 => b"50.03 and 50.04 per cent for TIS 840",
        Rule::G1 => b"CR LF at the end of a line",
        Rule::G2 => b"a byte after REG00000000 and its LF",
        Rule::G3 => b"DU where the key has no row",
        Rule::G4 => b"REG00000003 read with the limit 2",
    }
}

/// How to fix what broke a rule.
pub fn fix(rule: Rule) -> &'static [u8]
    ensures { result.now ≡ fix_of rule }
{
    match rule {
        Rule::F1 => b"write the file without one, as plain bytes",
        Rule::F2 => b"replace each by one blank; look for line ends inside fields",
        Rule::F3 => b"capitals in bytes 1 to 3; real dates; no empty lines before TRL",
        Rule::F4 => b"one GRH before and one GRT after each group; a header before its details",
        Rule::F5 =>
            b"send agreements and other transactions in files of their own, to where they are taken",
        Rule::F6 => b"one group for NWR, one for REV",
        Rule::F7 => b"number the groups again in each file",
        Rule::F8 => b"number them again after removing a record",
        Rule::F9 => b"count GRH and GRT in",
        Rule::F10 => b"count HDR and TRL in",
        Rule::F11 => b"send the file whole: it was cut, or two files were joined",
        Rule::F12 => b"no blanks past the layout; check that line ends are there",
        Rule::J1 => b"blocks of publishers and writers first, then ALT and XRF",
        Rule::J2 => b"give it at byte 20",
        Rule::J3 => b"give it at byte 82: with the submitter it is the key of the work",
        Rule::J4 => b"T, nine digits, check digit, without dots and dashes; or leave it blank",
        Rule::J5 => b"YYYYMMDD and HHMMSS, 010100 here; or blank",
        Rule::J6 => b"five digits up to 10000, or five blanks; leading zeros",
        Rule::J7 => b"give each SPU and SWR its number",
        Rule::J8 =>
            b"repeat the party of the SPU before an SPT, of the SWR before an SWT, byte for byte",
        Rule::J9 => b"add its SPU or OPU, or correct the number",
        Rule::J10 => b"add at least one SWR or OWR",
        Rule::J11 => b"correct the shares, first those that J6 names: these count as nothing",
        Rule::J12 => b"correct the shares, first those that J6 names: these count as nothing",
        Rule::J13 => b"correct the shares, first those that J6 names: these count as nothing",
        Rule::J14 => b"I or E, and a TIS code of digits",
        Rule::J15 => b"find what is included twice in that territory; 0840 and 840 are one",
        Rule::G1 => b"copy the register as bytes, as it was delivered",
        Rule::G2 => b"take the register whole: lines were left out, added or moved",
        Rule::G3 => b"compare with an older copy: the entry, or one before it, was changed",
        Rule::G4 => b"read it with a higher limit; in purvilgo it is 99,999,999",
    }
}
