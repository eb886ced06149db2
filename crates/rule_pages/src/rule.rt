ghost use Rattle.std.specs.Prelude.{◌≡◌};
ghost use Rattle.std.specs.List.{find};
ghost use Rattle.std.specs.Str.{bytes_eq};
ghost use Rattle.rule_pages.specs.Pages.{every_rule, rule_named, name_of};

/// A rule of the profile.
#[derive(Clone, Copy, Debug, PartialEq, Eq)]
pub enum Rule {
    /// Of a file: the file does not begin with HDR.
    F1,
    /// Of a file: a control character in a line.
    F2,
    /// Of a file: no record type, or a wrong date or time in HDR.
    F3,
    /// Of a file: a record in the wrong place.
    F4,
    /// Of a file: a group that is not of NWR or REV.
    F5,
    /// Of a file: a header of another type than its group.
    F6,
    /// Of a file: group IDs do not run 00001, 00002, ...
    F7,
    /// Of a file: transaction or record sequences do not run.
    F8,
    /// Of a file: the counts of GRT are not those of the group.
    F9,
    /// Of a file: the counts of TRL are not those of the file.
    F10,
    /// Of a file: no TRL at the end, or something after it.
    F11,
    /// Of a file: a line of more than 4,096 bytes.
    F12,
    /// Of a transaction: records are out of order.
    J1,
    /// Of a transaction: the title is blank.
    J2,
    /// Of a transaction: the submitter work number is blank.
    J3,
    /// Of a transaction: the ISWC is not valid.
    J4,
    /// Of a transaction: a date or duration is not valid.
    J5,
    /// Of a transaction: a share is not valid.
    J6,
    /// Of a transaction: an interested party number is blank.
    J7,
    /// Of a transaction: a territory record is of another party.
    J8,
    /// Of a transaction: the publisher of a writer is not in the transaction.
    J9,
    /// Of a transaction: there is no writer.
    J10,
    /// Of a transaction: the PR ownership total is not valid.
    J11,
    /// Of a transaction: the MR ownership total is not valid.
    J12,
    /// Of a transaction: the SR ownership total is not valid.
    J13,
    /// Of a transaction: an indicator or territory is not valid.
    J14,
    /// Of a transaction: a collection total is above 100.06 per cent.
    J15,
    /// Of a register: a line is not of the register's form.
    G1,
    /// Of a register: the number of entries is not the one in line 1.
    G2,
    /// Of a register: a decision is not that of the registry.
    G3,
    /// Of a register: more entries than the limit.
    G4,
}

const RULES: [Rule; 31] = [
    Rule::F1,
    Rule::F2,
    Rule::F3,
    Rule::F4,
    Rule::F5,
    Rule::F6,
    Rule::F7,
    Rule::F8,
    Rule::F9,
    Rule::F10,
    Rule::F11,
    Rule::F12,
    Rule::J1,
    Rule::J2,
    Rule::J3,
    Rule::J4,
    Rule::J5,
    Rule::J6,
    Rule::J7,
    Rule::J8,
    Rule::J9,
    Rule::J10,
    Rule::J11,
    Rule::J12,
    Rule::J13,
    Rule::J14,
    Rule::J15,
    Rule::G1,
    Rule::G2,
    Rule::G3,
    Rule::G4,
];

/// Every rule: F1 to F12, J1 to J15 and G1 to G4, in this order.
pub fn every_rule() -> &'static [Rule]
    ensures { result.now ≡ every_rule }
{
    &RULES
}

/// The rule with this name, such as `F9`; `None` if there is none.
pub fn rule_named(name: &[u8]) -> Option<Rule>
    ensures { result ≡ rule_named name.now }
{
    found_in(&RULES, name)
}

/// The first of these rules that has this name.
fn found_in(rules: &[Rule], name: &[u8]) -> Option<Rule>
    ensures { result ≡ find (λ r. bytes_eq (name_of r) name.now) rules.now }
{
    for rule in rules {
        if name_of(*rule) == name {
            return Some(*rule);
        }
    }
    None
}

/// What a rule is called, such as `F9`.
pub fn name_of(rule: Rule) -> &'static [u8]
    ensures { result.now ≡ name_of rule }
{
    match rule {
        Rule::F1 => b"F1",
        Rule::F2 => b"F2",
        Rule::F3 => b"F3",
        Rule::F4 => b"F4",
        Rule::F5 => b"F5",
        Rule::F6 => b"F6",
        Rule::F7 => b"F7",
        Rule::F8 => b"F8",
        Rule::F9 => b"F9",
        Rule::F10 => b"F10",
        Rule::F11 => b"F11",
        Rule::F12 => b"F12",
        Rule::J1 => b"J1",
        Rule::J2 => b"J2",
        Rule::J3 => b"J3",
        Rule::J4 => b"J4",
        Rule::J5 => b"J5",
        Rule::J6 => b"J6",
        Rule::J7 => b"J7",
        Rule::J8 => b"J8",
        Rule::J9 => b"J9",
        Rule::J10 => b"J10",
        Rule::J11 => b"J11",
        Rule::J12 => b"J12",
        Rule::J13 => b"J13",
        Rule::J14 => b"J14",
        Rule::J15 => b"J15",
        Rule::G1 => b"G1",
        Rule::G2 => b"G2",
        Rule::G3 => b"G3",
        Rule::G4 => b"G4",
    }
}
