//! What the definitions of a report mean: where the records of its findings stand, and which fields they name.
//!
//! A law is a function that does nothing. Its contract is what is proved.

ghost use Rattle.std.specs.Prelude.{◌≡◌, ◌+◌, ◌∷◌, ◌++◌, ℕ, List, true, length, map};
ghost use Rattle.cwr_call.specs.declared.transaction_fault.Fault.{Fault};
ghost use Rattle.cwr_check.specs.CheckText.{submitter_of, faults_in};
ghost use Rattle.cwr_grammar.specs.File.{File, IsFile};
ghost use Rattle.cwr_grammar.specs.RawParts.{RawParts, raws_of, lines_in};
ghost use Rattle.cwr_rules.specs.Holds.{IsIn};
ghost use Rattle.cwr_report.specs.Findings.{findings_after, finding_of, first_line};
ghost use Rattle.cwr_report.specs.FindingPlaces.{IsLineOf, has_a_field, names_a_field};

/// The findings of a file are those of its transactions, in their order. The line of a finding is that of the record
/// that the rule names: it has the record of the fault's sequence in its transaction.
pub fn findings_are_of_their_lines()
    ensures listed { (submitter : List ℕ) (before after : List RawParts) (t : RawParts) → findings_after submitter 0 (before ++ t ∷ after) ≡ findings_after submitter 0 before ++ (map (finding_of (first_line (lines_in before) t) t) (faults_in submitter t) ++ findings_after submitter (lines_in before + length t.lines) after) }
    ensures line { (text : List (List ℕ)) (f : File) (before after : List RawParts) (t : RawParts) (fault : Fault) → IsFile text f → raws_of 1 f.groups ≡ before ++ t ∷ after → IsIn fault (faults_in (submitter_of f) t) → IsLineOf text t fault (finding_of (first_line (lines_in before) t) t fault).line }
{}

/// A finding of a rule that looks at fields of one record names at least one field of that record's line. The rules
/// that look at more than one record, J10 to J13 and J15, name none.
pub fn findings_name_their_fields()
    ensures { (submitter : List ℕ) (first : ℕ) (t : RawParts) (fault : Fault) → IsIn fault (faults_in submitter t) → names_a_field fault.number ≡ true → has_a_field (finding_of first t fault).fields ≡ true }
{}
