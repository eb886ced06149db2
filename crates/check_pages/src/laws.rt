//! What the definition of the page of a check means: the bytes of a file stand in its text alone, and a box shows each byte
//! of its line.
//!
//! A law is a function that does nothing. Its contract is what is proved.

ghost use Rattle.std.specs.Prelude.{◌≡◌, ℕ, List, [], take, true, false};
ghost use Rattle.cwr_record.specs.declared.columns.Column.{Column};
ghost use Rattle.cwr_remarks.specs.declared.remark.Remark.{Remark};
ghost use Rattle.cwr_report.specs.Reported.{Reported};
ghost use Rattle.html_text.specs.Contexts.{Text, behind};
ghost use Rattle.html_text.specs.Pieces.{Fixed};
ghost use Rattle.html_text.specs.declared.fragment.Fragment.{Fragment};
ghost use Rattle.check_pages.specs.Boxes.{line_shown, most_places};
ghost use Rattle.check_pages.specs.CheckPages.{check_page};
ghost use Rattle.check_pages.specs.ShownLines.{are_apart, byte_of_fragment, bytes_of, is_begin};

/// Whatever is marked of a line, its box shows the bytes of the line, each once and in their order, up to the longest
/// line that is shown. The fragments with which a mark begins are no byte of a line.
pub fn boxes_show_their_lines()
    ensures bytes { (line : List ℕ) (spots : List Column) (begin : Fragment) → byte_of_fragment begin ≡ [] → bytes_of (line_shown line spots begin) ≡ take most_places line }
    ensures marks { (byte_of_fragment Fragment.Mark ≡ []) × (byte_of_fragment Fragment.MarkByte ≡ []) }
{}

/// Whatever is marked of a line, no mark begins within another, and each ends.
pub fn marks_are_apart()
    ensures { (line : List ℕ) (spots : List Column) (begin : Fragment) → is_begin (Fixed begin) ≡ true → are_apart false (line_shown line spots begin) ≡ true }
{}

/// Each piece of a page stands in its place. A byte that is no markup stands in text, between tags, and never within a tag
/// or in the style. Between the quotes of an attribute only numbers stand and the bytes F and J, the letters of rules,
/// and in a text of the style only numbers. A page begins and ends in text.
pub fn bytes_stand_in_text()
    ensures check { (name bytes : List ℕ) (r : Reported) (remarks : List Remark) → behind Text (check_page name bytes r remarks) ≡ Text }
{}
