//! What a page as a list of pieces means: what is no markup begins and ends nothing in it, and the bytes of pieces lead
//! where the pieces do.
//!
//! A law is a function that does nothing. Its contract is what is proved.

ghost use Rattle.std.specs.Prelude.{◌≡◌, ◌||◌, List, false, true};
ghost use Rattle.std.specs.List.{filter};
ghost use Rattle.html_text.specs.Contexts.{Context, Misplaced, behind, behind_bytes};
ghost use Rattle.html_text.specs.Markup.{is_delimiter, is_fixed, is_plain, is_reference};
ghost use Rattle.html_text.specs.Pieces.{Piece, page_text, piece_text};

/// Whatever is shown, what is not markup holds no `<`, `>`, `&`, `"` or `'` but as a reference: a piece that is no
/// fragment is one of the five references, or has none of these bytes. So the `<`, `>`, `"` and `'` of a page are those of
/// its fragments alone, in their order.
pub fn bytes_begin_nothing()
    ensures piece { (p : Piece) → is_fixed p ≡ false → (is_reference (piece_text p) || is_plain (piece_text p)) ≡ true }
    ensures page { (page : List Piece) → filter is_delimiter (page_text page) ≡ filter is_delimiter (page_text (filter is_fixed page)) }
{}

/// The bytes that are written for pieces lead where the pieces do, if each of these stands in its place: one that is no
/// markup stands in text, between tags, and never within a tag or in the style. Between the quotes of an attribute only
/// numbers stand and the bytes F and J, the letters of rules, and in a text of the style only numbers.
pub fn bytes_lead_where_pieces_do()
    ensures read { (context : Context) (pieces : List Piece) → (behind context pieces ≡ Misplaced → ⊥) → behind_bytes context (page_text pieces) ≡ behind context pieces }
{}
