//! Which name a word stands for.

ghost use Rattle.std.specs.Prelude.{◌≡◌, ◌∷◌, map};
ghost use Rattle.std.specs.Str.{bytes_eq};
ghost use Rattle.std.specs.Char.{to_ascii_uppercase};
ghost use Rattle.rule_pages.specs.Names.{is_number, without_zeros, name_meant};

/// Whether a word stands for a name, as `j08` does for `J8`, `011` for `J11` and `co` for `CO`.
pub(crate) fn stands_for(word: &[u8], name: &[u8]) -> bool
    ensures { result ≡ bytes_eq name.now (name_meant word.now) }
{
    if is_number(word) {
        return is_numbered(name, b'J', word);
    }
    match word {
        [letter, rest @ ..] if is_number(rest) => is_numbered(name, *letter, rest),
        _ => is_in_capitals(name, word),
    }
}

/// Whether these bytes are one to three digits.
fn is_number(bytes: &[u8]) -> bool
    ensures { result ≡ is_number bytes.now }
{
    match bytes {
        [a] => a.is_ascii_digit(),
        [a, b] => a.is_ascii_digit() && b.is_ascii_digit(),
        [a, b, c] => a.is_ascii_digit() && b.is_ascii_digit() && c.is_ascii_digit(),
        _ => false,
    }
}

/// Whether a name is this letter, as a capital, and then these digits without the zeros before them.
fn is_numbered(name: &[u8], letter: u8, digits: &[u8]) -> bool
    ensures { result ≡ bytes_eq name.now (to_ascii_uppercase letter ∷ without_zeros digits.now) }
{
    match name {
        [first, rest @ ..] => *first == letter.to_ascii_uppercase()
            && rest == without_zeros(digits),
        [] => false,
    }
}

/// Digits without the zeros that they begin with.
fn without_zeros(digits: &[u8]) -> &[u8]
    ensures { result.now ≡ without_zeros digits.now }
{
    for i in 0..digits.len() {
        if digits[i] != b'0' {
            return &digits[i..];
        }
    }
    &[]
}

/// Whether a name is a word with its letters as capitals.
fn is_in_capitals(name: &[u8], word: &[u8]) -> bool
    ensures { result ≡ bytes_eq name.now (map to_ascii_uppercase word.now) }
{
    if name.len() != word.len() {
        return false;
    }
    for i in 0..word.len() {
        if name[i] != word[i].to_ascii_uppercase() {
            return false;
        }
    }
    true
}
