//! Kinds of bytes.
ghost use Rattle.std.specs.Prelude.{◌≡◌};
ghost use Rattle.std.specs.List.{list_all};
ghost use Rattle.base.specs.Bytes as spec;

/// Whether it is a space or a tab.
pub fn is_blank(b: u8) -> bool
    ensures { result ≡ spec.is_blank b }
{
    b == b' ' || b == b'\t'
}

/// Whether it may stand outside comments: a tab, or what ASCII prints.
pub fn is_allowed(b: u8) -> bool
    ensures { result ≡ spec.is_allowed b }
{
    b == b'\t' || (b' ' <= b && b <= b'~')
}

/// Whether all may stand outside comments.
pub fn are_allowed(bytes: &[u8]) -> bool
    ensures { result ≡ list_all spec.is_allowed bytes.now }
{
    bytes.iter().all(|b| is_allowed(*b))
}

/// Whether it is a letter, a digit or `_`.
pub fn is_word_byte(b: u8) -> bool
    ensures { result ≡ spec.is_word_byte b }
{
    b.is_ascii_alphabetic() || b.is_ascii_digit() || b == b'_'
}

/// Whether all are letters, digits and `_`.
pub fn are_word_bytes(bytes: &[u8]) -> bool
    ensures { result ≡ list_all spec.is_word_byte bytes.now }
{
    bytes.iter().all(|b| is_word_byte(*b))
}
