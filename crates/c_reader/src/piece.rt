//! The tokens and the space in front of a text.

ghost use Rattle.std.specs.Prelude.{◌≡◌, ℕ, ◌+◌, ◌<◌, ◌≤◌, ◌==◌, not, [], ◌∷◌, length, MatchOption, IsTrue};
ghost use Rattle.std.specs.List.{prefix_len};
ghost use Rattle.c_reader.specs.Pieces as spec;

pub(crate) fn is_word_byte(b: u8) -> bool
    ensures { result ≡ spec.is_word_byte b }
{
    b.is_ascii_alphabetic() || b.is_ascii_digit() || b == b'_'
}

fn is_run_byte(b: u8) -> bool
    ensures { result ≡ spec.is_run_byte b }
{
    is_word_byte(b) || b == b'.'
}

fn word_bytes_len(bytes: &[u8]) -> usize
    ensures value { result ≡ prefix_len spec.is_word_byte bytes.now }
    ensures within { result ≤ length bytes.now }
{
    bytes.iter().take_while(|b| is_word_byte(**b)).count()
}

fn run_bytes_len(bytes: &[u8]) -> usize
    ensures value { result ≡ prefix_len spec.is_run_byte bytes.now }
    ensures within { result ≤ length bytes.now }
{
    bytes.iter().take_while(|b| is_run_byte(**b)).count()
}

pub(crate) fn line_len(bytes: &[u8]) -> usize
    ensures value { result ≡ prefix_len (λ b. not (b == 10)) bytes.now }
    ensures within { result ≤ length bytes.now }
{
    bytes.iter().take_while(|b| **b != b'\n').count()
}

/// The first byte, and the bytes behind it.
pub(crate) fn first_and_rest(bytes: &[u8]) -> Option<(u8, &[u8])>
    ensures { MatchOption result (bytes.now ≡ []) (λ x. bytes.now ≡ x.0 ∷ x.1.now) }
{
    match bytes.split_first() {
        Some((b, rest)) => Some((*b, rest)),
        None => None,
    }
}

/// Whether this byte stands in front.
pub(crate) fn starts(bytes: &[u8], byte: u8) -> bool
    ensures value { result ≡ spec.starts byte bytes.now }
    ensures some { IsTrue result → 0 < length bytes.now }
{
    match first_and_rest(bytes) {
        Some((first, _)) => first == byte,
        None => false,
    }
}

/// Whether this byte stands behind the first one.
pub(crate) fn second_starts(bytes: &[u8], byte: u8) -> bool
    ensures value { result ≡ spec.starts byte (spec.behind_first bytes.now) }
    ensures some { IsTrue result → 1 < length bytes.now }
{
    match first_and_rest(bytes) {
        Some((_, rest)) => starts(rest, byte),
        None => false,
    }
}

fn is_lone(b: u8) -> bool
    ensures { result ≡ spec.is_lone b }
{
    matches!(b, b'(' | b')' | b'{' | b'}' | b';' | b',' | b':')
}

fn may_equal(b: u8) -> bool
    ensures { result ≡ spec.may_equal b }
{
    matches!(b, b'=' | b'!' | b'*')
}

fn may_double(b: u8) -> bool
    ensures { result ≡ spec.may_double b }
{
    matches!(b, b'+' | b'&' | b'|')
}

fn shift_len(b: u8, rest: &[u8]) -> usize
    ensures value { result ≡ spec.shift_len b rest.now }
    ensures within { result ≤ length rest.now + 1 }
{
    if starts(rest, b) {
        if second_starts(rest, b'=') { 3 } else { 2 }
    } else if starts(rest, b'=') {
        2
    } else {
        1
    }
}

fn sign_len(b: u8, rest: &[u8]) -> usize
    ensures value { result ≡ spec.sign_len b rest.now }
    ensures within { result ≤ length rest.now + 1 }
{
    if is_lone(b) {
        1
    } else if may_equal(b) {
        if starts(rest, b'=') { 2 } else { 1 }
    } else if may_double(b) {
        if starts(rest, b) || starts(rest, b'=') {
            2
        } else {
            1
        }
    } else if b == b'-' {
        if starts(rest, b'-') || starts(rest, b'=') || starts(rest, b'>') {
            2
        } else {
            1
        }
    } else if b == b'<' || b == b'>' {
        shift_len(b, rest)
    } else {
        0
    }
}

/// The length of the token in front, or 0 where none stands there.
#[tactic(auto, unfolding(crate::specs::Pieces::piece_len))]
pub(crate) fn piece_len(bytes: &[u8]) -> usize
    ensures value { result ≡ spec.piece_len bytes.now }
    ensures within { result ≤ length bytes.now }
{
    match first_and_rest(bytes) {
        None => 0,
        Some((b, rest)) => {
            if b.is_ascii_alphabetic() {
                1 + word_bytes_len(rest)
            } else if b.is_ascii_digit() {
                1 + run_bytes_len(rest)
            } else {
                sign_len(b, rest)
            }
        }
    }
}
