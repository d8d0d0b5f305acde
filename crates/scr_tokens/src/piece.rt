//! Cuts the longest piece in front.

ghost use Rattle.std.specs.Prelude.{◌≡◌, ◌≤◌, ◌<◌, length, IsTrue};
ghost use Rattle.std.specs.Char.{is_ascii_digit};
ghost use Rattle.std.specs.List.{prefix_len};
ghost use Rattle.base.specs.Bytes.{is_word_byte};
ghost use Rattle.scr_tokens.specs.Piece as spec;

use base::is_word_byte;

fn is_single(b: u8) -> bool
    ensures { result ≡ spec.is_single b }
{
    matches!(
        b,
        b'(' | b')' | b'{' | b'}' | b',' | b':' | b'|' | b'=' | b'+' | b'-' | b'*'
    )
}

fn word_bytes_len(bytes: &[u8]) -> usize
    ensures value { result ≡ prefix_len is_word_byte bytes.now }
    ensures within { result ≤ length bytes.now }
{
    bytes.iter().take_while(|b| is_word_byte(**b)).count()
}

fn digits_len(bytes: &[u8]) -> usize
    ensures value { result ≡ prefix_len is_ascii_digit bytes.now }
    ensures within { result ≤ length bytes.now }
{
    bytes.iter().take_while(|b| b.is_ascii_digit()).count()
}

fn starts(bytes: &[u8], byte: u8) -> bool
    ensures value { result ≡ spec.starts byte bytes.now }
    ensures some { IsTrue result → 0 < length bytes.now }
{
    bytes.first() == Some(&byte)
}

#[tactic(auto, using(crate::proofs::Longest::name_run))]
fn name_rest_len(bytes: &[u8]) -> usize
    ensures value { result ≡ spec.name_rest_len bytes.now }
    ensures within { result ≤ length bytes.now }
{
    let n = word_bytes_len(bytes);
    let (_, rest) = bytes.split_at(n);
    if starts(rest, b'\'') { n + 1 } else { n }
}

#[tactic(auto, unfolding(crate::specs::Piece::piece_len))]
fn front_len(bytes: &[u8]) -> usize
    ensures value { result ≡ spec.piece_len bytes.now }
    ensures within { result ≤ length bytes.now }
{
    match bytes.split_first() {
        None => 0,
        Some((b, rest)) => {
            let b = *b;
            if b.is_ascii_alphabetic() {
                1 + name_rest_len(rest)
            } else if b.is_ascii_digit() {
                1 + digits_len(rest)
            } else if b == b'@' {
                1 + word_bytes_len(rest)
            } else if b == b'<' || b == b'>' {
                if starts(rest, b'=') { 2 } else { 1 }
            } else if b == b'!' {
                if starts(rest, b'=') { 2 } else { 0 }
            } else if b == b'.' {
                if starts(rest, b'.') { 2 } else { 0 }
            } else if is_single(b) {
                1
            } else {
                0
            }
        }
    }
}

/// The length of the longest piece in front, or 0 where there is none.
pub(crate) fn piece_len(bytes: &[u8]) -> usize
    ensures within { result ≤ length bytes.now }
    ensures longest { spec.CutsLongest bytes.now result }
{
    front_len(bytes)
}
