//! Cuts a text into lines.

ghost use Rattle.std.specs.Prelude.{◌≡◌, ◌==◌, not, ◌≤◌, ◌<◌, ◌+◌, ◌-◌, ◌∷◌, [], length, take, drop, slice_index, ◌⊎◌};
ghost use Rattle.std.specs.List.{prefix_len};
ghost use Rattle.base.specs.Lines as spec;

fn feed_at(text: &[u8]) -> usize
    ensures value { result ≡ spec.feed_at text.now }
    ensures within { result ≤ length text.now }
    ensures feed { (result ≡ length text.now) ⊎ (slice_index text.now result ≡ 10) }
{
    text.iter().take_while(|b| **b != b'\n').count()
}

fn strip_return(piece: &[u8]) -> &[u8]
    ensures value { result.now ≡ spec.without_return piece.now }
    ensures front { result.now ≡ take (length result.now) piece.now }
    ensures within { length result.now ≤ length piece.now }
{
    if piece.is_empty() {
        return piece;
    }
    let last = piece.len() - 1;
    if piece[last] == b'\r' {
        piece.split_at(last).0
    } else {
        piece
    }
}

fn past_feed(rest: &[u8]) -> &[u8]
    ensures { result.now ≡ drop 1 rest.now }
{
    if rest.is_empty() {
        return rest;
    }
    rest.split_at(1).1
}

/// The first line of a text without its end, and the text behind it.
pub fn cut_line(text: &[u8]) -> (&[u8], &[u8])
    requires { 0 < length text.now }
    ensures line { spec.lines text.now ≡ result.0.now ∷ spec.lines result.1.now }
    ensures shorter { length result.1.now < length text.now }
    ensures front { result.0.now ≡ take (length result.0.now) text.now }
    ensures back { result.1.now ≡ drop (length text.now - length result.1.now) text.now }
    ensures behind { spec.IsBehindFeed text.now (length text.now - length result.1.now) }
    ensures apart { length result.0.now + length result.1.now ≤ length text.now }
{
    let (piece, rest) = text.split_at(feed_at(text));
    (strip_return(piece), past_feed(rest))
}

fn comment_at(line: &[u8]) -> usize
    ensures value { result ≡ prefix_len (λ b. not (b == 35)) line.now }
    ensures within { result ≤ length line.now }
{
    line.iter().take_while(|b| **b != b'#').count()
}

/// What stands before a comment, which `#` begins.
pub fn body_of(line: &[u8]) -> &[u8]
    ensures value { result.now ≡ spec.body line.now }
    ensures within { length result.now ≤ length line.now }
{
    line.split_at(comment_at(line)).0
}
