//! Cuts a line into tokens.

ghost use Rattle.std.specs.Prelude.{◌≡◌, ◌+◌, ◌-◌, ◌≤◌, ◌<◌, ℕ, ◌==◌, not, List, [], ◌∷◌, length, take, drop, slice_index, IfOk, MatchOption, MatchResult, Err, Some, None};
ghost use Rattle.std.specs.List.{list_all, prefix_len};
ghost use Rattle.scr_tokens.specs.declared.word.Token.{Token};
ghost use Rattle.scr_tokens.specs.Tokens as spec;

use crate::LexFault;
use crate::piece::piece_len;
use crate::spelling::word_of;
use crate::word::{Token, Word};
use base::{LINE_LIMIT, NAME_LIMIT, NUMBER_LIMIT, are_allowed, body_of, is_blank};
use sqlite_items::Items;
use std::alloc::Global;

fn tokens_of(alloc: Global, bytes: &[u8]) -> Result<Items<Token>, LexFault>
    requires { length bytes.now ≤ LINE_LIMIT }
    ensures found { IfOk result (λ tokens. spec.Tokens 0 bytes.now tokens) }
    ensures refused { result ≡ Err LexFault.Syntax
        → (tokens : List Token) → spec.Tokens 0 bytes.now tokens → ⊥ }
    ensures no_other { MatchResult result (λ _. Unit {0}) spec.IsCutFault }
{
    let mut tokens = Items::new(alloc);
    let mut here = bytes;
    let mut at: u32 = 0;
    'pieces: while let Some((first, rest)) = here.split_first() {
        if is_blank(*first) {
            here = rest;
            at += 1;
        } else {
            let len = piece_len(here);
            if len == 0 {
                return Err(LexFault::Syntax);
            }
            let (piece, after) = here.split_at(len);
            match word_of(alloc, piece)? {
                Some(word) => tokens.push(Token { column: at, word })?,
                None => return Err(LexFault::Syntax),
            }
            here = after;
            at += len as u32;
        }
    }
    Ok(tokens)
}

fn is_small(token: &Token) -> bool
    ensures { result ≡ spec.is_small token.now }
{
    match &token.word {
        Word::Name(name) => name.as_slice().len() <= NAME_LIMIT,
        Word::Primed(name) => name.as_slice().len() <= NAME_LIMIT,
        Word::Number(n) => *n <= i64::from(NUMBER_LIMIT),
        Word::Reserved(_) => true,
        Word::Sign(_) => true,
    }
}

fn all_small(tokens: &[Token]) -> bool
    ensures { result ≡ list_all spec.is_small tokens.now }
{
    tokens.iter().all(|token| is_small(token))
}

/// The tokens of a line, which is given without its end, or the first fault that it has.
pub fn lex_line(alloc: Global, line: &[u8]) -> Result<Items<Token>, LexFault>
    ensures { MatchResult result (spec.IsLexed line.now) (spec.Refuses line.now) }
{
    if line.len() > LINE_LIMIT {
        return Err(LexFault::Limit);
    }
    let body = body_of(line);
    if !are_allowed(body) {
        return Err(LexFault::Byte);
    }
    let tokens = tokens_of(alloc, body)?;
    if all_small(tokens.as_slice()) {
        Ok(tokens)
    } else {
        Err(LexFault::Limit)
    }
}
