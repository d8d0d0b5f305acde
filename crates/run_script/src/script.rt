//! What a script line is in a state.
ghost use Rattle.std.specs.Prelude.{◌≡◌, ◌≤◌, ◌-ℤ◌, ◌&&◌, int_le, unsigned_abs, IsTrue, MatchOption};
ghost use Rattle.scr_spec.specs.Shown.{data_of};
ghost use Rattle.scr_spec.specs.Meaning.{code_of};
ghost use Rattle.scr_spec.specs.Domains.{IsTyped};
ghost use Rattle.scr_depend.specs.Related.{bound_of};
ghost use Rattle.base_script.specs.Words.{words_of};
ghost use Rattle.run_script.specs.Script as reading;

use crate::fault::ScriptFault;
use crate::value::value_of;
use crate::word::{is_plain_name, is_value};
use base::body_of;
use base_script::{cut_word, is_readable};
use scr_spec::{Input, Spec, State};

fn monitored_named(spec: &Spec, name: &[u8]) -> Option<usize>
    ensures { result ≡ reading.monitored_named (data_of spec.now) name.now }
{
    match spec.find(name) {
        Some(v) => { if spec.is_monitored(v) { Some(v) } else { None } }
        None => None,
    }
}

#[tactic(auto, using(run_step::proofs::Calls::none_read))]
fn code_of(at: &State, v: usize) -> i64
    ensures { result ≡ code_of at.now.codes v }
{
    match at.codes.get(v) {
        Some(code) => *code,
        None => 0,
    }
}

#[tactic(auto, using(scr_spec::proofs::Lookup::lookup_laws))]
fn bound_of(spec: &Spec, v: usize) -> Option<i64>
    ensures { result ≡ bound_of (data_of spec.now) v }
{
    match spec.variables.get(v) {
        Some(variable) => variable.bound,
        None => None,
    }
}

fn difference(from: i64, to: i64) -> i64
    requires from { unsigned_abs from ≤ 1000000 }
    requires to { unsigned_abs to ≤ 1000000 }
    ensures { result ≡ to -ℤ from }
{
    to - from
}

fn is_from_to(least: i64, most: i64, number: i64) -> bool
    ensures { result ≡ int_le least number && int_le number most }
{
    least <= number && number <= most
}

/// Whether the change is within the bound, where there is one.
fn is_bounded(bound: Option<i64>, change: i64) -> bool
    requires { MatchOption bound (Unit {0}) (λ k. unsigned_abs k ≤ 1000000) }
    ensures { result ≡ reading.is_bounded bound change }
{
    match bound {
        Some(k) => is_from_to(-k, k, change),
        None => true,
    }
}

fn read_code(spec: &Spec, at: &State, v: usize, code: i64) -> Result<Option<Input>, ScriptFault>
    requires from { unsigned_abs (code_of at.now.codes v) ≤ 1000000 }
    requires to { unsigned_abs code ≤ 1000000 }
    requires bound { MatchOption (bound_of (data_of spec.now) v) (Unit {0}) (λ k. unsigned_abs k ≤ 1000000) }
    ensures { result ≡ reading.read_code (data_of spec.now) at.now.codes v code }
{
    let present = code_of(at, v);
    if code == present {
        return Err(ScriptFault::NoChange);
    }
    if is_bounded(bound_of(spec, v), difference(present, code)) {
        Ok(Some(Input { variable: v, code }))
    } else {
        Err(ScriptFault::Nat)
    }
}

fn read_value(spec: &Spec, at: &State, word: &[u8], v: usize) -> Result<Option<Input>, ScriptFault>
    requires { IsTyped (data_of spec.now) at.now.codes }
    ensures { result ≡ reading.read_value (data_of spec.now) at.now.codes word.now v }
{
    match value_of(spec, v, word) {
        Some(code) => read_code(spec, at, v, code),
        None => Err(ScriptFault::Value),
    }
}

fn read_set(spec: &Spec, at: &State, name: &[u8], word: &[u8]) -> Result<Option<Input>, ScriptFault>
    requires { IsTyped (data_of spec.now) at.now.codes }
    ensures { result ≡ reading.read_set (data_of spec.now) at.now.codes name.now word.now }
{
    match monitored_named(spec, name) {
        Some(v) => read_value(spec, at, word, v),
        None => Err(ScriptFault::Unknown),
    }
}

fn is_set(first: &[u8], name: &[u8], word: &[u8]) -> bool
    ensures { result ≡ reading.is_set first.now name.now word.now }
{
    first == b"SET".as_slice() && is_plain_name(name) && is_value(word)
}

#[tactic(auto, using(crate::proofs::Forms::form_laws))]
fn read_words(spec: &Spec, at: &State, bytes: &[u8]) -> Result<Option<Input>, ScriptFault>
    requires { IsTyped (data_of spec.now) at.now.codes }
    ensures { result ≡ reading.read_words (data_of spec.now) at.now.codes (words_of bytes.now) }
{
    let Some((first, rest)) = cut_word(bytes) else {
        return Ok(None);
    };
    let Some((name, rest)) = cut_word(rest) else {
        return Err(ScriptFault::Syntax);
    };
    let Some((word, rest)) = cut_word(rest) else {
        return Err(ScriptFault::Syntax);
    };
    match cut_word(rest) {
        Some(_) => Err(ScriptFault::Syntax),
        None => {
            if is_set(first, name, word) {
                read_set(spec, at, name, word)
            } else {
                Err(ScriptFault::Syntax)
            }
        }
    }
}

/// What a script line is in this state: an input; nothing, where it is blank or a comment; or its
/// first fault. The line is given without its end.
pub fn read_line(spec: &Spec, at: &State, line: &[u8]) -> Result<Option<Input>, ScriptFault>
    requires { IsTyped (data_of spec.now) at.now.codes }
    ensures { result ≡ reading.read_line (data_of spec.now) at.now.codes line.now }
{
    if is_readable(line) {
        read_words(spec, at, body_of(line))
    } else {
        Err(ScriptFault::Syntax)
    }
}
