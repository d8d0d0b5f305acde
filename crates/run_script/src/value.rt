//! What a word is as a value of a variable.
ghost use Rattle.std.specs.Prelude.{◌≡◌, ◌<◌, ◌≤◌, pos, unsigned_abs, length};
ghost use Rattle.std.specs.List.{position};
ghost use Rattle.std.specs.Str.{bytes_eq};
ghost use Rattle.scr_spec.specs.Shown.{data_of};
ghost use Rattle.run_script.specs.Values.{number_value, truth_value, range_value, label_value, shape_value, kind_value, value_of};

use base::{Name, number_of};
use base_script::{first_and_rest, is_number};
use scr_spec::{Domain, Kind, Shape, Spec, TypeDef};

fn number_value(word: &[u8]) -> i64
    ensures { result ≡ number_value word.now }
{
    match first_and_rest(word) {
        Some((first, rest)) => {
            if first == b'-' {
                -i64::from(number_of(rest))
            } else {
                i64::from(number_of(word))
            }
        }
        None => 0,
    }
}

fn truth_value(word: &[u8]) -> Option<i64>
    ensures { result ≡ truth_value word.now }
{
    if word == b"TRUE".as_slice() {
        Some(1)
    } else if word == b"FALSE".as_slice() {
        Some(0)
    } else {
        None
    }
}

fn range_value(domain: &Domain, word: &[u8]) -> Option<i64>
    ensures { result ≡ range_value domain.now word.now }
{
    let number = number_value(word);
    if is_number(word) && domain.contains(number) {
        Some(number)
    } else {
        None
    }
}

fn place_of(names: &[Name], word: &[u8]) -> Option<usize>
    ensures { result ≡ position (λ name. bytes_eq name word.now) names.now }
{
    names.iter().position(|name| name.as_slice() == word)
}

fn label_value(names: &[Name], word: &[u8]) -> Option<i64>
    ensures { result ≡ label_value names.now word.now }
{
    match place_of(names, word) {
        Some(place) => Some(place as i64),
        None => None,
    }
}

fn shape_value(shape: &Shape, word: &[u8]) -> Option<i64>
    ensures { result ≡ shape_value shape.now word.now }
{
    match shape {
        Shape::Range(domain) => range_value(domain, word),
        Shape::Labels(names) => label_value(names.as_slice(), word),
    }
}

fn kind_value(types: &[TypeDef], kind: &Kind, word: &[u8]) -> Option<i64>
    ensures { result ≡ kind_value types.now kind.now word.now }
{
    match kind {
        Kind::Boolean => truth_value(word),
        Kind::Named(k) => match types.get(*k) {
            Some(declared) => shape_value(&declared.shape, word),
            None => None,
        },
        Kind::Modes(names) => label_value(names.as_slice(), word),
    }
}

/// The code of the value of the variable that the word names.
#[tactic(auto, using(scr_spec::proofs::Lookup::lookup_laws))]
pub(crate) fn value_of(spec: &Spec, v: usize, word: &[u8]) -> Option<i64>
    ensures { result ≡ value_of (data_of spec.now) v word.now }
{
    match spec.variables.get(v) {
        Some(variable) => kind_value(spec.types.as_slice(), &variable.kind, word),
        None => None,
    }
}
