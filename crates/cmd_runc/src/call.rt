//! A call line: a name and a number.
ghost use Rattle.std.specs.Prelude.{◌≡◌, true};
ghost use Rattle.c_subset.specs.Names.{is_word};
ghost use Rattle.c_subset.specs.Kinds.{is_number_in_range};
ghost use Rattle.c_subset.specs.Runs.{takes_call};
ghost use Rattle.base_script.specs.Words.{words_of};
ghost use Rattle.cmd_runc.specs.Lines as reading;

use base::{are_word_bytes, body_of};
use base_script::{ScriptKind, cut_word, first_and_rest, is_number, is_readable};
use c_machine::{Machine, MachineFault};
use c_reader::number_of;

/// The greatest argument of a call, and with a minus before it the least.
const ARGUMENT_LIMIT: i64 = 2_147_483_647;

/// What a line of calls comes to.
#[derive(Clone, Copy, Debug, PartialEq, Eq)]
pub enum Taken {
    /// It is blank or a comment.
    Nothing,
    /// It holds a call, which was made.
    Called,
    /// It holds no call.
    Faulty(ScriptKind),
    /// It holds a call that has no meaning.
    Overflow,
}

fn is_word(word: &[u8]) -> bool
    ensures { result ≡ is_word word.now }
{
    match first_and_rest(word) {
        Some((first, rest)) => first.is_ascii_alphabetic() && are_word_bytes(rest),
        None => false,
    }
}

fn number_value(word: &[u8]) -> i64
    ensures { result ≡ reading.number_value word.now }
{
    match first_and_rest(word) {
        Some((first, rest)) => {
            if first == b'-' {
                -(number_of(rest) as i64)
            } else {
                number_of(word) as i64
            }
        }
        None => 0,
    }
}

fn is_number_in_range(number: i64) -> bool
    ensures { result ≡ is_number_in_range number }
{
    -ARGUMENT_LIMIT <= number && number <= ARGUMENT_LIMIT
}

fn is_call(name: &[u8], word: &[u8]) -> bool
    ensures { result ≡ reading.is_call name.now word.now }
{
    is_word(name) && is_number(word)
}

/// Calls a function with a parameter.
#[tactic(auto, using(crate::proofs::CallForms::made_laws))]
fn make_call(machine: &mut Machine<'_>, name: &[u8], number: i64) -> Taken
    requires { takes_call machine.old.unit name.now ≡ true }
    ensures taken { result ≡ reading.made machine.old name.now number }
    ensures after { machine.new ≡ reading.after_made machine.old name.now number }
{
    match machine.call(name, number) {
        Ok(()) => Taken::Called,
        Err(MachineFault::NoFunction) => Taken::Faulty(ScriptKind::Unknown),
        Err(MachineFault::Overflow) => Taken::Overflow,
    }
}

/// Takes a name and a number.
fn take_call(machine: &mut Machine<'_>, name: &[u8], word: &[u8]) -> Taken
    ensures taken { result ≡ reading.taken_of machine.old (reading.read_call machine.old.unit name.now word.now) }
    ensures after { machine.new ≡ reading.after_reading machine.old (reading.read_call machine.old.unit name.now word.now) }
{
    if !machine.has_setter(name) {
        return Taken::Faulty(ScriptKind::Unknown);
    }
    let number = number_value(word);
    if is_number_in_range(number) {
        make_call(machine, name, number)
    } else {
        Taken::Faulty(ScriptKind::Value)
    }
}

/// Takes the words of a line.
#[tactic(auto, using(crate::proofs::CallForms::form_laws))]
fn take_words(machine: &mut Machine<'_>, bytes: &[u8]) -> Taken
    ensures taken { result ≡ reading.taken_of machine.old (reading.read_words machine.old.unit (words_of bytes.now)) }
    ensures after { machine.new ≡ reading.after_reading machine.old (reading.read_words machine.old.unit (words_of bytes.now)) }
{
    let Some((name, rest)) = cut_word(bytes) else {
        return Taken::Nothing;
    };
    let Some((word, rest)) = cut_word(rest) else {
        return Taken::Faulty(ScriptKind::Syntax);
    };
    match cut_word(rest) {
        Some(_) => Taken::Faulty(ScriptKind::Syntax),
        None => {
            if is_call(name, word) {
                take_call(machine, name, word)
            } else {
                Taken::Faulty(ScriptKind::Syntax)
            }
        }
    }
}

/// Takes a line of calls, which is given without its end, and makes its call. After a fault and after a call that has
/// no meaning the objects are as before. No memory is taken.
pub fn take_line(machine: &mut Machine<'_>, line: &[u8]) -> Taken
    ensures taken { result ≡ reading.taken_of machine.old (reading.read_line machine.old.unit line.now) }
    ensures after { machine.new ≡ reading.after_reading machine.old (reading.read_line machine.old.unit line.now) }
{
    if is_readable(line) {
        take_words(machine, body_of(line))
    } else {
        Taken::Faulty(ScriptKind::Syntax)
    }
}
