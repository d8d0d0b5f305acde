//! The lines that declare.
#![tactic(auto, using(crate::proofs::Written::written_laws))]

ghost use Rattle.std.specs.Prelude.{◌≡◌, ◌++◌, List, [], ◌∷◌, map, OnOk};
ghost use Rattle.scr_tokens.specs.declared.word.Word.TheVariants as w;
ghost use Rattle.scr_spec.specs.Shown.{data_of};
ghost use Rattle.scr_printer.specs.Pages.{written};
ghost use Rattle.scr_printer.specs.Conds.{joined};
ghost use Rattle.scr_printer.specs.Text.{title_line};
ghost use Rattle.scr_printer.specs.Declarations as text;

use crate::event::put_sign_between;
use crate::names::type_name;
use crate::page::Line;
use crate::side::put_int;
use crate::value::put_value;
use base::{Name, NoMemory};
use scr_spec::{Constant, Domain, Kind, Role, Shape, Spec, TypeDef, Variable};
use scr_tokens::{Keyword, Sign};

// ---- lists of names

fn put_names(line: &mut Line, names: &[Name]) -> Result<(), NoMemory>
    ensures { OnOk result (line.new ≡ written line.old (text.names_words names.now)) }
{
    let mut is_first = true;
    for name in names {
        put_sign_between(line, is_first, Sign::Comma)?;
        line.put_name(name.as_slice())?;
        is_first = false;
    }
    Ok(())
}

fn put_braced(line: &mut Line, names: &[Name]) -> Result<(), NoMemory>
    ensures { OnOk result (line.new ≡ written line.old (text.braced_words names.now)) }
{
    line.put_sign(Sign::OpenBrace)?;
    put_names(line, names)?;
    line.put_sign(Sign::CloseBrace)
}

/// Writes the line of the title.
pub(crate) fn put_title(line: &mut Line, spec: &Spec) -> Result<(), NoMemory>
    ensures { OnOk result (line.new ≡ written line.old (title_line (data_of spec.now))) }
{
    line.put_keyword(Keyword::Specification)?;
    line.put_name(spec.name.as_slice())
}

// ---- types and constants

fn put_range(line: &mut Line, domain: Domain) -> Result<(), NoMemory>
    ensures { OnOk result (line.new ≡ written line.old (text.shape_words (Shape.Range domain))) }
{
    put_int(line, domain.lo)?;
    line.put_sign(Sign::Dots)?;
    put_int(line, domain.hi)
}

fn put_shape(line: &mut Line, shape: &Shape) -> Result<(), NoMemory>
    ensures { OnOk result (line.new ≡ written line.old (text.shape_words shape.now)) }
{
    match shape {
        Shape::Range(domain) => put_range(line, *domain),
        Shape::Labels(names) => put_braced(line, names.as_slice()),
    }
}

/// Writes the line of a type.
pub(crate) fn put_type(line: &mut Line, declared: &TypeDef) -> Result<(), NoMemory>
    ensures { OnOk result (line.new ≡ written line.old (text.type_line declared.now)) }
{
    line.put_keyword(Keyword::TypeWord)?;
    line.put_name(declared.name.as_slice())?;
    line.put_sign(Sign::Equal)?;
    put_shape(line, &declared.shape)
}

/// Writes the line of a constant.
pub(crate) fn put_constant(line: &mut Line, constant: &Constant) -> Result<(), NoMemory>
    ensures { OnOk result (line.new ≡ written line.old (text.constant_line constant.now)) }
{
    line.put_keyword(Keyword::Const)?;
    line.put_name(constant.name.as_slice())?;
    line.put_sign(Sign::Equal)?;
    put_int(line, constant.value)
}

// ---- variables

fn put_init(line: &mut Line, types: &[TypeDef], variable: &Variable) -> Result<(), NoMemory>
    ensures { OnOk result (line.new ≡ written line.old (text.init_words types.now variable.now)) }
{
    match variable.init {
        None => Ok(()),
        Some(code) => {
            line.put_keyword(Keyword::Init)?;
            put_value(line, types, &variable.kind, code)
        }
    }
}

fn role_word(role: Role) -> Keyword
    ensures { result ≡ text.role_word role }
{
    match role {
        Role::Monitored => Keyword::Monitored,
        Role::Mode => Keyword::ModeClass,
        Role::Term => Keyword::Term,
        Role::Controlled => Keyword::Controlled,
    }
}

fn put_kind(line: &mut Line, spec: &Spec, kind: &Kind) -> Result<(), NoMemory>
    ensures { OnOk result (line.new ≡ written line.old (text.kind_words (data_of spec.now) kind.now)) }
{
    match kind {
        Kind::Boolean => {
            line.put_sign(Sign::Colon)?;
            line.put_keyword(Keyword::Boolean)
        }
        Kind::Named(k) => {
            line.put_sign(Sign::Colon)?;
            line.put_name(type_name(spec, *k))
        }
        Kind::Modes(names) => {
            line.put_sign(Sign::Equal)?;
            put_braced(line, names.as_slice())
        }
    }
}

/// Writes the line of a variable, without that of its bound.
pub(crate) fn put_variable(
    line: &mut Line,
    spec: &Spec,
    variable: &Variable,
) -> Result<(), NoMemory>
    ensures { OnOk result (line.new ≡ written line.old (text.variable_line (data_of spec.now) variable.now)) }
{
    line.put_keyword(role_word(variable.role))?;
    line.put_name(variable.name.as_slice())?;
    put_kind(line, spec, &variable.kind)?;
    put_init(line, spec.types.as_slice(), variable)
}

/// Writes the line of a bound.
pub(crate) fn put_bound(line: &mut Line, variable: &Variable, step: i64) -> Result<(), NoMemory>
    ensures { OnOk result (line.new ≡ written line.old (text.bound_line variable.now step)) }
{
    line.put_keyword(Keyword::Nat)?;
    line.put_name(variable.name.as_slice())?;
    line.put_keyword(Keyword::Step)?;
    line.put_number(step)
}
