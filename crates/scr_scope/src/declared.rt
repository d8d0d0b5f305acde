//! The rules of the lines that declare, each by the first name on the line that breaks it.
ghost use Rattle.std.specs.Prelude.{◌≡◌, ◌∷◌};
ghost use Rattle.std.specs.Option.{option_copied};
ghost use Rattle.scr_spec.specs.Types.{is_integer_kind};
ghost use Rattle.scr_scope.specs.Declarations as spec;

use crate::first::{declared_again, is_among, unless};
use crate::known::Known;
use crate::meaning::Meaning;
use crate::side::has_sort;
use base::Name;
use scr_parse::{DraftKind, DraftValue, Statement};
use scr_spec::{Kind, Sort, TypeDef, constant_value, kind_range, type_sort};

fn fixed_sort(meaning: Meaning) -> Option<Sort>
    ensures { result ≡ spec.fixed_sort meaning }
{
    match meaning {
        Meaning::Constant(_) => Some(Sort::Integer),
        Meaning::Label(owner, _) => Some(Sort::Labels(owner)),
        _ => None,
    }
}

fn is_integer(types: &[TypeDef], kind: &Kind) -> bool
    ensures { result ≡ is_integer_kind types.now kind.now }
{
    kind_range(types, kind).is_some()
}

impl Known {
    fn has_bound(&self, name: &Name) -> bool
        ensures { result ≡ spec.has_bound self.now name.now }
    {
        match self.variable_of(name) {
            Some(variable) => variable.bound.is_some(),
            None => false,
        }
    }

    /// The first name on the line that is declared again, or that has a bound already.
    pub fn duplicate_declaration<'a>(&self, statement: &'a Statement) -> Option<&'a Name>
        ensures { option_copied result ≡ spec.duplicate_declaration self.now statement.now }
    {
        match statement {
            Statement::Range(name, _, _)
            | Statement::Constant(name, _)
            | Statement::Variable(_, name, _, _) => declared_again(&self.names, name, &[]),
            Statement::Labels(name, more) | Statement::Class(name, more, _) => {
                declared_again(&self.names, name, more.as_slice())
            }
            Statement::Nat(name, _) => unless(!self.has_bound(name), name),
            _ => None,
        }
    }

    fn unknown_kind<'a>(&self, kind: &'a DraftKind) -> Option<&'a Name>
        ensures { option_copied result ≡ spec.unknown_kind self.now kind.now }
    {
        match kind {
            DraftKind::Boolean => None,
            DraftKind::Named(name) => self.unknown(name),
        }
    }

    fn unknown_init<'a>(&self, init: &'a Option<DraftValue>) -> Option<&'a Name>
        ensures { option_copied result ≡ spec.unknown_init self.now init.now }
    {
        match init {
            Some(DraftValue::Named(name)) => self.unknown(name),
            _ => None,
        }
    }

    fn unknown_mode<'a>(&self, name: &Name, modes: &[Name], init: &'a Name) -> Option<&'a Name>
        ensures { option_copied result ≡ spec.unknown_mode self.now name.now modes.now init.now }
    {
        if init.is_same(name) || is_among(modes, init) {
            None
        } else {
            self.unknown(init)
        }
    }

    /// The first name that the line uses and that is not declared.
    pub fn unknown_declaration<'a>(&self, statement: &'a Statement) -> Option<&'a Name>
        ensures { option_copied result ≡ spec.unknown_declaration self.now statement.now }
    {
        match statement {
            Statement::Variable(_, _, kind, init) => match self.unknown_kind(kind) {
                Some(name) => Some(name),
                None => self.unknown_init(init),
            },
            Statement::Class(name, modes, init) => self.unknown_mode(name, modes.as_slice(), init),
            Statement::Nat(name, _) => self.unknown(name),
            _ => None,
        }
    }

    fn no_type<'a>(&self, kind: &'a DraftKind) -> Option<&'a Name>
        ensures { option_copied result ≡ spec.no_type self.now kind.now }
    {
        match kind {
            DraftKind::Boolean => None,
            DraftKind::Named(name) => unless(self.type_named(name).is_some(), name),
        }
    }

    fn drawn_sort(&self, kind: &DraftKind) -> Option<Sort>
        ensures { result ≡ spec.drawn_sort self.now kind.now }
    {
        match kind {
            DraftKind::Boolean => Some(Sort::Boolean),
            DraftKind::Named(name) => {
                Some(type_sort(self.types.as_slice(), self.type_named(name)?))
            }
        }
    }

    fn value_sort(&self, value: &DraftValue) -> Option<Sort>
        ensures { result ≡ spec.value_sort self.now value.now }
    {
        match value {
            DraftValue::Number(_) => Some(Sort::Integer),
            DraftValue::Truth(_) => Some(Sort::Boolean),
            DraftValue::Named(name) => fixed_sort(self.names.get(name)?),
        }
    }

    fn is_value_typed(&self, kind: &DraftKind, value: &DraftValue) -> bool
        ensures { result ≡ spec.is_value_typed self.now kind.now value.now }
    {
        match self.drawn_sort(kind) {
            Some(sort) => has_sort(sort, self.value_sort(value)),
            None => false,
        }
    }

    fn is_init_typed(&self, kind: &DraftKind, init: &Option<DraftValue>) -> bool
        ensures { result ≡ spec.is_init_typed self.now kind.now init.now }
    {
        match init {
            None => true,
            Some(value) => self.is_value_typed(kind, value),
        }
    }

    fn ill_variable<'a>(
        &self,
        name: &'a Name,
        kind: &'a DraftKind,
        init: &Option<DraftValue>,
    ) -> Option<&'a Name>
        ensures { option_copied result ≡ spec.ill_variable self.now name.now kind.now init.now }
    {
        match self.no_type(kind) {
            Some(found) => Some(found),
            None => unless(self.is_init_typed(kind, init), name),
        }
    }

    fn takes_bound(&self, name: &Name) -> bool
        ensures { result ≡ spec.takes_bound self.now name.now }
    {
        match self.variable_of(name) {
            Some(variable) => {
                variable.role.is_monitored() && is_integer(self.types.as_slice(), &variable.kind)
            }
            None => false,
        }
    }

    /// The name on the line for which it is ill typed.
    pub fn ill_declaration<'a>(&self, statement: &'a Statement) -> Option<&'a Name>
        ensures { option_copied result ≡ spec.ill_declaration self.now statement.now }
    {
        match statement {
            Statement::Variable(_, name, kind, init) => self.ill_variable(name, kind, init),
            Statement::Class(name, modes, init) => unless(is_among(modes.as_slice(), init), name),
            Statement::Nat(name, _) => unless(self.takes_bound(name), name),
            _ => None,
        }
    }

    pub(crate) fn kind_of(&self, kind: &DraftKind) -> Kind
        ensures { result ≡ spec.kind_of self.now kind.now }
    {
        match kind {
            DraftKind::Boolean => Kind::Boolean,
            DraftKind::Named(name) => match self.type_named(name) {
                Some(k) => Kind::Named(k),
                None => Kind::Boolean,
            },
        }
    }

    fn fixed_code(&self, meaning: Meaning) -> i64
        ensures { result ≡ spec.fixed_code self.now meaning }
    {
        match meaning {
            Meaning::Constant(k) => constant_value(self.constants.as_slice(), k),
            Meaning::Label(_, place) => i64::from(place),
            _ => 0,
        }
    }

    pub(crate) fn value_code(&self, value: &DraftValue) -> i64
        ensures { result ≡ spec.value_code self.now value.now }
    {
        match value {
            DraftValue::Number(number) => *number,
            DraftValue::Truth(truth) => i64::from(*truth),
            DraftValue::Named(name) => match self.names.get(name) {
                Some(meaning) => self.fixed_code(meaning),
                None => 0,
            },
        }
    }

    fn is_init_within(&self, kind: &DraftKind, init: &Option<DraftValue>) -> bool
        ensures { result ≡ spec.is_init_within self.now kind.now init.now }
    {
        match init {
            None => true,
            Some(value) => match kind_range(self.types.as_slice(), &self.kind_of(kind)) {
                Some(domain) => domain.contains(self.value_code(value)),
                None => true,
            },
        }
    }

    /// The name that the line declares or bounds, where a number of the line is out of its range.
    pub fn outside_declaration<'a>(&self, statement: &'a Statement) -> Option<&'a Name>
        ensures { option_copied result ≡ spec.outside_declaration self.now statement.now }
    {
        match statement {
            Statement::Range(name, low, high) => unless(*low <= *high, name),
            Statement::Variable(_, name, kind, init) => unless(
                self.is_init_within(kind, init),
                name,
            ),
            Statement::Nat(name, step) => unless(*step != 0, name),
            _ => None,
        }
    }
}
