//! A specification.
ghost use Rattle.std.specs.Prelude.{◌≡◌};
ghost use Rattle.scr_spec.specs.Domains.{list_domain, shape_domain, kind_domain};
ghost use Rattle.scr_spec.specs.Sound.{IsSound};

use crate::table::Table;
use base::Name;
use dd_formula::Domain;
use sqlite_items::Items;

/// What a variable is for. `Mode` is a mode class.
#[derive(Clone, Copy, PartialEq, Eq)]
pub enum Role {
    Monitored,
    Mode,
    Term,
    Controlled,
}

/// The values of a declared type: a range of integers, or a list of enumerators.
#[derive(Drop)]
pub enum Shape {
    Range(Domain),
    Labels(Items<Name>),
}

/// A `TYPE` line.
#[derive(Drop)]
pub struct TypeDef {
    pub name: Name,
    pub shape: Shape,
}

/// A `CONST` line.
#[derive(Drop)]
pub struct Constant {
    pub name: Name,
    pub value: i64,
}

/// The kind of a variable's values: `BOOLEAN`, a declared type, or the modes of a class.
#[derive(Drop)]
pub enum Kind {
    Boolean,
    Named(usize),
    Modes(Items<Name>),
}

/// A variable: its initial code where one is written, and its bound where a `NAT` line gives one.
#[derive(Drop)]
pub struct Variable {
    pub name: Name,
    pub role: Role,
    pub kind: Kind,
    pub init: Option<i64>,
    pub bound: Option<i64>,
}

/// A specification: what a text spells. Its type keeps the rules of `IsSound`.
#[derive(Drop)]
pub struct Spec {
    pub name: Name,
    pub types: Items<TypeDef>,
    pub constants: Items<Constant>,
    pub variables: Items<Variable>,
    pub tables: Items<Table>,
    pub ghost sound: { IsSound (record { name = name; types = types; constants = constants; variables = variables; tables = tables }) },
}

impl Role {
    ghost use Rattle.scr_spec.specs.Roles.{is_monitored_role, is_class_role, is_computed_role};

    /// Whether the values come from outside. Every other variable is a dependent one.
    pub fn is_monitored(&self) -> bool
        ensures { result ≡ is_monitored_role self.now }
    {
        match self {
            Role::Monitored => true,
            _ => false,
        }
    }

    /// Whether it is a mode class.
    pub fn is_class(&self) -> bool
        ensures { result ≡ is_class_role self.now }
    {
        match self {
            Role::Mode => true,
            _ => false,
        }
    }

    /// Whether a condition table or an event table gives the values.
    pub fn is_computed(&self) -> bool
        ensures { result ≡ is_computed_role self.now }
    {
        match self {
            Role::Term => true,
            Role::Controlled => true,
            _ => false,
        }
    }
}

/// The places in a list of names.
fn places_of(names: &[Name]) -> Domain
    ensures { result ≡ list_domain names.now }
{
    Domain {
        lo: 0,
        hi: names.len() as i64 - 1,
    }
}

impl Shape {
    fn domain(&self) -> Domain
        ensures { result ≡ shape_domain self.now }
    {
        match self {
            Shape::Range(domain) => *domain,
            Shape::Labels(names) => places_of(names.as_slice()),
        }
    }
}

impl Kind {
    /// The codes of a variable of this kind. A type that is not there has the code 0 alone.
    pub fn domain(&self, types: &[TypeDef]) -> Domain
        ensures { result ≡ kind_domain types.now self.now }
    {
        match self {
            Kind::Boolean => Domain { lo: 0, hi: 1 },
            Kind::Named(k) => match types.get(*k) {
                Some(declared) => declared.shape.domain(),
                None => Domain { lo: 0, hi: 0 },
            },
            Kind::Modes(names) => places_of(names.as_slice()),
        }
    }
}

impl Spec {
    ghost use Rattle.std.specs.Prelude.{◌≡◌, ◌<◌, length};
    ghost use Rattle.scr_spec.specs.Domains.{domain_of};
    ghost use Rattle.scr_spec.specs.Names.{variable_named};
    ghost use Rattle.scr_spec.specs.Shown.{data_of};

    /// The least and the greatest code of a variable.
    pub fn domain(&self, v: usize) -> Domain
        requires { v < length self.now.variables }
        ensures { result ≡ domain_of (data_of self.now) v }
    {
        self.variables.as_slice()[v]
            .kind
            .domain(self.types.as_slice())
    }

    /// The number of the variable of that name.
    pub fn find(&self, name: &[u8]) -> Option<usize>
        ensures { result ≡ variable_named (data_of self.now) name.now }
    {
        self.variables
            .as_slice()
            .iter()
            .position(|x| x.name.as_slice() == name)
    }
}
