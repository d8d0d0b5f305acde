//! What a specification has at the number of a variable.
ghost use Rattle.std.specs.Prelude.{◌≡◌};
ghost use Rattle.std.specs.Option.{option_copied};
ghost use Rattle.scr_spec.specs.Names.{variable_name};
ghost use Rattle.scr_spec.specs.Shown.{data_of};
ghost use Rattle.scr_spec.specs.Relations as spec;

use crate::spec::Spec;
use crate::table::Table;

/// The name of the variable with this number, empty behind the last one.
pub fn variable_name(spec: &Spec, v: usize) -> &[u8]
    ensures { result.now ≡ variable_name (data_of spec.now) v }
{
    match spec.variables.get(v) {
        Some(variable) => variable.name.as_slice(),
        None => &[],
    }
}

impl Spec {
    /// Whether the variable with this number is a monitored one. No where there is none.
    #[tactic(auto, using(crate::proofs::Lookup::lookup_laws))]
    pub fn is_monitored(&self, v: usize) -> bool
        ensures { result ≡ spec.is_monitored (data_of self.now) v }
    {
        match self.variables.get(v) {
            Some(variable) => variable.role.is_monitored(),
            None => false,
        }
    }

    /// The table of the variable with this number. A monitored variable has none.
    #[tactic(auto, using(crate::proofs::Lookup::lookup_laws))]
    pub fn table_of(&self, v: usize) -> Option<&Table>
        ensures { option_copied result ≡ spec.table_of (data_of self.now) v }
    {
        self.tables
            .as_slice()
            .iter()
            .find(|table| table.variable == v)
    }
}
