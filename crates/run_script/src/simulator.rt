//! The simulator.
ghost use Rattle.std.specs.Prelude.{◌≡◌, length, IfOk, IfErr, MatchResult};
ghost use Rattle.scr_spec.specs.Shown.{data_of};
ghost use Rattle.run_step.specs.Runs.{IsInitial, IsInput, IsStep, IsReached};
ghost use Rattle.run_script.specs.Feeds.{Feeds, Refuses};

use crate::fault::ScriptFault;
use crate::script::read_line;
use base::NoMemory;
use run_step::{initial, step_into};
use scr_depend::Checked;
use scr_spec::{Input, State};
use sqlite_items::Items;
use std::alloc::Global;
use std::mem;

/// A specification that runs. Its type keeps that the present state is a state of a run.
#[derive(Drop)]
pub struct Simulator<'a> {
    pub checked: &'a Checked,
    pub state: State,
    /// Room for the next state.
    pub spare: State,
    // behind `∥ ∥₁`, since the type knows that there are such inputs, and not which
    pub ghost reached: { ∥ IsReached (data_of checked.now.spec) state.codes ∥₁ },
    pub ghost room: { length spare.codes ≡ length checked.now.spec.variables },
}

fn copy_of(alloc: Global, state: &State) -> Result<State, NoMemory>
    ensures { IfOk result (λ copy. copy.codes ≡ state.now.codes) }
{
    let codes = Items::from_slice(alloc, state.codes.as_slice())?;
    Ok(State { codes })
}

impl<'a> Simulator<'a> {
    /// A simulator that stands at the initial state. This takes all the memory that it needs.
    pub fn new(alloc: Global, checked: &'a Checked) -> Result<Simulator<'a>, NoMemory>
        ensures same { IfOk result (λ simulator. simulator.checked.now ≡ checked.now) }
        ensures initial { IfOk result (λ simulator. IsInitial (data_of checked.now.spec) simulator.state.codes) }
    {
        let state = initial(alloc, checked)?;
        let spare = copy_of(alloc, &state)?;
        Ok(Simulator {
            checked,
            state,
            spare,
        })
    }

    /// The present state.
    pub fn state(&self) -> &State
        ensures { result.now ≡ self.now.state }
    {
        &self.state
    }

    /// Takes an input that may come now.
    fn take(&mut self, input: Input)
        requires { IsInput (data_of self.old.checked.now.spec) self.old.state.codes input }
        ensures same { self.new.checked.now ≡ self.old.checked.now }
        ensures step { IsStep (data_of self.old.checked.now.spec) self.old.state.codes input self.new.state.codes }
    {
        step_into(self.checked, &self.state, input, &mut self.spare);
        mem::swap(&mut self.state, &mut self.spare);
    }

    /// Takes a script line, which is given without its end. True: it held an input, and the state is
    /// the next one. False: it is blank or a comment, and the state stays. After a fault it stays,
    /// too.
    pub fn feed_line(&mut self, line: &[u8]) -> Result<bool, ScriptFault>
        ensures same { self.new.checked.now ≡ self.old.checked.now }
        ensures fed { MatchResult result
            (λ held. Feeds (data_of self.old.checked.now.spec) line.now self.old.state.codes self.new.state.codes held)
            (λ fault. Refuses (data_of self.old.checked.now.spec) line.now self.old.state.codes self.new.state.codes fault) }
        ensures unchanged { IfErr result (λ _. self.new ≡ self.old) }
    {
        match read_line(self.checked.spec(), &self.state, line)? {
            Some(input) => {
                self.take(input);
                Ok(true)
            }
            None => Ok(false),
        }
    }
}
