//! The history.
ghost use Rattle.std.specs.Prelude.{◌≡◌, ◌+◌, ◌<◌, ◌≤◌, ◌^◌, [], length, Some, None, IfOk, MatchResult};
ghost use Rattle.std.proofs.Props.{props};
ghost use Rattle.scr_spec.specs.Shown.{data_of};
ghost use Rattle.run_step.specs.Runs.{IsInitial, IsInput};
ghost use Rattle.run_back.specs.Kept.{kept, IsOfRun, HaveLength};
ghost use Rattle.run_back.specs.Room.{MakesRoom};
ghost use Rattle.run_back.specs.Replays.{GoesOn, GoesBack, Replays, Refuses};
ghost use Rattle.run_back.specs.StepBack.{count_back};

use crate::back::count_back;
use crate::fault::{ReplayFault, Replayed};
use base::NoMemory;
use circular_buffer::HeapCircularBuffer;
use run_script::read_line;
use run_step::{initial, step_into};
use scr_depend::Checked;
use scr_spec::{Input, State};
use sqlite_items::Items;
use std::alloc::Global;
use std::mem;

/// The greatest number of states to which a script may step back.
pub(crate) const DEPTH: usize = 256;

/// A specification that runs, and that can step back. Its type keeps that the earlier states and the
/// present one are the last states of a run, and that the number is that of its inputs.
#[derive(Drop)]
pub struct History<'a> {
    pub checked: &'a Checked,
    pub state: State,
    /// How many inputs are held.
    pub number: u64,
    /// The codes of the earlier states, oldest first.
    pub earlier: HeapCircularBuffer<Items<i64>>,
    /// Room for the codes of states to come.
    pub spares: HeapCircularBuffer<Items<i64>>,
    // behind `∥ ∥₁`, since the type knows that there is such a run, and not which
    pub ghost of_run: { ∥ IsOfRun (data_of checked.now.spec) (kept earlier.items state.codes number) ∥₁ },
    pub ghost room: { length earlier.items + length spares.items ≡ 256 },
    pub ghost earlier_capacity: { earlier.capacity ≡ 256 },
    pub ghost spares_capacity: { spares.capacity ≡ 256 },
    pub ghost earlier_length: { HaveLength (length checked.now.spec.variables) earlier.items } by { Prim.hlevel props },
    pub ghost spares_length: { HaveLength (length checked.now.spec.variables) spares.items } by { Prim.hlevel props },
}

/// Room for as many states as there may be earlier ones.
fn spare_codes(alloc: Global, state: &State) -> Result<HeapCircularBuffer<Items<i64>>, NoMemory>
    ensures many { IfOk result (λ spares. length spares.items ≡ 256) }
    ensures capacity { IfOk result (λ spares. spares.capacity ≡ 256) }
    ensures length { IfOk result (λ spares. HaveLength (length state.now.codes) spares.items) }
{
    let mut spares = HeapCircularBuffer::with_capacity(alloc, DEPTH)?;
    for _ in 0..DEPTH {
        let codes = Items::from_slice(alloc, state.codes.as_slice())?;
        spares.push_back(codes);
    }
    Ok(spares)
}

/// Room for one more state: a spare one, or the oldest of the earlier ones where none is spare.
fn take_room(
    earlier: &mut HeapCircularBuffer<Items<i64>>,
    spares: &mut HeapCircularBuffer<Items<i64>>,
) -> Items<i64>
    requires { length earlier.old.items + length spares.old.items ≡ 256 }
    ensures { MakesRoom earlier.old spares.old earlier.new spares.new result }
{
    match spares.pop_back() {
        Some(codes) => codes,
        None => match earlier.pop_front() {
            Some(codes) => codes,
            None => unreachable!(),
        },
    }
}

impl<'a> History<'a> {
    /// A history that stands at the initial state and holds no input. This takes all the memory that
    /// it needs.
    pub fn new(alloc: Global, checked: &'a Checked) -> Result<History<'a>, NoMemory>
        ensures same { IfOk result (λ history. history.checked.now ≡ checked.now) }
        ensures initial { IfOk result (λ history. IsInitial (data_of checked.now.spec) history.state.codes) }
        ensures none { IfOk result (λ history. (history.earlier.items ≡ []) × (history.number ≡ 0)) }
    {
        let state = initial(alloc, checked)?;
        let earlier = HeapCircularBuffer::with_capacity(alloc, DEPTH)?;
        let spares = spare_codes(alloc, &state)?;
        Ok(History {
            checked,
            state,
            number: 0,
            earlier,
            spares,
        })
    }

    /// The present state.
    pub fn state(&self) -> &State
        ensures { result.now ≡ self.now.state }
    {
        &self.state
    }

    /// How many inputs are held.
    pub fn number(&self) -> u64
        ensures { result ≡ self.now.number }
    {
        self.number
    }

    /// Takes an input that may come now. The present state becomes the newest earlier one.
    fn go_on(&mut self, input: Input)
        requires may_come { IsInput (data_of self.old.checked.now.spec) self.old.state.codes input }
        requires below { self.old.number < 2 ^ 32 }
        ensures same { self.new.checked.now ≡ self.old.checked.now }
        ensures goes_on { GoesOn (data_of self.old.checked.now.spec)
            (kept self.old.earlier.items self.old.state.codes self.old.number) input
            (kept self.new.earlier.items self.new.state.codes self.new.number) }
    {
        let room = take_room(&mut self.earlier, &mut self.spares);
        let mut next = State { codes: room };
        step_into(self.checked, &self.state, input, &mut next);
        let old = mem::replace(&mut self.state, next);
        let State { codes } = old;
        self.earlier.push_back(codes);
        self.number += 1;
    }

    /// Takes the last input away. The newest earlier state becomes the present one.
    fn back_one(&mut self)
        requires { 0 < length self.old.earlier.items }
        ensures same { self.new.checked.now ≡ self.old.checked.now }
        ensures goes_back { GoesBack 1
            (kept self.old.earlier.items self.old.state.codes self.old.number)
            (kept self.new.earlier.items self.new.state.codes self.new.number) }
    {
        let codes = match self.earlier.pop_back() {
            Some(codes) => codes,
            None => unreachable!(),
        };
        let later = mem::replace(&mut self.state, State { codes });
        let State { codes } = later;
        self.spares.push_back(codes);
        self.number -= 1;
    }

    /// Takes the last inputs away, so many.
    #[tactic(auto, using(crate::proofs::Moves::back_none, crate::proofs::Moves::back_more, crate::proofs::Moves::back_left))]
    fn go_back(&mut self, count: usize)
        requires { count ≤ length self.old.earlier.items }
        ensures same { self.new.checked.now ≡ self.old.checked.now }
        ensures goes_back { GoesBack count
            (kept self.old.earlier.items self.old.state.codes self.old.number)
            (kept self.new.earlier.items self.new.state.codes self.new.number) }
    {
        for _ in 0..count {
            self.back_one();
        }
    }

    /// Goes back by a BACK line of this count.
    fn take_back(&mut self, line: &[u8], count: usize) -> Result<Replayed, ReplayFault>
        requires { count_back line.now ≡ Some count }
        ensures same { self.new.checked.now ≡ self.old.checked.now }
        ensures taken { MatchResult result
            (λ done. Replays (data_of self.old.checked.now.spec) line.now
            (kept self.old.earlier.items self.old.state.codes self.old.number)
            (kept self.new.earlier.items self.new.state.codes self.new.number) done)
            (λ fault. Refuses (data_of self.old.checked.now.spec) line.now
            (kept self.old.earlier.items self.old.state.codes self.old.number)
            (kept self.new.earlier.items self.new.state.codes self.new.number) fault) }
    {
        let depth = self.earlier.len();
        if count > depth {
            return Err(ReplayFault::Back(depth as u32));
        }
        self.go_back(count);
        Ok(Replayed::Back)
    }

    /// Takes a line of a plain script.
    fn take_line(&mut self, line: &[u8]) -> Result<Replayed, ReplayFault>
        requires below { self.old.number < 2 ^ 32 }
        requires other { count_back line.now ≡ None }
        ensures same { self.new.checked.now ≡ self.old.checked.now }
        ensures taken { MatchResult result
            (λ done. Replays (data_of self.old.checked.now.spec) line.now
            (kept self.old.earlier.items self.old.state.codes self.old.number)
            (kept self.new.earlier.items self.new.state.codes self.new.number) done)
            (λ fault. Refuses (data_of self.old.checked.now.spec) line.now
            (kept self.old.earlier.items self.old.state.codes self.old.number)
            (kept self.new.earlier.items self.new.state.codes self.new.number) fault) }
    {
        match read_line(self.checked.spec(), &self.state, line) {
            Ok(Some(input)) => {
                self.go_on(input);
                Ok(Replayed::Forward)
            }
            Ok(None) => Ok(Replayed::Blank),
            Err(fault) => Err(ReplayFault::Script(fault)),
        }
    }

    /// Takes a line of a script, which is given without its end. Forward: it held an input. Back: it
    /// was `BACK n`, with n at most the number of earlier states that are kept. Blank, or a fault: all
    /// stays as it was.
    pub fn feed_line(&mut self, line: &[u8]) -> Result<Replayed, ReplayFault>
        requires { self.old.number < 2 ^ 32 }
        ensures same { self.new.checked.now ≡ self.old.checked.now }
        ensures fed { MatchResult result
            (λ done. Replays (data_of self.old.checked.now.spec) line.now
            (kept self.old.earlier.items self.old.state.codes self.old.number)
            (kept self.new.earlier.items self.new.state.codes self.new.number) done)
            (λ fault. Refuses (data_of self.old.checked.now.spec) line.now
            (kept self.old.earlier.items self.old.state.codes self.old.number)
            (kept self.new.earlier.items self.new.state.codes self.new.number) fault) }
    {
        match count_back(line) {
            Some(count) => self.take_back(line, count),
            None => self.take_line(line),
        }
    }
}
