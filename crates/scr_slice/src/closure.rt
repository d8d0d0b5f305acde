//! What is kept for some variables: these, and with each what its table mentions.
ghost use Rattle.std.specs.Prelude.{◌≡◌, ◌<◌, ℕ, length, IfOk, IsTrue, MatchOption, None, find, not};
ghost use Rattle.scr_spec.specs.Shown.{data_of};
ghost use Rattle.scr_depend.specs.Graphs.{is_among};
ghost use Rattle.scr_depend.specs.Marks.{is_marked};
ghost use Rattle.scr_slice.specs.Slices.{AreKept};
ghost use Rattle.scr_slice.specs.Marks.{mentions_below, mention_list, mention_lists, list_at, named_below, marked_below, next_of, IsNextMark, AreWithin, IsSpread};

use crate::mentions::table_mentions;
use base::NoMemory;
use scr_depend::is_among;
use scr_spec::{Spec, Table};
use sqlite_items::Items;
use std::alloc::Global;

/// Which of so many variables the table mentions, in order of declaration.
#[tactic(auto, using(crate::proofs::Marks::mentions_steps))]
fn mentions_of(alloc: Global, count: usize, table: &Table) -> Result<Items<usize>, NoMemory>
    ensures { IfOk result (λ list. list ≡ mentions_below count table.now) }
{
    let mut list = Items::new(alloc);
    for w in 0..count {
        if table_mentions(table, w) {
            list.push(w)?;
        }
    }
    Ok(list)
}

/// What the table of the variable mentions. A variable without a table has nothing to mention.
#[tactic(auto, unfolding(crate::specs::Marks::mention_list))]
fn mention_list(alloc: Global, spec: &Spec, v: usize) -> Result<Items<usize>, NoMemory>
    ensures { IfOk result (λ list. list ≡ mention_list (data_of spec.now) v) }
{
    match spec.table_of(v) {
        Some(table) => mentions_of(alloc, spec.variables.len(), table),
        None => Ok(Items::new(alloc)),
    }
}

/// What the table of each variable mentions.
#[tactic(auto, using(crate::proofs::Marks::lists_steps))]
fn mention_lists(alloc: Global, spec: &Spec) -> Result<Items<Items<usize>>, NoMemory>
    ensures { IfOk result (λ lists. lists ≡ mention_lists (data_of spec.now)) }
{
    let mut lists = Items::new(alloc);
    for v in 0..spec.variables.len() {
        lists.push(mention_list(alloc, spec, v)?)?;
    }
    Ok(lists)
}

/// The list with this number. Behind the last one it is empty.
#[tactic(auto, unfolding(crate::specs::Marks::list_at))]
fn list_at(lists: &[Items<usize>], v: usize) -> &[usize]
    ensures { result.now ≡ list_at lists.now v }
{
    match lists.get(v) {
        Some(list) => list.as_slice(),
        None => &[],
    }
}

/// The mark of the variable. Behind the last one there is none.
#[tactic(auto, unfolding(scr_depend::specs::Marks::is_marked))]
fn is_marked(marks: &[bool], v: usize) -> bool
    ensures { result ≡ is_marked marks.now v }
{
    match marks.get(v) {
        Some(marked) => *marked,
        None => false,
    }
}

/// One mark for each of so many variables: those that are named have it.
#[tactic(auto, using(crate::proofs::Marks::named_steps))]
fn marks_of(alloc: Global, count: usize, names: &[usize]) -> Result<Items<bool>, NoMemory>
    ensures { IfOk result (λ marks. marks ≡ named_below count names.now) }
{
    let mut marks = Items::new(alloc);
    for v in 0..count {
        marks.push(is_among(names, v))?;
    }
    Ok(marks)
}

/// The first in the list that is not marked.
fn first_unmarked(list: &[usize], marks: &[bool]) -> Option<usize>
    ensures { result ≡ find (λ w. not (is_marked marks.now w)) list.now }
{
    for w in list {
        if !is_marked(marks, *w) {
            return Some(*w);
        }
    }
    None
}

/// What is marked next for the variable: where it is marked, the first that its table mentions and
/// that is not.
#[tactic(auto, unfolding(crate::specs::Marks::next_of))]
fn next_of(lists: &[Items<usize>], marks: &[bool], v: usize) -> Option<usize>
    ensures { result ≡ next_of lists.now marks.now v }
{
    if is_marked(marks, v) {
        first_unmarked(list_at(lists, v), marks)
    } else {
        None
    }
}

/// What is marked next.
#[tactic(auto, using(crate::proofs::Marks::next_past))]
fn next_mark(lists: &[Items<usize>], marks: &[bool]) -> Option<usize>
    ensures { MatchOption result ((v : ℕ) → next_of lists.now marks.now v ≡ None) (λ w. IsNextMark lists.now marks.now w) }
{
    for v in 0..marks.len() {
        if let Some(w) = next_of(lists, marks, v) {
            return Some(w);
        }
    }
    None
}

/// Marks what the tables of marked variables mention, until all of that is marked.
fn spread(lists: &[Items<usize>], marks: &mut Items<bool>)
    requires { AreWithin lists.now (length marks.old) }
    ensures { IsSpread lists.now marks.old marks.new }
{
    while let Some(w) = next_mark(lists, marks.as_slice()) {
        marks.set(w, true);
    }
}

/// The marked variables, in order of declaration.
#[tactic(auto, using(crate::proofs::Marks::marked_steps))]
fn marked(alloc: Global, marks: &[bool]) -> Result<Items<usize>, NoMemory>
    ensures { IfOk result (λ list. list ≡ marked_below (length marks.now) marks.now) }
{
    let mut list = Items::new(alloc);
    for v in 0..marks.len() {
        if is_marked(marks, v) {
            list.push(v)?;
        }
    }
    Ok(list)
}

/// What is kept for the named variables: these, and with each variable all that its table mentions.
/// The names are numbers of variables, in any order and as often as one likes; the result has each
/// number once, in order of declaration. The only error is want of memory.
pub fn kept(alloc: Global, spec: &Spec, names: &[usize]) -> Result<Items<usize>, NoMemory>
    requires { (v : ℕ) → IsTrue (is_among names.now v) → v < length spec.now.variables }
    ensures { IfOk result (λ keep. AreKept (data_of spec.now) names.now keep) }
{
    let lists = mention_lists(alloc, spec)?;
    let mut marks = marks_of(alloc, spec.variables.len(), names)?;
    spread(lists.as_slice(), &mut marks);
    marked(alloc, marks.as_slice())
}
