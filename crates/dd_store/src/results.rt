//! The results of operations, each kept for as long as the store, where there are not too many.

ghost use Rattle.std.specs.Prelude.{IfSome};
ghost use Rattle.dd_store.specs.Results.{IsFound, AreKept};

use crate::id::Id;
use crate::memo::MemoKey;
use indexmap::IndexMap;

/// How many results are kept beside the memo.
pub(crate) const RESULT_ENTRIES: usize = 4_000_000;

/// The result that is kept for a key.
pub(crate) fn find(results: &IndexMap<MemoKey, Id>, key: MemoKey) -> Option<Id>
    ensures { IfSome result (IsFound results.now.entries key) }
{
    results.get(&key).copied()
}

/// Keeps a result, where there is room and memory for it.
pub(crate) fn keep(results: &mut IndexMap<MemoKey, Id>, key: &MemoKey, answer: Id)
    ensures { AreKept results.old.entries key.now answer results.new.entries }
{
    if results.len() < RESULT_ENTRIES {
        let _kept = results.insert(*key, answer);
    }
}
