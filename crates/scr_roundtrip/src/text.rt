//! The canonical text, with what it spells.
ghost use Rattle.std.specs.Prelude.{◌≡◌, IfOk};
ghost use Rattle.scr_spec.specs.Shown.{data_of};
ghost use Rattle.scr_printer.specs.Text.{canonical};
ghost use Rattle.scr_roundtrip.specs.Laws.{PassesNoLimit, IsCanonical};

use base::NoMemory;
use scr_printer::print;
use scr_spec::Spec;
use std::alloc::Global;

/// The canonical text of a specification, in which comments and spare spaces of the text that it
/// was read from are not kept. Where it passes no limit of the reader, it spells this specification
/// and no other, and the canonical text of what it spells is this text.
pub fn canonical_text(alloc: Global, spec: &Spec) -> Result<Vec<u8>, NoMemory>
    ensures text { IfOk result (λ out. out.items ≡ canonical (data_of spec.now)) }
    ensures spells { IfOk result (λ out. PassesNoLimit out.items → IsCanonical out.items (data_of spec.now)) }
{
    print(alloc, spec)
}
