//! The text on a faulty line.
ghost use Rattle.std.specs.Prelude.{◌≡◌, ◌++◌, MatchResult};
ghost use Rattle.base_script.specs.Faults as text;

use base::NoMemory;

/// What is wrong with a line of a script or of calls.
#[derive(Clone, Copy, Debug, PartialEq, Eq)]
pub enum ScriptKind {
    Limit,
    Syntax,
    Unknown,
    Value,
    NoChange,
    Nat,
    Back,
}

fn script_kind_word(kind: ScriptKind) -> &'static str
    ensures { result.now ≡ text.script_kind_word kind }
{
    match kind {
        ScriptKind::Limit => "limit",
        ScriptKind::Syntax => "syntax",
        ScriptKind::Unknown => "unknown",
        ScriptKind::Value => "value",
        ScriptKind::NoChange => "nochange",
        ScriptKind::Nat => "nat",
        ScriptKind::Back => "back",
    }
}

/// Appends the line on a faulty line of a script: `script line L: KIND`. After a fault `out` is
/// unchanged.
pub fn push_script_fault(out: &mut Vec<u8>, line: u32, kind: ScriptKind) -> Result<(), NoMemory>
    ensures { MatchResult result (λ _. out.new.items ≡ out.old.items ++ text.script_fault line kind)
        (λ _. out.new.items ≡ out.old.items) }
{
    let word = script_kind_word(kind);
    let text = format!(in *out.allocator(); "script line {line}: {word}\n")?;
    out.extend_from_slice(text.as_bytes())?;
    Ok(())
}
