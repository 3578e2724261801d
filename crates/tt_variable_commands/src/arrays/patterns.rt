//! Which indices match a pattern (string(n), string match).
ghost use Rattle.std.specs.Prelude.{◌≡◌, IfOk, filter};
ghost use Rattle.std.specs.Option.{option_copied};
ghost use Rattle.tt_variable_commands.specs.ArrayReading as reading;

use std::alloc::Global;
use tt_text::{NoMemory, Text, Texts, glob};

/// Those that match the pattern, if there is one.
pub(crate) fn names_like(
    alloc: Global,
    pattern: Option<&Text>,
    names: Texts,
) -> Result<Texts, NoMemory>
    ensures { IfOk result (λ like. like ≡ reading.names_like (option_copied pattern.entry) names) }
{
    match pattern {
        Some(pattern) => matching(alloc, pattern.as_bytes(), names.as_slice()),
        None => Ok(names),
    }
}

fn matching(alloc: Global, pattern: &[u8], names: &[Text]) -> Result<Texts, NoMemory>
    ensures { IfOk result (λ like. like ≡ filter (reading.is_like pattern.now) names.now) }
{
    let mut like = Texts::new(alloc);
    for name in names {
        if is_like(pattern, name) {
            like.push(name.copy()?)?;
        }
    }
    Ok(like)
}

fn is_like(pattern: &[u8], name: &Text) -> bool
    ensures { result ≡ reading.is_like pattern.now name.now }
{
    glob(pattern, name.as_bytes())
}
