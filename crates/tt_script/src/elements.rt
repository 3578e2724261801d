//! Names of elements, and names with a leading `::`.
ghost use Rattle.std.specs.Prelude.{◌≡◌, ◌+◌, ◌<◌, ◌==◌, IfOk, IfSome, length, position};
ghost use Rattle.std.specs.Option.{option_map};
ghost use Rattle.tt_script.specs.Names.{element_of, global_of, plain_name};
ghost use Rattle.tt_script.specs.Plain.{plain_part};
ghost use Rattle.tt_script.specs.Reading as reading;

use crate::builder::letters;
use crate::command::Part;
use crate::mode::Mode;
use crate::scan::begins;
use std::alloc::Global;
use tt_text::NoMemory;

/// The place of the first `(`.
fn first_parenthesis(name: &[u8]) -> Option<usize>
    ensures { result ≡ position (λ b. b == 40) name.now }
{
    name.iter().position(|byte| *byte == b'(')
}

/// The place of the `(` if this is the name of an element, as `a(b)`.
fn index_start(name: &[u8]) -> Option<usize>
    ensures place { result ≡ reading.index_start name.now }
    ensures within { IfSome result (λ start. start + 1 < length name.now) }
{
    if begins(name, name.len().saturating_sub(1), b')') {
        first_parenthesis(name)
    } else {
        None
    }
}

/// The array and the index of a name `a(b)`, as commands read names: the index goes from the first `(`
/// to a last `)` (Tcl(n), rule 8; set(n)). `None` for any other name, which names a variable as it stands.
pub fn split_name(name: &[u8]) -> Option<(&[u8], &[u8])>
    ensures { option_map (λ found. (found.0.now, found.1.now)) result ≡ element_of name.now }
{
    let start = index_start(name)?;
    Some((&name[..start], &name[start + 1..name.len() - 1]))
}

/// The rest of a name with a leading `::`, which names the global variable, the command or the procedure
/// of the rest: one such pair is dropped. `None` for a name without.
pub fn global_name(name: &[u8]) -> Option<&[u8]>
    ensures { option_map (λ rest. rest.now) result ≡ global_of name.now }
{
    name.strip_prefix(b"::")
}

/// The name that a command or a procedure has in the whole program: without one leading `::`.
pub fn plain_name(name: &[u8]) -> &[u8]
    ensures { result.now ≡ plain_name name.now }
{
    match global_name(name) {
        Some(rest) => rest,
        None => name,
    }
}

/// The variable of a name in braces: `a(b)` is an element of an array (Tcl(n), rule 8).
pub(crate) fn named(alloc: Global, name: &[u8], mode: Mode) -> Result<Part, NoMemory>
    ensures { mode ≡ Mode.Keep → IfOk result (λ part. plain_part part ≡ reading.part_of_name name.now) }
{
    let Some((array, index)) = split_name(name) else {
        return Ok(Part::Variable(mode.text(alloc, name)?));
    };
    let array = mode.text(alloc, array)?;
    let index = mode.text(alloc, index)?;
    Ok(Part::Element(array, letters(alloc, index)?))
}
