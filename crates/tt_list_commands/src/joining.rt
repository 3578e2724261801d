ghost use Rattle.std.specs.Prelude.{◌≡◌, ◌++◌, IfOk, OnOk};
ghost use Rattle.std.specs.List.{flat_map};
ghost use Rattle.tt_list_commands.specs.Joining.{joined_text};

use std::alloc::Global;
use tt_text::{NoMemory, Text};

/// The texts with the separator between each two (join(n)).
///
/// `NoMemory` if memory is refused.
pub fn join(alloc: Global, separator: &[u8], texts: &[Text]) -> Result<Text, NoMemory>
    ensures joined { IfOk result (λ text. text ≡ joined_text separator.now texts.now) }
{
    let Some((first, later)) = texts.split_first() else {
        return Ok(Text::new(alloc));
    };
    let mut all = first.copy()?;
    push_separated(&mut all, separator, later)?;
    Ok(all)
}

fn push_separated(all: &mut Text, separator: &[u8], texts: &[Text]) -> Result<(), NoMemory>
    ensures { OnOk result (all.new ≡ all.old ++ flat_map (λ text. separator.now ++ text) texts.now) }
{
    for text in texts {
        all.push_bytes(separator)?;
        all.push_bytes(text.as_bytes())?;
    }
    Ok(())
}
