//! Pairs of a list go into a map.
ghost use Rattle.std.specs.Prelude.{◌≡◌, ◌+◌, ◌<◌, ◌≤◌, ◌++◌, ◌∷◌, [], None, length};
ghost use Rattle.indexmap.specs.IndexMap.{spare};
ghost use Rattle.tt_names.specs.Names.{NamesDiffer, under};

use indexmap::IndexMap;
use tt_text::Text;

/// The pairs of a list, in a map that is empty and has room for them.
#[tactic(auto, using(crate::proofs::Moves::next_moved, crate::proofs::Moves::all_moved))]
pub(crate) fn moved<V: Drop>(mut map: IndexMap<Text, V>, pairs: Vec<(Text, V)>) -> IndexMap<Text, V>
    requires empty { map.entries ≡ [] }
    requires room { length pairs.items ≤ spare map }
    requires differ { NamesDiffer pairs.items }
    ensures moved { result.entries ≡ pairs.items }
{
    for (name, item) in pairs {
        add(&mut map, name, item);
    }
    map
}

// Puts a new name last in a map that has room for it.
#[tactic(auto, using(crate::proofs::Changes::goes_last))]
fn add<V: Drop>(map: &mut IndexMap<Text, V>, name: Text, item: V)
    requires room { 0 < spare map.old }
    requires new { under map.old.entries name ≡ None }
    ensures added { map.new.entries ≡ map.old.entries ++ (name, item) ∷ [] }
    ensures room { spare map.old ≤ spare map.new + 1 }
{
    let _ = map.insert(name, item).unwrap();
}
