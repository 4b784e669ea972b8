//! Finding the group of a response key.

ghost use Rattle.std.specs.Prelude.{◌≡◌, ◌++◌, ◌∷◌, [], position, bytes_eq, None, OnOk, OnErr};
ghost use Rattle.indexmap.specs.IndexSet.{insert_all};
ghost use Rattle.plan_program.specs.Finding.{texts_of, keys_in, AreTabled, AreFound};

use crate::group::Group;
use indexmap::IndexSet;
use std::alloc::AllocError;

/// The number of groups from which on a group is found by a table of the keys, and no longer by a
/// look at each.
const MANY_GROUPS: usize = 8;

/// The place of the group of a key, found by the table if it has the keys.
pub fn place_of<'p>(groups: &[Group<'p>], table: &IndexSet<&'p str>, key: &'p str) -> Option<usize>
    requires { AreTabled (texts_of table.now.keys)
        (keys_in groups.now) }
    ensures { result ≡ position
        (bytes_eq key.now) (keys_in groups.now) }
{
    if !table.is_empty() {
        return table.get_index_of(key);
    }
    for place in 0..groups.len() {
        if key == groups[place].key {
            return Some(place);
        }
    }
    None
}

// Puts the keys of groups into an empty table. When out of memory, it is empty again.
fn fill<'p>(table: &mut IndexSet<&'p str>, groups: &[Group<'p>]) -> Result<(), AllocError>
    requires empty { texts_of table.old.keys ≡ [] }
    requires apart { insert_all bytes_eq []
        (keys_in groups.now) ≡ keys_in groups.now }
    ensures ok { OnOk result
        (texts_of table.new.keys ≡ keys_in groups.now) }
    ensures err { OnErr result
        (texts_of table.new.keys ≡ []) }
{
    for group in groups {
        match table.insert(group.key) {
            Ok(_) => {}
            Err(_) => {
                table.clear();
                return Err(AllocError);
            }
        }
    }
    Ok(())
}

/// Notes the key of a group that comes after these. While they are few, the table stays empty.
pub fn note_key<'p>(
    groups: &[Group<'p>],
    table: &mut IndexSet<&'p str>,
    key: &'p str,
) -> Result<(), AllocError>
    requires found { AreFound (texts_of table.old.keys)
        (keys_in groups.now) }
    requires absent { position (bytes_eq key.now)
        (keys_in groups.now) ≡ None }
    ensures ok { OnOk result
        (AreFound (texts_of table.new.keys) (keys_in groups.now ++ key.now ∷ [])) }
    ensures err { OnErr result (AreFound (texts_of table.new.keys) (keys_in groups.now)) }
{
    if table.is_empty() {
        if groups.len() < MANY_GROUPS {
            return Ok(());
        }
        fill(table, groups)?;
    }
    table.insert(key)?;
    Ok(())
}
