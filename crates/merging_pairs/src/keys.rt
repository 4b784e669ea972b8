//! The response keys that keep a set from being merged.
ghost use Rattle.std.specs.Prelude.{◌≡◌, ◌≢◌, ◌<◌, ◌≤◌, ℕ, length, false};
ghost use Rattle.merging_pairs.specs.Clashes.{TestsKey, AreFailingKeys};
ghost use Rattle.merging_pairs.specs.Numbered.{fields_of};
ghost use Rattle.merging_pairs.specs.Sets.{has};

use crate::field::Field;
use crate::field_set::FieldSet;
use crate::sets::ReachedFields;
use crate::table::is_one_key;

/// Tells whether a marked member has the response key of field `f`.
fn has_failing_key(fields: &[Field], reached: &ReachedFields, f: usize) -> bool
    requires f { f < length fields.now }
    requires most { length fields.now ≤ 1024 }
    ensures { TestsKey (fields_of fields.now).one_key reached.now.members
        reached.now.marks (length fields.now) f result }
{
    for a in 0..fields.len() {
        if is_one_key(fields, a, f) && reached.members.has(a) && reached.marks.has(a) {
            return true;
        }
    }
    false
}

/// Adds field `f` to `keys` if its response key has a conflict.
fn note_key(keys: &mut FieldSet, fields: &[Field], reached: &ReachedFields, f: usize)
    requires f { f < length fields.now }
    requires most { length fields.now ≤ 1024 }
    requires absent { has keys.old f ≡ false }
    ensures others { (a : ℕ) → a ≢ f
        → has keys.new a ≡ has keys.old a }
    ensures own { TestsKey (fields_of fields.now).one_key reached.now.members
        reached.now.marks (length fields.now) f (has keys.new f) }
{
    if has_failing_key(fields, reached, f) {
        keys.insert(f);
    }
}

/// The fields whose response key is that of a member which conflicts with another one: those that keep the set from
/// being merged.
pub fn failing_keys(fields: &[Field], reached: &ReachedFields) -> FieldSet
    requires most { length fields.now ≤ 1024 }
    ensures { AreFailingKeys fields.now reached.now result }
{
    let mut keys = FieldSet::new();
    for f in 0..fields.len() {
        note_key(&mut keys, fields, reached, f);
    }
    keys
}
