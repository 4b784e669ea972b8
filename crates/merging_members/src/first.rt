//! The first member of a set that passes a test.

ghost use Rattle.std.specs.Prelude.{◌≡◌, ◌≤◌, ◌+◌, length};
ghost use Rattle.gq_parser.specs.Tree.{set_of};
ghost use Rattle.merging_members.specs.Fragments.{place_in};
ghost use Rattle.merging_members.specs.Knowledge.{document_in, FindsFirst};
ghost use Rattle.merging_members.specs.Members.{count_in};
ghost use Rattle.merging_members.specs.Ranked.{AreRanked};

use crate::fragments::fragment_set;
use crate::known::{FragmentMembers, NumberedDocument};
use crate::meeting::{Met, first_met};
use crate::visiting::ClashingSet;
use merging_pairs::{FieldSet, ReachedFields};

/// The first member of a set, in order of first meeting, that is among `keys`, which are numbers in the table of pairs. It takes
/// time as the sets that lead to it have selections.
pub fn first_member<'d>(
    source: &NumberedDocument<'_, 'd>,
    table: &[ReachedFields],
    keys: &FieldSet,
    set: ClashingSet<'d>,
) -> Option<usize>
    requires len { length table.now
        ≡ length (document_in source.now).fragments }
    requires ranked { ∥ AreRanked (place_in (document_in source.now).fragments)
        (document_in source.now).fragments ∥₁ }
    requires inside { set.first + count_in (set_of set.set.now) ≤ length source.now.numbers.now }
    ensures { FindsFirst source.now
        table.now keys.now set.entry result }
{
    let walk = FragmentMembers {
        targets: source.targets,
        numbers: source.numbers,
        rows: source.rows,
        fragments: table,
    };
    let mut at = set;
    for _ in 0..source.document.fragments.len() + 1 {
        match first_met(&walk, keys, at.set, at.first) {
            Some(Met::Field(number)) => return Some(number),
            Some(Met::Fragment(target)) => at = fragment_set(source, target),
            None => return None,
        }
    }
    unreachable!()
}
