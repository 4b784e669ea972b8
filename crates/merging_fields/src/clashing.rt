//! The sets of a document in which two fields fail.

ghost use Rattle.std.specs.Prelude.{◌≡◌, ◌≤◌, ◌+◌, length, map, IfOk, OnOk};
ghost use Rattle.gq_parser.specs.Tree.{operation_of, fragment_of};
ghost use Rattle.merging_members.specs.Members.{count_operations, count_fragments};
ghost use Rattle.merging_members.specs.SetMembers.{AreInside};
ghost use Rattle.merging_fields.specs.Knowledge.{AddsOfOperations, AddsOfFragments, IsCompared, set_in, clashing_in};

use crate::known::ComparedFields;
use gq_parser::{Fragment, Operation};
use merging_members::{ClashingSet, FragmentMembers, add_clashing};
use std::alloc::{AllocError, Global};

// Adds the sets of operations in which two fields conflict. The first field has the number 0. Returns the number after the
// last field.
fn add_operations<'d>(
    walk: &FragmentMembers,
    operations: &'d [Operation],
    clashing: &mut Vec<ClashingSet<'d>>,
) -> Result<usize, AllocError>
    requires inside { count_operations (map operation_of operations.now)
        ≤ length walk.now.numbers.now }
    ensures sets { OnOk result (AddsOfOperations walk.now
        (map operation_of operations.now) clashing.old.items clashing.new.items) }
    ensures inside { AreInside (length walk.now.numbers.now) clashing.old.items
        → OnOk result (AreInside (length walk.now.numbers.now) clashing.new.items) }
    ensures next { IfOk result (λ next. next ≡ count_operations (map operation_of operations.now)) }
{
    let mut next = 0;
    for operation in operations {
        next = add_clashing(walk, &operation.selection_set, next, clashing)?;
    }
    Ok(next)
}

// Adds the sets of fragments in which two fields conflict. The first field has the number `first`.
fn add_fragments<'d>(
    walk: &FragmentMembers,
    fragments: &'d [Fragment],
    first: usize,
    clashing: &mut Vec<ClashingSet<'d>>,
) -> Result<(), AllocError>
    requires inside { first + count_fragments (map fragment_of fragments.now)
        ≤ length walk.now.numbers.now }
    ensures inside { AreInside (length walk.now.numbers.now) clashing.old.items
        → OnOk result (AreInside (length walk.now.numbers.now) clashing.new.items) }
    ensures sets { OnOk result (AddsOfFragments walk.now first
        (map fragment_of fragments.now) clashing.old.items clashing.new.items) }
{
    let mut next = first;
    for fragment in fragments {
        next = add_clashing(walk, &fragment.selection_set, next, clashing)?;
    }
    Ok(())
}

/// The sets of a document in which two fields fail.
pub fn clashing_sets<'d>(
    alloc: Global,
    compared: &ComparedFields<'_, 'd>,
) -> Result<Vec<ClashingSet<'d>>, AllocError>
    requires compared { IsCompared compared.now }
    ensures inside { IfOk result (λ sets.
        AreInside (length compared.now.grounds.numbers.now) sets.items) }
    ensures sets { IfOk result (λ sets.
        map (set_in compared.now) sets.items ≡ clashing_in compared.now) }
{
    let walk = FragmentMembers {
        targets: compared.grounds.targets,
        numbers: compared.grounds.numbers,
        rows: compared.rows,
        fragments: compared.fragments,
    };
    let document = compared.grounds.parts.document;
    let mut clashing = Vec::new(alloc);
    let first = add_operations(&walk, &document.operations, &mut clashing)?;
    add_fragments(&walk, &document.fragments, first, &mut clashing)?;
    Ok(clashing)
}
