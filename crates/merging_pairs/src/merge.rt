//! Pairs of fields that conflict.
ghost use Rattle.std.specs.Prelude.{◌≡◌, ◌≤◌, length, IfOk};
ghost use Rattle.merging_pairs.specs.Merging.{Merges};
ghost use Rattle.merging_pairs.specs.Numbered.{fields_of, AreInOrder};
ghost use Rattle.merging_pairs.specs.Table.{IsBelow, TellsAll};

use crate::field::Field;
use crate::field_set::FieldSet;
use crate::recursion::MergeRecursion;
use crate::table::table;
use std::alloc::{AllocError, Global};

/// Returns which pairs of fields conflict: row `b` has each earlier field that conflicts with `b`.
pub fn failing_pairs(alloc: Global, fields: &[Field]) -> Result<Vec<FieldSet>, AllocError>
    requires most { length fields.now ≤ 1024 }
    requires order { AreInOrder fields.now }
    ensures len { IfOk result
        (λ rows. length rows.items ≡ length fields.now) }
    ensures below { IfOk result
        (λ rows. IsBelow rows.items) }
    ensures tells { IfOk result (λ rows. TellsAll (Merges (fields_of fields.now))
        (fields_of fields.now) (length fields.now) rows.items) }
{
    let shapes = table(alloc, fields, MergeRecursion::Shape, &[])?;
    let rows = table(alloc, fields, MergeRecursion::Merge, &shapes)?;
    Ok(rows)
}
