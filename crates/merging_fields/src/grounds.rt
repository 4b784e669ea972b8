//! Grounds: what is known of a document before its fields are compared.

ghost use Rattle.std.specs.Prelude.{◌≡◌, ◌≤◌, length, IfOk};
ghost use Rattle.gq_parser.specs.Tree.{document_of};
ghost use Rattle.merging_pairs.specs.Numbered.{AreInOrder};
ghost use Rattle.merging_pairs.specs.Table.{IsBelow};
ghost use Rattle.merging_members.specs.Fragments.{AreTargets};
ghost use Rattle.merging_members.specs.Members.{members_of_fragment, fragment_starts};
ghost use Rattle.merging_members.specs.Placed.{IsNumbering};
ghost use Rattle.merging_members.specs.SetMembers.{IsFixed};
ghost use Rattle.rules_parts.specs.Parts.{parts_in};
ghost use Rattle.merging_fields.specs.Knowledge.{IsFragmentOrder, AreNumberedIn};

use crate::fields::numbered_fields;
use crate::known::Grounds;
use merging_members::{
    FragmentMembers, NumberedDocument, Numbering, Targets, known_fragments, members_of_fields,
};
use merging_pairs::{Field, FieldSet};
use rules_parts::Parts;
use std::alloc::{AllocError, Global};

/// These, where fields have places.
pub fn grounds_of<'a, 'd>(
    parts: &'a Parts<'d>,
    targets: &'a Targets<'d>,
    starts: &'a [usize],
    numbering: &'a Numbering,
) -> Grounds<'a, 'd>
    requires few { length (parts_in parts.now).fields
        ≤ 1024 }
    requires named { AreTargets (document_of parts.now.document.now).fragments targets.now }
    requires started { starts.now ≡ fragment_starts
        (document_of parts.now.document.now) }
    requires fixed { IsFixed (members_of_fragment (document_of parts.now.document.now))
        (document_of parts.now.document.now) }
    requires numbering { IsNumbering (document_of parts.now.document.now)
        numbering.now.order.items numbering.now.numbers.items }
    ensures { result.parts.now ≡ parts.now }
{
    Grounds {
        parts,
        targets,
        starts,
        order: &numbering.order,
        numbers: &numbering.numbers,
    }
}

// Returns `count` rows without any field.
fn blank_rows(alloc: Global, count: usize) -> Result<Vec<FieldSet>, AllocError>
    ensures len { IfOk result
        (λ rows. length rows.items ≡ count) }
    ensures below { IfOk result
        (λ rows. IsBelow rows.items) }
{
    let mut rows = Vec::with_capacity(alloc, count)?;
    for _ in 0..count {
        rows.push(FieldSet::new())?;
    }
    Ok(rows)
}

/// The fields of a document in the table of pairs; `fragments` are the fragments, each after those that it spreads.
pub fn fields_in_order(
    alloc: Global,
    grounds: &Grounds,
    fragments: &[usize],
) -> Result<Vec<Field>, AllocError>
    requires fragments { IsFragmentOrder
        fragments.now grounds.now }
    ensures numbered { IfOk result
        (λ fields. AreNumberedIn grounds.now fields.items) }
    ensures order { IfOk result
        (λ fields. AreInOrder fields.items) }
{
    let blank = blank_rows(alloc, grounds.order.len())?;
    let source = NumberedDocument {
        document: grounds.parts.document,
        targets: grounds.targets,
        starts: grounds.starts,
        numbers: grounds.numbers,
        rows: &blank,
    };
    let known = known_fragments(alloc, &source, fragments)?;
    let walk = FragmentMembers {
        targets: grounds.targets,
        numbers: grounds.numbers,
        rows: &blank,
        fragments: &known,
    };
    let members = members_of_fields(alloc, &walk, grounds.parts.document)?;
    let fields = numbered_fields(alloc, grounds.parts, &members, grounds.order)?;
    Ok(fields)
}
