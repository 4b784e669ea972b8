//! The selections of a document, in lists by their kind.

ghost use Rattle.std.specs.Prelude.{◌≡◌, ◌∷◌, [], OnOk};
ghost use Rattle.gq_parser.specs.Tree.{document_of, directives_of};
ghost use Rattle.gq_schema.specs.Types.{tree_of};
ghost use Rattle.rules_parts.specs.Parts.{selection_part_of};
ghost use Rattle.rules_parts.specs.Found.{IsTypeOf};
ghost use Rattle.rules_parts.specs.Listing.{directives_at, AddsDirectives};
ghost use Rattle.rules_parts.specs.Selections.{read_selections_in, read_selections_from, document_selections};
ghost use Rattle.rules_parts.specs.Lists.{fragments_in, AddsSelections};

use crate::parents::{
    definition_of, inside_condition, inside_field, inside_inline, inside_operation, known_field,
    name_of,
};
use crate::part::{
    DirectiveList, DirectiveLocation, FieldPart, InlinePart, Owner, SelectionPart, SpreadPart,
};
use crate::source::{SelectionLists, Source};
use gq_parser::{Directive, Selection, SelectionSet};
use gq_schema::FoundType;
use std::alloc::AllocError;

/// Adds the directives at one location, where there are any.
pub fn add_directives<'d>(
    owner: Owner,
    location: DirectiveLocation,
    directives: &'d [Directive],
    lists: &mut Vec<DirectiveList<'d>>,
) -> Result<(), AllocError>
    ensures { OnOk result (AddsDirectives lists.old lists.new
        (directives_at owner location (directives_of directives.now))) }
{
    if !directives.is_empty() {
        lists.push(DirectiveList {
            owner,
            location,
            directives,
        })?;
    }
    Ok(())
}

// Adds a selection without those inside it.
fn add_alone<'d>(
    source: &Source<'_, 'd>,
    part: SelectionPart<'d>,
    lists: &mut SelectionLists<'d>,
) -> Result<(), AllocError>
    ensures { OnOk result (AddsSelections (fragments_in source.now)
        lists.old lists.new (selection_part_of part.entry ∷ [])) }
{
    let (owner, parent, inside) = (part.owner, part.parent, part.inside);
    match part.selection {
        Selection::Field(field) => {
            lists.fields.push(FieldPart {
                owner,
                parent,
                definition: part.definition,
                inside,
                field,
            })?;
            let location = DirectiveLocation::Field;
            add_directives(owner, location, &field.directives, &mut lists.directives)
        }
        Selection::Spread(spread) => {
            lists.spreads.push(SpreadPart {
                owner,
                parent,
                target: source.numbers.get(spread.name.as_str()).copied(),
                spread,
            })?;
            let location = DirectiveLocation::FragmentSpread;
            add_directives(owner, location, &spread.directives, &mut lists.directives)
        }
        Selection::Inline(inline) => {
            lists.inlines.push(InlinePart {
                owner,
                parent,
                inside,
                inline,
            })?;
            let location = DirectiveLocation::InlineFragment;
            add_directives(owner, location, &inline.directives, &mut lists.directives)
        }
    }
}

// Adds the selections in a set.
#[cycle(selections)]
fn add_set<'d>(
    source: &Source<'_, 'd>,
    owner: Owner,
    parent: Option<FoundType<'d>>,
    set: &'d SelectionSet,
    lists: &mut SelectionLists<'d>,
) -> Result<(), AllocError>
    requires { IsTypeOf source.now.schema.now parent }
    ensures { OnOk result (AddsSelections (fragments_in source.now) lists.old lists.new
        (read_selections_in source.now.schema.now owner parent.entry set.now)) }
{
    for selection in &set.selections {
        add_selection(source, owner, parent, selection, lists)?;
    }
    Ok(())
}

// Adds a selection and those inside it.
#[cycle(selections)]
fn add_selection<'d>(
    source: &Source<'_, 'd>,
    owner: Owner,
    parent: Option<FoundType<'d>>,
    selection: &'d Selection,
    lists: &mut SelectionLists<'d>,
) -> Result<(), AllocError>
    requires { IsTypeOf source.now.schema.now parent }
    ensures { OnOk result (AddsSelections (fragments_in source.now) lists.old lists.new
        (read_selections_from source.now.schema.now owner parent.entry selection.now)) }
{
    let mut part = SelectionPart {
        owner,
        parent: name_of(parent),
        definition: None,
        inside: None,
        selection,
    };
    match selection {
        Selection::Field(field) => {
            let known = known_field(source.schema, parent, field.name.as_str());
            let inside = inside_field(source.schema, known);
            part.definition = definition_of(known);
            part.inside = name_of(inside);
            add_alone(source, part, lists)?;
            match &field.selection_set {
                Some(set) => add_set(source, owner, inside, set, lists),
                None => Ok(()),
            }
        }
        Selection::Spread(_) => add_alone(source, part, lists),
        Selection::Inline(inline) => {
            let inside = inside_inline(source.schema, parent, &inline.condition);
            part.inside = name_of(inside);
            add_alone(source, part, lists)?;
            add_set(source, owner, inside, &inline.selection_set, lists)
        }
    }
}

/// Adds all selections of a document, each before those inside it, in time linear in the document.
pub fn add_selections<'d>(
    source: &Source<'_, 'd>,
    lists: &mut SelectionLists<'d>,
) -> Result<(), AllocError>
    ensures { OnOk result (AddsSelections (fragments_in source.now) lists.old lists.new
        (document_selections (tree_of source.now.schema.now) (document_of source.now.document.now))) }
{
    let inside = inside_operation(source.schema);
    for (i, operation) in source.document.operations.iter().enumerate() {
        let owner = Owner::Operation(i);
        add_set(source, owner, inside, &operation.selection_set, lists)?;
    }
    for (i, fragment) in source.document.fragments.iter().enumerate() {
        let owner = Owner::Fragment(i);
        let inside = inside_condition(source.schema, &fragment.condition);
        add_set(source, owner, inside, &fragment.selection_set, lists)?;
    }
    Ok(())
}
