//! Fragments by their names.
//!
//! While a document is checked, one map of names serves all rules. A kept document has a map of its own, since
//! that one borrows the document.

ghost use Rattle.std.specs.Prelude.{◌≡◌, IfOk};
ghost use Rattle.std.specs.Option.{option_map, option_copied};
ghost use Rattle.gq_parser.specs.Tree.{fragment_of};
ghost use Rattle.gq_schema.specs.Places.{ArePlaces};
ghost use Rattle.gq_check.specs.Plans.{fragments_of, is_fragment, fragment_in};

use crate::places::{PlacesByName, note};
use gq_parser::Fragment;
use std::alloc::{AllocError, Global};
use std::collections::HashMap;
use std::marker::Model;

/// Fragments in their order, each found by its name. A contract sees the list.
pub struct Fragments {
    items: Vec<Fragment>,
    places: PlacesByName,
}

impl Model for Fragments {
    ghost use Rattle.std.specs.Prelude.{List};
    ghost use Rattle.std.specs.Coded.{codes};
    ghost use Rattle.gq_parser.specs.declared.tree.Fragment.{Fragment};
    ghost use Rattle.gq_parser.specs.contracts.tree.Literal as literal;
    ghost use Rattle.gq_parser.specs.contracts.tree.Argument as argument;
    ghost use Rattle.gq_parser.specs.contracts.tree.SelectionSet as set;

    ghost Value = { List Fragment };

    ghost coded = { Prim.hlevel (codes, literal.the_row.coded, argument.the_row.coded, set.the_row.coded) };

    ghost use Rattle.gq_schema.specs.Places.{ArePlaces};
    ghost use Rattle.gq_check.specs.Plans.{fragments_of, is_fragment};

    ghost view = { λ f. f.items.items };

    ghost invariant = { λ f. ArePlaces is_fragment (fragments_of f.items.items) f.places };
}

impl Drop for Fragments {
    fn drop(self) {
        let Fragments {
            items: _items,
            places: _places,
        } = self;
    }
}

// The place of the first fragment of each name.
fn fragment_places(alloc: Global, fragments: &[Fragment]) -> Result<PlacesByName, AllocError>
    ensures { IfOk result (ArePlaces is_fragment (fragments_of fragments.now)) }
{
    let mut places: PlacesByName = HashMap::new(alloc);
    for (i, fragment) in fragments.iter().enumerate() {
        note(alloc, &mut places, fragment.name.as_str(), i)?;
    }
    Ok(places)
}

impl Fragments {
    /// These fragments.
    pub fn of(alloc: Global, items: Vec<Fragment>) -> Result<Fragments, AllocError>
        ensures { IfOk result
            (λ fragments. fragments ≡ items.items) }
    {
        let places = fragment_places(alloc, &items)?;
        Ok(Fragments { items, places })
    }

    /// The fragments in their order.
    pub fn as_slice(&self) -> &[Fragment]
        ensures { result.now ≡ self.now }
    {
        &self.items
    }

    /// The first fragment of this name.
    pub fn get(&self, name: &str) -> Option<&Fragment>
        ensures { option_map fragment_of (option_copied result)
            ≡ fragment_in (fragments_of self.now) name.now }
    {
        let place = *self.places.get(name)?;
        Some(&self.items[place])
    }
}
