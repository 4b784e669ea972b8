//! Places of names in a list.

ghost use Rattle.std.specs.Prelude.{◌≡◌, ℕ, List, OnOk};
ghost use Rattle.std.specs.HashMap.{get_by_text};
ghost use Rattle.gq_schema.specs.Scan.{or_else};
ghost use Rattle.gq_check.specs.Places.{place_of};

use std::alloc::{AllocError, Global};
use std::collections::HashMap;

/// The place of the first of each name in a list.
pub type PlacesByName = HashMap<String, usize>;

/// Notes the place of a name, unless one of the name stands earlier.
pub fn note(
    alloc: Global,
    places: &mut PlacesByName,
    name: &str,
    place: usize,
) -> Result<(), AllocError>
    ensures { (q : List ℕ) → OnOk result (get_by_text places.new q
        ≡ or_else (get_by_text places.old q) (place_of name.now place q)) }
{
    let name = String::from_str(alloc, name)?;
    places.entry(name)?.or_insert(place);
    Ok(())
}
