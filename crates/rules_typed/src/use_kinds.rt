//! Uses of variables of one kind: of one name, at locations that the same types fit.

ghost use Rattle.std.specs.Prelude.{◌≡◌, ◌++◌, ◌∷◌, [], ℕ, List, IfOk, IfSome, OnOk, true, bytes_eq, map, nat_eq, if◌then◌else◌};
ghost use Rattle.std.specs.List.{list_any};
ghost use Rattle.std.specs.Option.{option_map};
ghost use Rattle.rules_parts.specs.Parts.{use_of, location_of};
ghost use Rattle.rules_typed.specs.UseKinds.{same_location, listed, is_listed, IsStandIn, AreKinds};

use crate::compatible_types::are_compatible;
use rules_parts::{Location, VariableUse};
use std::alloc::{AllocError, Global};
use std::collections::HashMap;

/// For each name, the places of the uses that stand for all uses of it.
type UsesByName<'d> = HashMap<&'d str, Vec<usize>>;

/// Uses that stand for others of their kind. A use is known by its place among all.
#[derive(Drop)]
pub struct UseKinds<'d> {
    known: UsesByName<'d>,
    /// Of each use the one that stands for it.
    pub stand_ins: Vec<usize>,
}

// Tells whether the same variables may stand at two locations.
fn same_location(one: Option<Location>, other: Option<Location>) -> bool
    ensures { result
        ≡ same_location (option_map location_of one.entry) (option_map location_of other.entry) }
{
    match (one, other) {
        (Some(one), Some(other)) => {
            one.has_default == other.has_default
                && are_compatible(one.of_type, other.of_type)
                && are_compatible(other.of_type, one.of_type)
        }
        (None, None) => true,
        _ => false,
    }
}

// Notes a use of a name.
fn note<'d>(
    alloc: Global,
    known: &mut UsesByName<'d>,
    name: &'d str,
    place: usize,
) -> Result<(), AllocError>
    ensures { (q : List ℕ) → OnOk result (listed known.new q
        ≡ (if bytes_eq q name.now then listed known.old q ++ place ∷ [] else listed known.old q)) }
{
    known.entry(name)?.or_insert(Vec::new(alloc)).push(place)?;
    Ok(())
}

// The noted uses of a name.
fn noted_places<'k>(known: &'k UsesByName, name: &str) -> &'k [usize]
    ensures { (k : ℕ) → list_any (nat_eq k) result.now
        ≡ is_listed known.now name.now k }
{
    match known.get(name) {
        Some(places) => places.as_slice(),
        None => &[],
    }
}

// Of these uses, which are of its name, one that stands for a use.
fn stand_in(uses: &[VariableUse], places: &[usize], part: &VariableUse) -> Option<usize>
    ensures { IfSome result (IsStandIn (map use_of uses.now) places.now (use_of part.now)) }
{
    let is_like = |place: &usize| match uses.get(*place) {
        Some(other) => same_location(other.location, part.location),
        None => false,
    };
    places.iter().copied().find(is_like)
}

impl<'d> UseKinds<'d> {
    /// The kinds of these uses.
    pub fn new(alloc: Global, uses: &[VariableUse<'d>]) -> Result<UseKinds<'d>, AllocError>
        ensures { IfOk result (λ kinds.
            AreKinds kinds (map use_of uses.now)) }
    {
        let mut known: UsesByName = HashMap::new(alloc);
        let mut stand_ins = Vec::with_capacity(alloc, uses.len())?;
        for (place, part) in uses.iter().enumerate() {
            match stand_in(uses, noted_places(&known, part.name), part) {
                Some(other) => stand_ins.push(other)?,
                None => {
                    note(alloc, &mut known, part.name, place)?;
                    stand_ins.push(place)?;
                }
            }
        }
        Ok(UseKinds { known, stand_ins })
    }

    /// The uses of a name that stand for all of it.
    pub fn of(&self, name: &str) -> &[usize]
        ensures { (k : ℕ) → list_any (nat_eq k) result.now
            ≡ is_listed self.now.known name.now k }
    {
        noted_places(&self.known, name)
    }
}
