//! The bindings of fields.

ghost use Rattle.std.specs.Prelude.{◌≡◌, ◌++◌, [], ◌∷◌, None, OnOk, OnErr, ℕ, List, Some};
ghost use Rattle.std.specs.Option.{option_map, option_copied};
ghost use Rattle.gq_bindings.specs.Tree.{binding_in};
ghost use Rattle.gq_bindings.specs.Places.{place_in, IsPlaced};

use crate::binding::{Binding, BoundField};
use std::alloc::{AllocError, Global};
use std::collections::HashMap;
use std::marker::Model;

/// The place of each field's binding, by its type and its name.
type FieldIndices = HashMap<String, HashMap<String, usize>>;

/// Notes the place of a field's binding.
fn note(
    places: &mut FieldIndices,
    type_name: &String,
    field_name: &String,
    place: usize,
) -> Result<(), AllocError>
    ensures ok { (q r : List ℕ)
        → OnOk result (IsPlaced type_name.now field_name.now place places.old places.new q r) }
    ensures err { (q r : List ℕ)
        → OnErr result (place_in places.new q r ≡ place_in places.old q r) }
{
    let key = type_name.clone()?;
    let name = field_name.clone()?;
    let names = places.entry(key)?.or_default();
    names.insert(name, place)?;
    Ok(())
}

/// The place of a field's binding.
fn place_of(places: &FieldIndices, type_name: &str, field_name: &str) -> Option<usize>
    ensures { result ≡ place_in places.now
        type_name.now field_name.now }
{
    places.get(type_name)?.get(field_name).copied()
}

/// The bindings of fields in the order in which they came, each field of a type once.
pub struct BoundFields {
    entries: Vec<BoundField>,
    places: FieldIndices,
}

impl Model for BoundFields {
    ghost use Rattle.std.specs.Prelude.{◌≡◌, List, ℕ, map};
    ghost use Rattle.gq_schema.specs.Places.{place_from};
    ghost use Rattle.gq_bindings.specs.Tree.{BoundFieldOf, binds};
    ghost use Rattle.gq_bindings.specs.Seen.{bound_of};
    ghost use Rattle.gq_bindings.specs.Places.{place_in};

    ghost Value = { List BoundFieldOf };

    ghost view = { λ s. map bound_of s.entries.items };

    ghost invariant = { λ s. (q r : List ℕ) → place_in s.places q r ≡ place_from 0 (binds q r) (map bound_of s.entries.items) };
}

impl Drop for BoundFields {
    fn drop(self) {
        let BoundFields {
            entries: _entries,
            places: _places,
        } = self;
    }
}

impl BoundFields {
    ghost use Rattle.gq_bindings.specs.Seen.{bound_of, binding_of};

    pub fn new(alloc: Global) -> BoundFields
        ensures { result ≡ [] }
    {
        BoundFields {
            entries: Vec::new(alloc),
            places: HashMap::new(alloc),
        }
    }

    /// The binding of a field of a type.
    pub fn get(&self, type_name: &str, field_name: &str) -> Option<&Binding>
        ensures { option_map binding_of (option_copied result)
            ≡ binding_in self.now type_name.now field_name.now }
    {
        let place = place_of(&self.places, type_name, field_name)?;
        Some(&self.entries[place].binding)
    }

    /// Adds a field's binding after the others. None of them is the field's.
    pub fn push(&mut self, field: BoundField) -> Result<(), AllocError>
        requires { binding_in self.old (bound_of field).type_name (bound_of field).field_name
            ≡ None }
        ensures ok { OnOk result
            (self.new ≡ self.old ++ bound_of field ∷ []) }
    {
        let place = self.entries.len();
        self.entries.reserve(1)?;
        note(&mut self.places, &field.type_name, &field.field_name, place)?;
        self.entries.push(field)?;
        Ok(())
    }
}
