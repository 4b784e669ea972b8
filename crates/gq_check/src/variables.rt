//! Variables by their names.

ghost use Rattle.std.specs.Prelude.{◌≡◌, IfOk};
ghost use Rattle.std.specs.Option.{option_map, option_copied};
ghost use Rattle.gq_schema.specs.Inputs.{input_of};
ghost use Rattle.gq_schema.specs.Places.{ArePlaces};
ghost use Rattle.gq_variables.specs.Variables.{variables_of, is_variable, value_in};

use crate::places::{PlacesByName, note};
use gq_schema::Input;
use gq_variables::Variable;
use std::alloc::{AllocError, Global};
use std::collections::HashMap;
use std::marker::Model;

/// The number of variables from which on one is found by its name's place, and no longer by a look at each.
const MANY_VARIABLES: usize = 8;

/// Variables in their order, each found by its name. A contract sees the list.
pub struct Variables {
    items: Vec<Variable>,
    // empty while the variables are few
    places: PlacesByName,
}

impl Model for Variables {
    ghost use Rattle.std.specs.Prelude.{List};
    ghost use Rattle.std.specs.Coded.{codes};
    ghost use Rattle.gq_variables.specs.declared.variable.Variable.{Variable};
    ghost use Rattle.gq_schema.specs.contracts.input.Input as input;

    ghost Value = { List Variable };

    ghost coded = { Prim.hlevel (codes, input.the_row.coded) };

    ghost use Rattle.gq_variables.specs.Variables.{variables_of, is_variable};
    ghost use Rattle.gq_check.specs.Places.{ArePlacesIf};

    ghost view = { λ v. v.items.items };

    ghost invariant = { λ v. ArePlacesIf is_variable (variables_of v.items.items) v.places };
}

impl Drop for Variables {
    fn drop(self) {
        let Variables {
            items: _items,
            places: _places,
        } = self;
    }
}

// The place of the first variable of each name.
fn variable_places(alloc: Global, variables: &[Variable]) -> Result<PlacesByName, AllocError>
    ensures { IfOk result (ArePlaces is_variable (variables_of variables.now)) }
{
    let mut places: PlacesByName = HashMap::new(alloc);
    for (i, variable) in variables.iter().enumerate() {
        note(alloc, &mut places, variable.name.as_str(), i)?;
    }
    Ok(places)
}

// The value of the first variable of this name, by a look at each.
fn value_among<'v>(variables: &'v [Variable], name: &str) -> Option<&'v Input>
    ensures { option_map input_of (option_copied result)
        ≡ value_in (variables_of variables.now) name.now }
{
    for variable in variables {
        if variable.name.as_str() == name {
            return Some(&variable.value);
        }
    }
    None
}

impl Variables {
    /// These variables.
    pub fn of(alloc: Global, items: Vec<Variable>) -> Result<Variables, AllocError>
        ensures { IfOk result
            (λ variables. variables ≡ items.items) }
    {
        let mut places = HashMap::new(alloc);
        if items.len() >= MANY_VARIABLES {
            places = variable_places(alloc, &items)?;
        }
        Ok(Variables { items, places })
    }

    /// The variables in their order.
    pub fn as_slice(&self) -> &[Variable]
        ensures { result.now ≡ self.now }
    {
        &self.items
    }

    /// The value of the first variable of this name.
    pub fn get(&self, name: &str) -> Option<&Input>
        ensures { option_map input_of (option_copied result)
            ≡ value_in (variables_of self.now) name.now }
    {
        if self.places.is_empty() {
            return value_among(&self.items, name);
        }
        let place = *self.places.get(name)?;
        Some(&self.items[place].value)
    }
}
