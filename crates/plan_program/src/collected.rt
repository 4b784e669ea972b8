//! Collected fields.

ghost use Rattle.plan_program.specs.Finding.{texts_of, keys_in, AreFound};

use crate::fields::key_of;
use crate::finding::{note_key, place_of};
use crate::group::Group;
use gq_parser::Field;
use indexmap::IndexSet;
use short_list::ShortList;
use std::alloc::{AllocError, Global};

/// Groups, each found by its key, and the fragments that were entered.
#[derive(Drop)]
pub struct CollectedFields<'p> {
    groups: Vec<Group<'p>>,
    // the keys of the groups, in the same order; none while the groups are few
    table: IndexSet<&'p str>,
    // the names of the fragments
    entered: IndexSet<&'p str>,
    ghost found: { AreFound (texts_of table.keys) (keys_in groups.items) },
}

impl<'p> CollectedFields<'p> {
    ghost use Rattle.std.specs.Prelude.{◌≡◌, not, OnOk, IfOk};
    ghost use Rattle.plan_program.specs.Groups.{with_chosen, with_entered_if, nothing_collected, has_entered};
    ghost use Rattle.plan_program.specs.Fields.{field_seen};
    ghost use Rattle.plan_program.specs.Seen.{groups_of};
    ghost use Rattle.plan_program.specs.Collecting.{collected_of};

    pub fn new(alloc: Global) -> CollectedFields<'p>
        ensures { collected_of result ≡ nothing_collected }
    {
        CollectedFields {
            groups: Vec::new(alloc),
            table: IndexSet::new(alloc),
            entered: IndexSet::new(alloc),
        }
    }

    pub fn into_groups(self) -> Vec<Group<'p>>
        ensures { groups_of result.items ≡ (collected_of self.entry).groups }
    {
        self.groups
    }

    /// Adds a field to the group of its key, or begins one.
    pub fn add_field(&mut self, alloc: Global, field: &'p Field) -> Result<(), AllocError>
        ensures { OnOk result
            (collected_of self.new ≡ with_chosen (collected_of self.old) (field_seen field.now)) }
    {
        let key = key_of(field);
        match place_of(&self.groups, &self.table, key) {
            Some(place) => {
                self.groups[place].fields.push(alloc, field)?;
            }
            None => {
                let fields = ShortList::one(field);
                self.groups.reserve(1)?;
                note_key(&self.groups, &mut self.table, key)?;
                self.groups.push(Group { key, fields })?;
            }
        }
        Ok(())
    }

    /// Notes that a fragment is entered; false where it was before.
    pub fn enter(&mut self, name: &'p str) -> Result<bool, AllocError>
        ensures is_new { IfOk result (λ entered.
            entered ≡ not (has_entered (collected_of self.old) name.now)) }
        ensures after { IfOk result (λ entered.
            collected_of self.new ≡ with_entered_if entered (collected_of self.old) name.now) }
    {
        Ok(self.entered.insert(name)?)
    }
}
