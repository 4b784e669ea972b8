//! The uses of variables, by what they stand in and by their names.

ghost use Rattle.std.specs.Prelude.{◌≡◌, ℕ, List, Some, None, IfOk, OnOk, bytes_eq, map, slice_index, if◌then◌else◌};
ghost use Rattle.gq_schema.specs.Scan.{or_else};
ghost use Rattle.rules_parts.specs.Parts.{use_of};
ghost use Rattle.rules_spreads.specs.OwnerLists.{is_same_owner};
ghost use Rattle.rules_untyped.specs.VariableUseIndex.{number_in, number_by, numbers_by};
ghost use Rattle.rules_untyped.specs.UseRows.{GoesOn, IsUseTable};

use rules_parts::{Owner, VariableUse};
use rules_spreads::{OwnerLists, put};
use std::alloc::{AllocError, Global};
use std::collections::HashMap;

/// The number of each name: the place of its first use.
pub type VariableNumbers<'d> = HashMap<&'d str, usize>;

// Notes the place of a use, unless its name was noted before.
fn note_use<'d>(
    names: &mut VariableNumbers<'d>,
    name: &'d str,
    place: usize,
) -> Result<(), AllocError>
    ensures { (q : List ℕ) → OnOk result (number_by names.new q
        ≡ or_else (number_by names.old q) (if bytes_eq q name.now then Some place else None)) }
{
    names.entry(name)?.or_insert(place);
    Ok(())
}

fn first_uses<'d>(
    alloc: Global,
    uses: &[VariableUse<'d>],
) -> Result<VariableNumbers<'d>, AllocError>
    ensures { IfOk result (λ names.
        (q : List ℕ) → number_by names q ≡ number_in (map use_of uses.now) q) }
{
    let mut names: VariableNumbers = HashMap::new(alloc);
    for (place, part) in uses.iter().enumerate() {
        note_use(&mut names, part.name, place)?;
    }
    Ok(names)
}

// The number of each use's name.
fn numbers_of(
    alloc: Global,
    names: &VariableNumbers,
    uses: &[VariableUse],
) -> Result<Vec<usize>, AllocError>
    ensures { IfOk result (λ numbers.
        numbers.items ≡ numbers_by (number_by names.now) (map use_of uses.now)) }
{
    let mut numbers = Vec::with_capacity(alloc, uses.len())?;
    for part in uses {
        numbers.push(names.get(part.name).copied().unwrap_or(0))?;
    }
    Ok(numbers)
}

/// The number at a place, or 0.
pub fn number_at(numbers: &[usize], place: usize) -> usize
    ensures { result ≡ slice_index numbers.now place }
{
    numbers.get(place).copied().unwrap_or(0)
}

// Tells whether both are one operation or one fragment.
fn is_same_owner(one: Owner, other: Owner) -> bool
    ensures { result ≡ is_same_owner one other }
{
    match (one, other) {
        (Owner::Operation(i), Owner::Operation(k)) => i == k,
        (Owner::Operation(_), Owner::Fragment(_)) => false,
        (Owner::Fragment(_), Owner::Operation(_)) => false,
        (Owner::Fragment(i), Owner::Fragment(k)) => i == k,
    }
}

/// The last use of a name that was put into a row.
#[derive(Clone, Copy)]
struct Last {
    owner: Owner,
    place: usize,
}

// The use that stands in the rows for one that comes next: itself, unless the last use of its name stands in the same operation or
// fragment.
fn stand_in(
    alloc: Global,
    rows: &mut OwnerLists,
    lasts: &mut Vec<Option<Last>>,
    owner: Owner,
    number: usize,
    place: usize,
) -> Result<usize, AllocError>
    ensures { IfOk result
        (GoesOn rows.old lasts.old.items rows.new lasts.new.items owner number place) }
{
    if let Some(Some(last)) = lasts.get(number) {
        if is_same_owner(last.owner, owner) {
            return Ok(last.place);
        }
    }
    put(lasts, None, number, Some(Last { owner, place }))?;
    rows.add(alloc, owner, place)?;
    Ok(place)
}

/// The uses of variables, by their operation or fragment and by their names. A use is known by its place in the document's
/// list.
///
/// It is made once for the two rules that need no types. *All Variable Usages Are Allowed* has an index of its
/// own, in which uses of one name at locations of different types differ.
#[derive(Drop)]
pub struct VariableUseIndex<'d> {
    pub names: VariableNumbers<'d>,
    /// The number of each use's name.
    pub numbers: Vec<usize>,
    /// Of each use the one that stands in the rows for it: one of its name, in the same operation or fragment.
    pub stand_ins: Vec<usize>,
    /// Uses by the operation or fragment that they stand in.
    pub rows: OwnerLists,
}

impl<'d> VariableUseIndex<'d> {
    /// The table of these uses.
    pub fn new(alloc: Global, uses: &[VariableUse<'d>]) -> Result<VariableUseIndex<'d>, AllocError>
        ensures { IfOk result (λ table.
            IsUseTable (map use_of uses.now) table) }
    {
        let names = first_uses(alloc, uses)?;
        let numbers = numbers_of(alloc, &names, uses)?;
        let mut rows = OwnerLists {
            operations: Vec::new(alloc),
            fragments: Vec::new(alloc),
        };
        let mut lasts: Vec<Option<Last>> = Vec::new(alloc);
        let mut stand_ins = Vec::with_capacity(alloc, uses.len())?;
        for (place, part) in uses.iter().enumerate() {
            let number = number_at(&numbers, place);
            let stand = stand_in(alloc, &mut rows, &mut lasts, part.owner, number, place)?;
            stand_ins.push(stand)?;
        }
        Ok(VariableUseIndex {
            names,
            numbers,
            stand_ins,
            rows,
        })
    }
}
