//! Documents whose fields agree wherever they have one response key. In such a document every set can be merged.

ghost use Rattle.std.specs.Prelude.{◌≡◌, ◌<◌, ◌+◌, ℕ, List, Some, None, length, IsTrue, IfOk, OnOk, bytes_eq, if◌then◌else◌};
ghost use Rattle.rules_parts.specs.Parts.{parts_in};
ghost use Rattle.merging_members.specs.Fragments.{or_else, target_at};
ghost use Rattle.merging_fields.specs.Agreeing.{AgreeByKey, AgreeUnderOneKey, FieldsAgree, AreSeen};

use crate::attributes::{are_alike, do_agree, have_one_key, response_key};
use rules_parts::Parts;
use std::alloc::{AllocError, Global};
use std::collections::HashMap;

/// The number of fields from which on the first one of a response key is found by hash.
const MANY_FIELDS: usize = 32;

/// The number of the first field of each response key.
type FirstFields<'d> = HashMap<&'d str, usize>;

// Notes the number of a response key's first field.
fn note<'d>(seen: &mut FirstFields<'d>, key: &'d str, number: usize) -> Result<(), AllocError>
    ensures { (q : List ℕ) → OnOk result (target_at seen.new q
        ≡ or_else (target_at seen.old q) (if bytes_eq q key.now then Some number else None)) }
{
    seen.entry(key)?.or_insert(number);
    Ok(())
}

// Tells whether two fields have the same name with equal arguments, and types of one shape.
fn agree(parts: &Parts, one: usize, other: usize) -> bool
    requires one { one < length
        (parts_in parts.now).fields }
    requires other { other < length
        (parts_in parts.now).fields }
    ensures { IsTrue result
        → FieldsAgree (parts_in parts.now) one other }
{
    let one = &parts.fields[one];
    let other = &parts.fields[other];
    do_agree(one, other) && are_alike(parts.schema, one, other)
}

// Tells whether a field agrees with the first one of its response key, which is noted where there is none yet.
fn agrees_with_first<'d>(
    parts: &Parts<'d>,
    seen: &mut FirstFields<'d>,
    number: usize,
) -> Result<bool, AllocError>
    requires there { number < length
        (parts_in parts.now).fields }
    requires seen { AreSeen (parts_in parts.now)
        (target_at seen.old) number }
    ensures { IfOk result (λ agrees.
        IsTrue agrees → AreSeen (parts_in parts.now) (target_at seen.new) (number + 1)) }
{
    let key = response_key(&parts.fields[number]);
    match seen.get(key) {
        Some(first) => Ok(agree(parts, *first, number)),
        None => {
            note(seen, key, number)?;
            Ok(true)
        }
    }
}

// Tells whether two fields agree, if they have one response key.
fn agree_under_one_key(parts: &Parts, one: usize, other: usize) -> bool
    requires one { one < length
        (parts_in parts.now).fields }
    requires other { other < length
        (parts_in parts.now).fields }
    ensures { IsTrue result
        → AgreeUnderOneKey (parts_in parts.now) one other }
{
    !have_one_key(&parts.fields[one], &parts.fields[other]) || agree(parts, one, other)
}

// Tells whether all fields of one response key agree, by a look at each two.
fn agree_in_pairs(parts: &Parts) -> bool
    ensures { IsTrue result
        → AgreeByKey (parts_in parts.now) }
{
    for number in 0..parts.fields.len() {
        for earlier in 0..number {
            if !agree_under_one_key(parts, earlier, number) {
                return false;
            }
        }
    }
    true
}

/// Tells whether all fields of one response key agree. A few are compared in pairs, without memory; many in one pass.
pub fn agree_by_key(alloc: Global, parts: &Parts) -> Result<bool, AllocError>
    ensures { IfOk result (λ agree.
        IsTrue agree → AgreeByKey (parts_in parts.now)) }
{
    if parts.fields.len() < MANY_FIELDS {
        return Ok(agree_in_pairs(parts));
    }
    let mut seen: FirstFields = HashMap::new(alloc);
    for number in 0..parts.fields.len() {
        if !agrees_with_first(parts, &mut seen, number)? {
            return Ok(false);
        }
    }
    Ok(true)
}
