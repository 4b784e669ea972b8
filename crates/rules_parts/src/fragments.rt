//! Fragments by their names.

ghost use Rattle.std.specs.Prelude.{◌≡◌, ℕ, List, Some, None, IfOk, OnOk, map, bytes_eq, if◌then◌else◌};
ghost use Rattle.gq_parser.specs.Tree.{fragment_of};
ghost use Rattle.gq_schema.specs.Scan.{or_else};
ghost use Rattle.rules_parts.specs.Fragments.{number_at, AreNumbers};

use gq_parser::Fragment;
use std::alloc::{AllocError, Global};
use std::collections::HashMap;

/// The number of the first fragment of each name, from 0.
pub type FragmentNumbers<'d> = HashMap<&'d str, usize>;

// Notes the number of a name, unless one of the name stands earlier.
fn note<'d>(
    numbers: &mut FragmentNumbers<'d>,
    name: &'d str,
    number: usize,
) -> Result<(), AllocError>
    ensures { (q : List ℕ) → OnOk result (number_at numbers.new q
        ≡ or_else (number_at numbers.old q) (if bytes_eq q name.now then Some number else None)) }
{
    numbers.entry(name)?.or_insert(number);
    Ok(())
}

/// The numbers of a document's fragments.
pub fn fragment_numbers<'d>(
    alloc: Global,
    fragments: &'d [Fragment],
) -> Result<FragmentNumbers<'d>, AllocError>
    ensures { IfOk result
        (AreNumbers (map fragment_of fragments.now)) }
{
    let mut numbers: FragmentNumbers = HashMap::new(alloc);
    for (i, fragment) in fragments.iter().enumerate() {
        note(&mut numbers, fragment.name.as_str(), i)?;
    }
    Ok(numbers)
}
