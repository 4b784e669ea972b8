//! Fragments Must Be Used (section 5.5.1.4).

ghost use Rattle.std.specs.Prelude.{◌≡◌, ℕ, List, IfOk};
ghost use Rattle.std.specs.List.{list_any};
ghost use Rattle.std.specs.Option.{option_map};
ghost use Rattle.rules_parts.specs.Broken.{broken_of, earliest};
ghost use Rattle.rules_parts.specs.Parts.{parts_in};
ghost use Rattle.rules_untyped.specs.Scans.{has_text};
ghost use Rattle.rules_untyped.specs.FragmentsMustBeUsed.{spreads, fragments_must_be_used};

use crate::names::Names;
use rules_parts::{EarliestViolation, Parts, Violation};
use std::alloc::{AllocError, Global};
use std::collections::HashSet;

// The names that spreads name.
fn spread_names<'d>(alloc: Global, parts: &Parts<'d>) -> Result<Names<'d>, AllocError>
    ensures { IfOk result (λ names.
        (q : List ℕ) → has_text names q ≡ list_any (spreads q) (parts_in parts.now).spreads) }
{
    let mut names: Names = HashSet::new(alloc);
    for part in &parts.spreads {
        names.insert(part.spread.name.as_str())?;
    }
    Ok(names)
}

/// Fragments Must Be Used (section 5.5.1.4): a fragment that no spread of the document names.
///
/// # Examples
///
/// | `{users{id}} fragment F on User{id}` | `5.5.1.4 Fragments Must Be Used: F` | 13, the fragment | Spread it somewhere, or remove it. A spread in a
/// fragment counts, even if that fragment isn't used. |
pub fn fragments_must_be_used<'d>(
    alloc: Global,
    parts: &Parts<'d>,
) -> Result<Option<Violation<'d>>, AllocError>
    ensures { IfOk result (λ broken.
        option_map broken_of broken ≡ earliest (fragments_must_be_used (parts_in parts.now))) }
{
    let document = parts.document;
    let names = spread_names(alloc, parts)?;
    let mut earliest = EarliestViolation::new();
    for fragment in &document.fragments {
        if !names.contains(fragment.name.as_str()) {
            earliest.add(Violation::of_name(fragment.name.as_str(), fragment.place));
        }
    }
    Ok(earliest.found)
}
