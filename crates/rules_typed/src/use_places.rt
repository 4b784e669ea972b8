//! Places of the uses of variables.

ghost use Rattle.std.specs.Prelude.{IfOk};
ghost use Rattle.rules_typed.specs.UsePlaces.{ArePlaces};

use rules_parts::VariableUse;
use rules_spreads::OwnerLists;
use std::alloc::{AllocError, Global};

/// The places of these uses among all uses of a document, a row for each operation and each fragment that they stand in.
#[tactic(auto, using(crate::proofs::PlaceLaws::place_more))]
pub fn places_of(alloc: Global, uses: &[VariableUse]) -> Result<OwnerLists, AllocError>
    ensures { IfOk result
        (λ places. ArePlaces places uses.now) }
{
    let mut places = OwnerLists {
        operations: Vec::new(alloc),
        fragments: Vec::new(alloc),
    };
    for (i, part) in uses.iter().enumerate() {
        places.add(alloc, part.owner, i)?;
    }
    Ok(places)
}
