//! The uses of variables in a document, as the rules on them take them.

ghost use Rattle.std.specs.Prelude.{◌≡◌, IfOk};
ghost use Rattle.rules_parts.specs.Parts.{parts_in};
ghost use Rattle.rules_untyped.specs.UseRows.{IsUseTable};

use crate::variable_use_index::VariableUseIndex;
use rules_parts::Parts;
use std::alloc::{AllocError, Global};

/// The uses of variables in a document, with the table in which two rules look them up. It is made once for both.
#[derive(Drop)]
pub struct VariableUses<'p, 'd> {
    pub parts: &'p Parts<'d>,
    pub(crate) table: VariableUseIndex<'d>,
    ghost tabled: { IsUseTable (parts_in parts.now).uses table },
}

impl<'p, 'd> VariableUses<'p, 'd> {
    /// The uses in a document of these parts.
    pub fn new(alloc: Global, parts: &'p Parts<'d>) -> Result<VariableUses<'p, 'd>, AllocError>
        ensures { IfOk result
            (λ uses. uses.parts.now ≡ parts.now) }
    {
        let table = VariableUseIndex::new(alloc, &parts.uses)?;
        Ok(VariableUses { parts, table })
    }
}
