//! The names of types, each once.

ghost use Rattle.std.specs.Prelude.{◌≡◌, [], OnOk, map, bytes_eq, string_bytes};
ghost use Rattle.std.specs.List.{list_any};
ghost use Rattle.gq_schema.specs.Types.{with_name};

use std::alloc::{AllocError, Global};
use std::collections::HashSet;
use std::marker::Model;

/// Names in the order in which they came, each once. A clause sees the list of their texts.
pub struct TypeNames {
    names: Vec<String>,
    present: HashSet<String>,
}

impl Model for TypeNames {
    ghost use Rattle.std.specs.Prelude.{◌≡◌, List, ℕ, map, bytes_eq, string_bytes};
    ghost use Rattle.std.specs.List.{list_any};
    ghost use Rattle.std.specs.HashSet.{contains_text};

    ghost Value = { List (List ℕ) };

    ghost view = { λ s. map string_bytes s.names.items };

    ghost invariant = { λ s. (q : List ℕ) → contains_text s.present q ≡ list_any (bytes_eq q) (map string_bytes s.names.items) };
}

impl Drop for TypeNames {
    fn drop(self) {
        let TypeNames {
            names: _names,
            present: _present,
        } = self;
    }
}

impl TypeNames {
    pub fn new(alloc: Global) -> TypeNames
        ensures { result ≡ [] }
    {
        TypeNames {
            names: Vec::new(alloc),
            present: HashSet::new(alloc),
        }
    }

    /// Tells whether the name is among them.
    pub fn contains(&self, name: &str) -> bool
        ensures { result ≡ list_any
            (bytes_eq name.now) self.now }
    {
        self.present.contains(name)
    }

    /// The names in order.
    pub fn as_slice(&self) -> &[String]
        ensures { map string_bytes result.now ≡ self.now }
    {
        &self.names
    }

    /// Adds a name after the others, unless it is among them.
    pub fn add(&mut self, name: &String) -> Result<(), AllocError>
        ensures { OnOk result (self.new
            ≡ with_name self.old (string_bytes name.now)) }
    {
        if self.present.contains(name.as_str()) {
            return Ok(());
        }
        let listed = name.clone()?;
        let present = name.clone()?;
        self.names.reserve(1)?;
        self.present.insert(present)?;
        self.names.push(listed)?;
        Ok(())
    }
}
