//! The loaders of a bindings text.

ghost use Rattle.std.specs.Prelude.{◌≡◌, ◌++◌, [], ◌∷◌, None, Some, OnOk, OnErr, map, ℕ, List, bytes_eq, string_bytes, if◌then◌else◌};
ghost use Rattle.std.specs.HashMap.{get_by_text};
ghost use Rattle.std.specs.Option.{option_map};
ghost use Rattle.gq_bindings.specs.Tree.{loader_in};

use crate::binding::LoaderLine;
use std::alloc::{AllocError, Global};
use std::collections::HashMap;
use std::marker::Model;

/// Notes the number of a loader.
fn note(
    numbers: &mut HashMap<String, usize>,
    name: &String,
    number: usize,
) -> Result<(), AllocError>
    ensures ok { (q : List ℕ) → OnOk result (get_by_text numbers.new q
        ≡ (if bytes_eq q (string_bytes name.now) then Some number else get_by_text numbers.old q)) }
    ensures err { (q : List ℕ)
        → OnErr result (get_by_text numbers.new q ≡ get_by_text numbers.old q) }
{
    numbers.insert(name.clone()?, number)?;
    Ok(())
}

/// The loaders in order, each name once.
pub struct Loaders {
    lines: Vec<LoaderLine>,
    numbers: HashMap<String, usize>,
}

impl Model for Loaders {
    ghost use Rattle.std.specs.Prelude.{◌≡◌, List, ℕ, map};
    ghost use Rattle.std.specs.Option.{option_map};
    ghost use Rattle.std.specs.HashMap.{get_by_text};
    ghost use Rattle.gq_bindings.specs.Tree.{LoaderOf, number_of, loader_in};
    ghost use Rattle.gq_bindings.specs.Seen.{loader_of};

    ghost Value = { List LoaderOf };

    ghost view = { λ s. map loader_of s.lines.items };

    ghost invariant = { λ s. (q : List ℕ) → get_by_text s.numbers q ≡ number_of (loader_in (map loader_of s.lines.items) q) };
}

impl Drop for Loaders {
    fn drop(self) {
        let Loaders {
            lines: _lines,
            numbers: _numbers,
        } = self;
    }
}

/// A loader with its number.
#[derive(Clone, Copy)]
pub struct NumberedLoader<'a> {
    pub number: usize,
    pub line: &'a LoaderLine,
}

impl Loaders {
    ghost use Rattle.gq_bindings.specs.Seen.{loader_of};

    pub fn new(alloc: Global) -> Loaders
        ensures { result ≡ [] }
    {
        Loaders {
            lines: Vec::new(alloc),
            numbers: HashMap::new(alloc),
        }
    }

    /// The loader of this name, with its number.
    pub fn find(&self, name: &str) -> Option<NumberedLoader<'_>>
        ensures { option_map (λ found. (found.number, loader_of found.line.now)) result
            ≡ loader_in self.now name.now }
    {
        let number = *self.numbers.get(name)?;
        let line = &self.lines[number];
        Some(NumberedLoader { number, line })
    }

    /// The loaders in order.
    pub fn as_slice(&self) -> &[LoaderLine]
        ensures { map loader_of result.now ≡ self.now }
    {
        &self.lines
    }

    /// Adds a loader after the others. None of them has its name.
    pub fn push(&mut self, line: LoaderLine) -> Result<(), AllocError>
        requires { loader_in self.old (loader_of line).name
            ≡ None }
        ensures ok { OnOk result
            (self.new ≡ self.old ++ loader_of line ∷ []) }
    {
        let number = self.lines.len();
        self.lines.reserve(1)?;
        note(&mut self.numbers, &line.name, number)?;
        self.lines.push(line)?;
        Ok(())
    }
}
