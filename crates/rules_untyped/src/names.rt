//! Parts that have names, and names that stand a second time.

ghost use Rattle.std.specs.Prelude.{◌≡◌, ◌∷◌, List, OnOk, map};
ghost use Rattle.std.specs.List.{list_any};
ghost use Rattle.gq_parser.specs.Tree.{variable_of, fragment_of, directive_of, argument_of};
ghost use Rattle.rules_parts.specs.Broken.{BrokenOf};
ghost use Rattle.rules_untyped.specs.Named.{named, named_variable, named_fragment, named_directive, named_argument};
ghost use Rattle.rules_untyped.specs.Repeated.{has_name, repeated};
ghost use Rattle.rules_untyped.specs.Scans.{left, if_repeated, Tells};

use gq_lexer::Place;
use gq_parser::{Argument, Directive, Fragment, VariableDefinition};
use rules_parts::{EarliestViolation, Violation};
use std::alloc::{AllocError, Global};
use std::collections::HashSet;

/// The number of names from which on an earlier one is found by hash.
const MANY_NAMES: usize = 16;

/// A part of a document that has a name.
pub trait HasName {
    ghost use Rattle.rules_parts.specs.Broken.{BrokenOf};

    ghost part: { Self → BrokenOf };

    fn name(&self) -> &str
        ensures { result.now ≡ (part self.now).name };

    /// The place of its first token.
    fn place(&self) -> Place
        ensures { result ≡ (part self.now).place };
}

impl HasName for VariableDefinition {
    ghost part = { λ v. named_variable (variable_of v) };

    fn name(&self) -> &str {
        self.name.as_str()
    }

    fn place(&self) -> Place {
        self.place
    }
}

impl HasName for Fragment {
    ghost part = { λ f. named_fragment (fragment_of f) };

    fn name(&self) -> &str {
        self.name.as_str()
    }

    fn place(&self) -> Place {
        self.place
    }
}

impl HasName for Directive {
    ghost part = { λ d. named_directive (directive_of d) };

    fn name(&self) -> &str {
        self.name.as_str()
    }

    fn place(&self) -> Place {
        self.place
    }
}

impl HasName for Argument {
    ghost part = { λ a. named_argument (argument_of a) };

    fn name(&self) -> &str {
        self.name.as_str()
    }

    fn place(&self) -> Place {
        self.place
    }
}

/// The names that stood earlier in a list.
pub type Names<'d> = HashSet<&'d str>;

/// Notes a name, and reports it if it was noted before.
pub fn note<'d>(
    names: &mut Names<'d>,
    earliest: &mut EarliestViolation<'d>,
    name: &'d str,
    place: Place,
) -> Result<(), AllocError>
    ensures { (rest : List BrokenOf) → OnOk result (left names.new earliest.new rest
        ≡ left names.old earliest.old (named name.now place ∷ rest)) }
{
    let first = names.insert(name)?;
    if !first {
        earliest.add(Violation::of_name(name, place));
    }
    Ok(())
}

// Tells whether one of these parts has this name.
fn stands_in<T: HasName>(parts: &[T], name: &str) -> bool
    ensures { result ≡ list_any (has_name name.now) (map T.part parts.now) }
{
    for part in parts {
        if name == part.name() {
            return true;
        }
    }
    false
}

// Reports a part, if one of those before it has its name.
fn add_if_repeated<'d, T: HasName>(before: &[T], part: &'d T, earliest: &mut EarliestViolation<'d>)
    ensures { Tells earliest.old earliest.new
        (if_repeated (map T.part before.now) (T.part part.now)) }
{
    if stands_in(before, part.name()) {
        earliest.add(Violation::of_name(part.name(), part.place()));
    }
}

// Reports the parts whose name an earlier part has, by a look at each two.
fn add_repeated_in_pairs<'d, T: HasName>(parts: &'d [T], earliest: &mut EarliestViolation<'d>)
    ensures { Tells earliest.old earliest.new (repeated (map T.part parts.now)) }
{
    for (i, part) in parts.iter().enumerate() {
        add_if_repeated(&parts[..i], part, earliest);
    }
}

/// Reports the parts whose name an earlier part of the list has. A few are compared in pairs, without memory.
pub fn add_repeated<'d, T: HasName>(
    alloc: Global,
    parts: &'d [T],
    earliest: &mut EarliestViolation<'d>,
) -> Result<(), AllocError>
    ensures { OnOk result (Tells earliest.old earliest.new (repeated (map T.part parts.now))) }
{
    if parts.len() < MANY_NAMES {
        add_repeated_in_pairs(parts, earliest);
        return Ok(());
    }
    let mut names: Names = HashSet::new(alloc);
    for part in parts {
        note(&mut names, earliest, part.name(), part.place())?;
    }
    Ok(())
}
