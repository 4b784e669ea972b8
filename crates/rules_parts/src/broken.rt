//! Breaches of a rule, and which of several is reported.

ghost use Rattle.std.specs.Prelude.{◌≡◌, None};
ghost use Rattle.std.specs.Option.{option_map};
ghost use Rattle.rules_parts.specs.Broken.{broken_of, with_broken, with_broken_if};

use gq_lexer::Place;

/// A name as it is reported.
#[derive(Clone, Copy, Debug, PartialEq, Eq)]
pub enum BrokenName<'d> {
    /// The name alone.
    Plain(&'d str),
    /// A variable's name without the `$`, which is reported with it.
    Variable(&'d str),
}

/// Holds what breaks a rule: what is named, and where it stands.
///
/// The name of a variable has its `$` where variables stand beside other names.
#[derive(Clone, Copy, Debug, PartialEq, Eq)]
pub struct Violation<'d> {
    pub name: BrokenName<'d>,
    pub place: Place,
}

impl<'d> Violation<'d> {
    ghost use Rattle.rules_parts.specs.Broken.{name_of};

    /// A name that is reported as it is.
    pub fn of_name(name: &'d str, place: Place) -> Violation<'d>
        ensures name { name_of result.name ≡ name.now }
        ensures place { result.place ≡ place }
    {
        Violation {
            name: BrokenName::Plain(name),
            place,
        }
    }
}

/// The earliest of what breaks a rule, over one pass; of several at one place the first that was met.
#[derive(Clone, Copy, Debug)]
pub struct EarliestViolation<'d> {
    pub found: Option<Violation<'d>>,
}

impl<'d> EarliestViolation<'d> {
    /// Nothing broken so far.
    pub fn new() -> EarliestViolation<'d>
        ensures { option_map broken_of result.found ≡ None }
    {
        EarliestViolation { found: None }
    }

    /// Keeps what is broken, where it stands before all so far.
    pub fn add(&mut self, broken: Violation<'d>)
        ensures { option_map broken_of self.new.found
            ≡ with_broken (option_map broken_of self.old.found) (broken_of broken.entry) }
    {
        match self.found {
            Some(kept) => {
                if broken.place.is_before(kept.place) {
                    self.found = Some(broken);
                }
            }
            None => self.found = Some(broken),
        }
    }

    /// Adds a violation, if there is one.
    pub fn add_if(&mut self, broken: Option<Violation<'d>>)
        ensures { option_map broken_of self.new.found ≡ with_broken_if
            (option_map broken_of self.old.found) (option_map broken_of broken.entry) }
    {
        if let Some(broken) = broken {
            self.add(broken);
        }
    }
}
