//! The fault of a document, before its names are copied.

ghost use Rattle.std.specs.Prelude.{◌≡◌, Some, IfOk, string_bytes};
ghost use Rattle.rules_parts.specs.Broken.{name_of};
ghost use Rattle.gq_check.specs.Verdict.{fault_of};

use crate::fault::{CheckFault, Rule};
use gq_lexer::Place;
use rules_parts::{BrokenName, Violation};
use std::alloc::{AllocError, Global};

/// A fault that borrows its document.
#[derive(Clone, Copy, Debug)]
pub enum Report<'d> {
    Breaks(Rule, Violation<'d>),
    TooComplex,
    TooDeep(Place),
    NotServed(Violation<'d>),
}

// The name as it is printed.
fn broken_name_text(alloc: Global, name: BrokenName<'_>) -> Result<String, AllocError>
    ensures { IfOk result
        (λ text. string_bytes text ≡ name_of name.entry) }
{
    match name {
        BrokenName::Plain(name) => String::from_str(alloc, name),
        BrokenName::Variable(name) => format!(in alloc; "${name}"),
    }
}

impl Report<'_> {
    ghost use Rattle.gq_check.specs.Report.{report_of};

    /// The fault, with its own name.
    pub fn to_fault(self, alloc: Global) -> Result<CheckFault, AllocError>
        ensures { IfOk result (λ fault.
            fault_of fault ≡ Some (report_of self.entry)) }
    {
        match self {
            Report::Breaks(rule, broken) => {
                let name = broken_name_text(alloc, broken.name)?;
                Ok(CheckFault::Rule {
                    rule,
                    name,
                    place: broken.place,
                })
            }
            Report::TooComplex => Ok(CheckFault::TooComplex),
            Report::TooDeep(place) => Ok(CheckFault::TooDeep(place)),
            Report::NotServed(broken) => {
                let name = broken_name_text(alloc, broken.name)?;
                Ok(CheckFault::NotServed {
                    name,
                    place: broken.place,
                })
            }
        }
    }
}
