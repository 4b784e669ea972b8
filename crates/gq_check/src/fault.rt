//! Faults: why a document is not valid, and why there is no plan.

ghost use Rattle.std.specs.Prelude.{◌≡◌};
ghost use Rattle.gq_check.specs.declared.fault.PrepareFault.TheVariants as prepare;
ghost use Rattle.gq_check.specs.declared.fault.CheckFault.TheVariants as check;

use gq_lexer::Place;
use short_text::Text;
use std::alloc::{AllocError, AllocFailed};
use std::error::Error;
use std::fmt;

/// A rule of validation (section 5), by its title.
#[derive(Clone, Copy, Debug, PartialEq, Eq)]
pub enum Rule {
    OperationNameUniqueness,
    LoneAnonymousOperation,
    FieldSelections,
    FieldSelectionMerging,
    LeafFieldSelections,
    ArgumentNames,
    ArgumentUniqueness,
    RequiredArguments,
    FragmentNameUniqueness,
    FragmentSpreadTypeExistence,
    FragmentsOnCompositeTypes,
    FragmentsMustBeUsed,
    FragmentSpreadTargetDefined,
    FragmentSpreadsMustNotFormCycles,
    FragmentSpreadIsPossible,
    ValuesOfCorrectType,
    DirectivesAreDefined,
    DirectivesAreInValidLocations,
    DirectivesAreUniquePerLocation,
    VariableUniqueness,
    VariablesAreInputTypes,
    AllVariableUsesDefined,
    AllVariablesUsed,
    AllVariableUsagesAreAllowed,
}

impl Rule {
    ghost use Rattle.gq_check.specs.Texts.{section_of, title_of};

    /// The number of its section.
    pub fn section(self) -> &'static str
        ensures { result.now ≡ section_of self }
    {
        match self {
            Rule::OperationNameUniqueness => "5.2.1.1",
            Rule::LoneAnonymousOperation => "5.2.2.1",
            Rule::FieldSelections => "5.3.1",
            Rule::FieldSelectionMerging => "5.3.2",
            Rule::LeafFieldSelections => "5.3.3",
            Rule::ArgumentNames => "5.4.1",
            Rule::ArgumentUniqueness => "5.4.2",
            Rule::RequiredArguments => "5.4.2.1",
            Rule::FragmentNameUniqueness => "5.5.1.1",
            Rule::FragmentSpreadTypeExistence => "5.5.1.2",
            Rule::FragmentsOnCompositeTypes => "5.5.1.3",
            Rule::FragmentsMustBeUsed => "5.5.1.4",
            Rule::FragmentSpreadTargetDefined => "5.5.2.1",
            Rule::FragmentSpreadsMustNotFormCycles => "5.5.2.2",
            Rule::FragmentSpreadIsPossible => "5.5.2.3",
            Rule::ValuesOfCorrectType => "5.6.1",
            Rule::DirectivesAreDefined => "5.7.1",
            Rule::DirectivesAreInValidLocations => "5.7.2",
            Rule::DirectivesAreUniquePerLocation => "5.7.3",
            Rule::VariableUniqueness => "5.8.1",
            Rule::VariablesAreInputTypes => "5.8.2",
            Rule::AllVariableUsesDefined => "5.8.3",
            Rule::AllVariablesUsed => "5.8.4",
            Rule::AllVariableUsagesAreAllowed => "5.8.5",
        }
    }

    /// Its title.
    pub fn title(self) -> &'static str
        ensures { result.now ≡ title_of self }
    {
        match self {
            Rule::OperationNameUniqueness => "Operation Name Uniqueness",
            Rule::LoneAnonymousOperation => "Lone Anonymous Operation",
            Rule::FieldSelections => "Field Selections",
            Rule::FieldSelectionMerging => "Field Selection Merging",
            Rule::LeafFieldSelections => "Leaf Field Selections",
            Rule::ArgumentNames => "Argument Names",
            Rule::ArgumentUniqueness => "Argument Uniqueness",
            Rule::RequiredArguments => "Required Arguments",
            Rule::FragmentNameUniqueness => "Fragment Name Uniqueness",
            Rule::FragmentSpreadTypeExistence => "Fragment Spread Type Existence",
            Rule::FragmentsOnCompositeTypes => "Fragments On Composite Types",
            Rule::FragmentsMustBeUsed => "Fragments Must Be Used",
            Rule::FragmentSpreadTargetDefined => "Fragment Spread Target Defined",
            Rule::FragmentSpreadsMustNotFormCycles => "Fragment Spreads Must Not Form Cycles",
            Rule::FragmentSpreadIsPossible => "Fragment Spread Is Possible",
            Rule::ValuesOfCorrectType => "Values of Correct Type",
            Rule::DirectivesAreDefined => "Directives Are Defined",
            Rule::DirectivesAreInValidLocations => "Directives Are In Valid Locations",
            Rule::DirectivesAreUniquePerLocation => "Directives Are Unique Per Location",
            Rule::VariableUniqueness => "Variable Uniqueness",
            Rule::VariablesAreInputTypes => "Variables Are Input Types",
            Rule::AllVariableUsesDefined => "All Variable Uses Defined",
            Rule::AllVariablesUsed => "All Variables Used",
            Rule::AllVariableUsagesAreAllowed => "All Variable Usages Are Allowed",
        }
    }
}

/// Reason why a document is not valid. It is displayed as the message that a client reads, without the place.
#[derive(Debug, Drop)]
pub enum CheckFault {
    /// The part with this name and place breaks a rule of validation.
    Rule {
        rule: Rule,
        name: String,
        place: Place,
    },
    /// The document has more than 1,000 fields, each counted once where it is written.
    TooComplex,
    /// The operation here has more than 128 fields on a path, fragments expanded.
    TooDeep(Place),
    /// An operation of another kind than query, or a field of introspection.
    NotServed {
        /// The kind of the operation, or the name of the field.
        name: String,
        place: Place,
    },
    /// Out of memory.
    NoMemory,
}

impl CheckFault {
    ghost use Rattle.gq_check.specs.Texts.{check_place};

    /// The place of the fault, if it has one.
    pub fn place(&self) -> Option<Place>
        ensures { result ≡ check_place self.now }
    {
        match self {
            CheckFault::Rule { place, .. } => Some(*place),
            CheckFault::TooComplex => None,
            CheckFault::TooDeep(place) => Some(*place),
            CheckFault::NotServed { place, .. } => Some(*place),
            CheckFault::NoMemory => None,
        }
    }
}

impl fmt::Display for CheckFault {
    ghost use Rattle.std.specs.Prelude.{Some};
    ghost use Rattle.gq_check.specs.Texts.{check_message};

    ghost output = { λ fault. Some (check_message fault) };

    fn fmt<W: fmt::Write>(&self, f: &mut fmt::Formatter<W>) -> fmt::Result {
        match self {
            CheckFault::Rule { rule, name, .. } => {
                let section = rule.section();
                let title = rule.title();
                write!(f, "{section} {title}: {name}")
            }
            CheckFault::TooComplex => write!(f, "too complex"),
            CheckFault::TooDeep(_) => write!(f, "too many levels"),
            CheckFault::NotServed { name, .. } => write!(f, "not served: {name}"),
            CheckFault::NoMemory => write!(f, "out of memory"),
        }
    }
}

impl Error for CheckFault {}

/// Reason why a checked document gives no plan. It is displayed as the message that a client reads; none has a place.
#[derive(Debug, Drop)]
pub enum PrepareFault {
    /// No operation of the document has this name.
    NoSuchOperation(String),
    /// The request names no operation, and the document doesn't have exactly one.
    OperationNeeded,
    /// The `variables` of the request are neither an object nor null.
    VariablesNotObject,
    /// The variable of this name has a value that isn't of its type, or has none and may not be null. It is the first
    /// such one, in the order of the definitions.
    BadVariable(Text),
    /// Out of memory.
    NoMemory,
}

impl fmt::Display for PrepareFault {
    ghost use Rattle.std.specs.Prelude.{Some};
    ghost use Rattle.gq_check.specs.Texts.{prepare_message};

    ghost output = { λ fault. Some (prepare_message fault) };

    fn fmt<W: fmt::Write>(&self, f: &mut fmt::Formatter<W>) -> fmt::Result {
        match self {
            PrepareFault::NoSuchOperation(name) => write!(f, "no operation named {name}"),
            PrepareFault::OperationNeeded => write!(f, "operation name needed"),
            PrepareFault::VariablesNotObject => write!(f, "variables must be an object"),
            PrepareFault::BadVariable(name) => write!(f, "bad value for variable ${name}"),
            PrepareFault::NoMemory => write!(f, "out of memory"),
        }
    }
}

impl Error for PrepareFault {}

impl From<AllocError> for PrepareFault {
    ghost from_gives = { λ _ e. e ≡ prepare.NoMemory };

    fn from(_e: AllocError) -> PrepareFault {
        PrepareFault::NoMemory
    }
}

impl<T: Drop> From<AllocFailed<T>> for PrepareFault {
    ghost from_gives = { λ _ e. e ≡ prepare.NoMemory };

    fn from(_e: AllocFailed<T>) -> PrepareFault {
        PrepareFault::NoMemory
    }
}

impl From<AllocError> for CheckFault {
    ghost from_gives = { λ _ e. e ≡ check.NoMemory };

    fn from(_e: AllocError) -> CheckFault {
        CheckFault::NoMemory
    }
}

impl<T: Drop> From<AllocFailed<T>> for CheckFault {
    ghost from_gives = { λ _ e. e ≡ check.NoMemory };

    fn from(_e: AllocFailed<T>) -> CheckFault {
        CheckFault::NoMemory
    }
}
