//! Complaints on bindings.
ghost use Rattle.std.specs.Prelude.{◌≡◌, IfOk, string_bytes};
ghost use Rattle.std.specs.List.{concat};
ghost use Rattle.fault_sentences.specs.Bindings.{bindings_words, on_field, on_name, unfit, unknown_argument, unknown_field};

use crate::written::joined;
use std::alloc::{AllocError, Global};

/// What is wrong with bindings. The names are words of the line, or of the schema.
#[derive(Clone, Copy, Debug, PartialEq, Eq)]
pub enum BindingsComplaint<'t> {
    NoVersion,
    /// The first line that counts is another.
    OtherVersion(&'t str),
    BlankLine,
    /// A line begins with another word.
    OtherWord(&'t str),
    LoaderTwice(&'t str),
    BadLoader,
    NoField(&'t str),
    UnknownType(&'t str),
    UnknownField(&'t str, &'t str),
    NoObject(&'t str),
    FieldTwice(&'t str, &'t str),
    OtherForm(&'t str),
    UnknownLoader(&'t str),
    /// A type, its field, and the argument that this hasn't.
    UnknownArgument(&'t str, &'t str, &'t str),
    /// A field of the root is bound to a column.
    RootColumn(&'t str, &'t str),
    /// A form that doesn't fit a type's field.
    Unfit(&'t str, &'t str, &'t str),
    /// A type, and its field that needs a line and has none.
    Unbound(&'t str, &'t str),
    /// No line is bad, and none is missing.
    Refused,
}

fn on_name(alloc: Global, before: &str, name: &str, behind: &str) -> Result<String, AllocError>
    ensures { IfOk result (λ text. string_bytes text
        ≡ concat (on_name before.now name.now behind.now)) }
{
    joined(alloc, &[before, name, behind])
}

fn on_field(
    alloc: Global,
    before: &str,
    of_type: &str,
    field: &str,
    behind: &str,
) -> Result<String, AllocError>
    ensures { IfOk result (λ text. string_bytes text
        ≡ concat (on_field before.now of_type.now field.now behind.now)) }
{
    joined(alloc, &[before, of_type, ".", field, behind])
}

fn unfit(alloc: Global, form: &str, of_type: &str, field: &str) -> Result<String, AllocError>
    ensures { IfOk result (λ text. string_bytes text
        ≡ concat (unfit form.now of_type.now field.now)) }
{
    let before = "the form \"";
    let middle = "\" with this key doesn't fit the type of \"";
    joined(
        alloc,
        &[
            before,
            form,
            middle,
            of_type,
            ".",
            field,
            "\" and the loader",
        ],
    )
}

fn unknown_field(alloc: Global, of_type: &str, field: &str) -> Result<String, AllocError>
    ensures { IfOk result (λ text. string_bytes text
        ≡ concat (unknown_field of_type.now field.now)) }
{
    joined(
        alloc,
        &["the type \"", of_type, "\" has no field \"", field, "\""],
    )
}

fn unknown_argument(
    alloc: Global,
    of_type: &str,
    field: &str,
    argument: &str,
) -> Result<String, AllocError>
    ensures { IfOk result (λ text. string_bytes text
        ≡ concat (unknown_argument of_type.now field.now argument.now)) }
{
    let middle = "\" has no argument \"";
    joined(alloc, &["\"", of_type, ".", field, middle, argument, "\""])
}

const NO_VERSION: &str = "there is no line \"bindings 1\" or \"bindings 2\"";

const OTHER_VERSION: &str = "the first line is \"bindings 1\" or \"bindings 2\", and not \"";

const BLANK_LINE: &str = "a line of spaces alone, or with a space before its #, is none";

const OTHER_WORD: &str = "a line begins with \"loader\" or \"field\", and not \"";

const ANOTHER_LOADER: &str = "there is another loader \"";

const BAD_LOADER: &str = "a loader is \"loader NAME TABLE\", or \"loader NAME TABLE by COLUMN\"";

const NO_FIELD: &str = "\" is no field, as \"Query.user\" is one";

const NO_TYPE: &str = "the schema has no type \"";

const NO_OBJECT: &str = "\" is no object type, and its fields have no lines";

const ANOTHER_LINE: &str = "there is another line for \"";

const OTHER_FORM: &str = "\" is none of the forms column, one, many, each, via";

const NO_LOADER: &str = "there is no loader \"";

const BEFORE: &str = "\" before";

const OF_ROOT: &str = "\" is a field of the root, which has no columns";

const NO_LINE: &str = "there is no line for the field \"";

const REFUSED: &str = "the bindings are refused";

impl BindingsComplaint<'_> {
    /// What is wrong, in a sentence.
    pub fn sentence(&self, alloc: Global) -> Result<String, AllocError>
        ensures { IfOk result (λ text. string_bytes text ≡ concat (bindings_words self.now)) }
    {
        use BindingsComplaint as It;
        match *self {
            It::NoVersion => joined(alloc, &[NO_VERSION]),
            It::OtherVersion(line) => on_name(alloc, OTHER_VERSION, line, "\""),
            It::BlankLine => joined(alloc, &[BLANK_LINE]),
            It::OtherWord(word) => on_name(alloc, OTHER_WORD, word, "\""),
            It::LoaderTwice(loader) => on_name(alloc, ANOTHER_LOADER, loader, BEFORE),
            It::BadLoader => joined(alloc, &[BAD_LOADER]),
            It::NoField(word) => on_name(alloc, "\"", word, NO_FIELD),
            It::UnknownType(ty) => on_name(alloc, NO_TYPE, ty, "\""),
            It::UnknownField(ty, field) => unknown_field(alloc, ty, field),
            It::NoObject(ty) => on_name(alloc, "\"", ty, NO_OBJECT),
            It::FieldTwice(ty, field) => on_field(alloc, ANOTHER_LINE, ty, field, BEFORE),
            It::OtherForm(word) => on_name(alloc, "\"", word, OTHER_FORM),
            It::UnknownLoader(loader) => on_name(alloc, NO_LOADER, loader, BEFORE),
            It::UnknownArgument(ty, field, name) => unknown_argument(alloc, ty, field, name),
            It::RootColumn(ty, field) => on_field(alloc, "\"", ty, field, OF_ROOT),
            It::Unfit(form, ty, field) => unfit(alloc, form, ty, field),
            It::Unbound(ty, field) => on_field(alloc, NO_LINE, ty, field, "\""),
            It::Refused => joined(alloc, &[REFUSED]),
        }
    }
}
