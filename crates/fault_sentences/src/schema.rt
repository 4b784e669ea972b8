//! Complaints on a schema.
ghost use Rattle.std.specs.Prelude.{◌≡◌, ◌≤◌, IfOk, length, string_bytes};
ghost use Rattle.std.specs.List.{concat};
ghost use Rattle.gq_lexer.specs.declared.lexer.TheConstants.{MAX_BYTES};
ghost use Rattle.fault_sentences.specs.Schemas.{IsSaidOf, IsSaidOfNothing, IsTrueOfSchema, lacks_member, schema_words};
ghost use Rattle.fault_sentences.specs.Seen.{found_seen};

use crate::token::{character_at, last_defined, text_at, token_at};
use crate::written::{joined, on_token};
use gq_lexer::{MAX_BYTES, Place, lex_front};
use std::alloc::{AllocError, Global};

/// What is wrong with a schema. The names are tokens of it, as they are written.
#[derive(Clone, Copy, Debug, PartialEq, Eq)]
pub enum SchemaComplaint<'t> {
    CantStand(&'t str),
    EndsEarly,
    DefinedTwice(&'t str),
    UnknownType(&'t str),
    /// A type, and the interface of which it lacks a field or an argument.
    LacksMember(&'t str, &'t str),
    NoRoot,
    ReservedName(&'t str),
    NotServed(&'t str),
    /// A token that isn't served, and the one behind it.
    PairNotServed(&'t str, &'t str),
    DirectiveNotServed(&'t str),
    ListOfLists,
    WrongKind(&'t str),
    BadDefault(&'t str),
    /// The fault has no complaint on what stands at its place.
    Refused,
}

impl SchemaComplaint<'_> {
    /// What is wrong, in a sentence.
    pub fn sentence(&self, alloc: Global) -> Result<String, AllocError>
        ensures { IfOk result (λ text. string_bytes text ≡ concat (schema_words self.now)) }
    {
        match *self {
            SchemaComplaint::CantStand(token) => on_token(alloc, "", token, " can't stand here"),
            SchemaComplaint::EndsEarly => joined(alloc, &["the text ends too early"]),
            SchemaComplaint::DefinedTwice(token) => on_token(alloc, "", token, " is defined twice"),
            SchemaComplaint::UnknownType(token) => on_token(alloc, "there is no type ", token, ""),
            SchemaComplaint::LacksMember(ty, interface) => lacks_member(alloc, ty, interface),
            SchemaComplaint::NoRoot => joined(alloc, &[NO_ROOT]),
            SchemaComplaint::ReservedName(token) => {
                on_token(alloc, "the name ", token, " begins with two underscores")
            }
            SchemaComplaint::NotServed(token) => on_token(alloc, "", token, " isn't served"),
            SchemaComplaint::PairNotServed(token, next) => {
                joined(alloc, &["\"", token, " ", next, "\" isn't served"])
            }
            SchemaComplaint::DirectiveNotServed(name) => {
                joined(alloc, &["the directive \"@", name, "\" isn't served"])
            }
            SchemaComplaint::ListOfLists => joined(alloc, &["a list of lists isn't served"]),
            SchemaComplaint::WrongKind(token) => on_token(alloc, "", token, WRONG_KIND),
            SchemaComplaint::BadDefault(token) => on_token(
                alloc,
                "the default ",
                token,
                BAD_DEFAULT,
            ),
            SchemaComplaint::Refused => joined(alloc, &["the schema is refused"]),
        }
    }
}

const NO_ROOT: &str = "there is neither a type \"Query\" nor a \"schema\" that names the root type";

const WRONG_KIND: &str = " is a type of another kind than is needed here";

const BAD_DEFAULT: &str = " isn't of the type of its argument";

// The sentence on a type that lacks a member of an interface.
fn lacks_member(alloc: Global, of_type: &str, interface: &str) -> Result<String, AllocError>
    ensures { IfOk result (λ text. string_bytes text
        ≡ concat (lacks_member of_type.now interface.now)) }
{
    joined(
        alloc,
        &[
            "the type \"",
            of_type,
            "\" lacks a field or an argument of \"",
            interface,
            "\", or has it with another type",
        ],
    )
}

// What stands at a place: a token or a character, the token behind it, and the type with fields that is defined last before it.
#[derive(Clone, Copy)]
struct Found<'t> {
    word: &'t str,
    next: &'t str,
    of_type: &'t str,
}

// The complaint on a word that isn't served.
fn not_served<'t>(found: &Found<'t>) -> SchemaComplaint<'t>
    ensures { IsSaidOf 7 (found_seen found.now) result }
{
    match found.word {
        "@" => SchemaComplaint::DirectiveNotServed(found.next),
        "[" => SchemaComplaint::ListOfLists,
        "scalar" | "input" | "extend" => SchemaComplaint::PairNotServed(found.word, found.next),
        _ => SchemaComplaint::NotServed(found.word),
    }
}

// The complaint of the fault of this number where this stands.
fn complaint_on<'t>(number: u32, found: &Found<'t>) -> SchemaComplaint<'t>
    ensures { IsSaidOf number (found_seen found.now) result }
{
    match number {
        1 => SchemaComplaint::CantStand(found.word),
        2 => SchemaComplaint::DefinedTwice(found.word),
        3 => SchemaComplaint::UnknownType(found.word),
        4 => SchemaComplaint::LacksMember(found.of_type, found.word),
        6 => SchemaComplaint::ReservedName(found.word),
        7 => not_served(found),
        10 => SchemaComplaint::WrongKind(found.word),
        11 => SchemaComplaint::BadDefault(found.word),
        _ => SchemaComplaint::Refused,
    }
}

// The complaint of the fault of this number where nothing stands.
fn complaint_without(number: u32) -> SchemaComplaint<'static>
    ensures { IsSaidOfNothing number result }
{
    match number {
        1 => SchemaComplaint::EndsEarly,
        5 => SchemaComplaint::NoRoot,
        _ => SchemaComplaint::Refused,
    }
}

/// What is wrong with a schema whose fault is Sn for the number n, at this place.
pub(crate) fn schema_complaint<'t>(
    alloc: Global,
    number: u32,
    at: Place,
    schema: &'t str,
) -> Result<SchemaComplaint<'t>, AllocError>
    requires { length schema.now ≤ MAX_BYTES }
    ensures { IfOk result (IsTrueOfSchema number at schema.now) }
{
    let lexed = lex_front(alloc, schema)?;
    let tokens = lexed.tokens.as_slice();
    let found = match token_at(tokens, at) {
        Some((i, token)) => Found {
            word: token.text(schema),
            next: text_at(schema, tokens, i + 1),
            of_type: last_defined(schema, &tokens[..i]),
        },
        None => match character_at(schema, at) {
            Some(word) => Found {
                word,
                next: "",
                of_type: "",
            },
            None => return Ok(complaint_without(number)),
        },
    };
    Ok(complaint_on(number, &found))
}
