//! What the lines before another define.
ghost use Rattle.std.specs.Prelude.{◌≡◌, map};
ghost use Rattle.std.specs.List.{list_any};
ghost use Rattle.bindings_syntax.specs.Seen.{numbered_seen, statement_seen};
ghost use Rattle.fault_sentences.specs.Lines.{binds, binds_before, defines, defines_before, is_form};

use bindings_syntax::{NumberedStatement, Statement};

fn defines(statement: &Statement<'_>, loader: &str) -> bool
    ensures { result ≡ defines loader.now
        (statement_seen statement.now) }
{
    match statement {
        Statement::Loader { name, .. } => *name == loader,
        Statement::Field { .. } => false,
    }
}

fn binds(statement: &Statement<'_>, of_type: &str, field: &str) -> bool
    ensures { result ≡ binds of_type.now field.now
        (statement_seen statement.now) }
{
    match statement {
        Statement::Field {
            type_name,
            field_name,
            ..
        } => *type_name == of_type && *field_name == field,
        Statement::Loader { .. } => false,
    }
}

/// Tells whether a line before this one defines a loader.
pub(crate) fn has_loader(statements: &[NumberedStatement<'_>], line: u64, loader: &str) -> bool
    ensures { result ≡ list_any (defines_before line loader.now)
        (map numbered_seen statements.now) }
{
    for numbered in statements {
        if numbered.line < line && defines(&numbered.statement, loader) {
            return true;
        }
    }
    false
}

/// Tells whether a line before this one is of a field.
pub(crate) fn has_field(
    statements: &[NumberedStatement<'_>],
    line: u64,
    of_type: &str,
    field: &str,
) -> bool
    ensures { result ≡ list_any (binds_before line of_type.now field.now)
        (map numbered_seen statements.now) }
{
    for numbered in statements {
        if numbered.line < line && binds(&numbered.statement, of_type, field) {
            return true;
        }
    }
    false
}

/// Tells whether a word is a form of bindings.
pub(crate) fn is_form(word: &str) -> bool
    ensures { result ≡ is_form word.now }
{
    matches!(word, "column" | "one" | "many" | "each" | "via")
}
