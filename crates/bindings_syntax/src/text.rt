//! The whole of a bindings text.

ghost use Rattle.std.specs.Prelude.{◌≡◌, IfOk};
ghost use Rattle.bindings_syntax.specs.Reading.{bindings_text, statements_of};
ghost use Rattle.bindings_syntax.specs.Seen.{text_seen};

use crate::form::{statement, version};
use crate::lines::Lines;
use crate::statement::{BindingsText, NumberedStatement, Version};
use std::alloc::{AllocError, Global};

/// The statements of a text, up to its first line that has no form.
///
/// Lines end with LF or CR LF, and a last one without an end is a line too. Words are separated by
/// runs of spaces, which may stand at a line's ends too; any other character is part of a word. Empty
/// lines and lines whose first character is `#` say nothing, but are counted. The first line that
/// counts has to be `bindings 1` or `bindings 2`; with `bindings 1` the forms of version 2 are none.
///
/// A line of spaces alone, or with a space before its `#`, has no form, and a carriage return at the end of a
/// text without a line feed is part of the last word. `T.F` is cut at its first dot.
///
/// # Errors
///
/// Only when out of memory.
pub fn read(alloc: Global, text: &str) -> Result<BindingsText<'_>, AllocError>
    ensures { IfOk result
        (λ read. text_seen read ≡ bindings_text text.now) }
{
    let mut lines = Lines::of(text);
    let Some(first) = lines.next() else {
        return Ok(BindingsText {
            is_headed: false,
            statements: Vec::new(alloc),
            bad_line: None,
        });
    };
    let Some(version) = version(first.text) else {
        return Ok(BindingsText {
            is_headed: false,
            statements: Vec::new(alloc),
            bad_line: Some(first.number),
        });
    };
    statements(alloc, version, lines)
}

/// The statements after the first line.
fn statements<'text>(
    alloc: Global,
    version: Version,
    mut lines: Lines<'text>,
) -> Result<BindingsText<'text>, AllocError>
    ensures { IfOk result (λ read. text_seen read
        ≡ statements_of version lines.entry) }
{
    let mut statements = Vec::new(alloc);
    while let Some(line) = lines.next() {
        let Some(statement) = statement(version, line.text) else {
            return Ok(BindingsText {
                is_headed: true,
                statements,
                bad_line: Some(line.number),
            });
        };
        statements.push(NumberedStatement {
            line: line.number,
            statement,
        })?;
    }
    Ok(BindingsText {
        is_headed: true,
        statements,
        bad_line: None,
    })
}
