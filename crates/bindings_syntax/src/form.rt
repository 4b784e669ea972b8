//! The forms of statements.

ghost use Rattle.std.specs.Prelude.{◌≡◌, ◌≢◌, List, [], ◌∷◌, Some, None, option_map, MatchOption};
ghost use Rattle.bindings_syntax.specs.Words.{words_of};
ghost use Rattle.bindings_syntax.specs.Statements.{version_of, version_number, columns_of, by_of, loader_of, part_of, joined_of, joined_with, lone_part, key_of, each_of, loaded_of, form_of, field_of, statement_of, lone_key, more_steps, steps_of, via_of};
ghost use Rattle.bindings_syntax.specs.declared.statement.Version.TheVariants.{Two};
ghost use Rattle.bindings_syntax.specs.Seen.{by_seen, part_seen, key_seen, step_seen, steps_seen, form_seen, statement_seen};

use crate::cut::cut;
use crate::line_words::LineWords;
use crate::statement::{By, Form, KeyPart, KeyWords, Statement, Version, ViaLoaders, ViaWords};

/// The version that a line is: `bindings 1` or `bindings 2`.
pub(crate) fn version(line: &str) -> Option<Version>
    ensures { result ≡ version_of (words_of line.now) }
{
    let mut words = LineWords::of(line);
    let word = words.next()?;
    let number = words.next()?;
    end(words)?;
    if word == "bindings" {
        version_from(number)
    } else {
        None
    }
}

/// The version of a number.
fn version_from(number: &str) -> Option<Version>
    ensures { result ≡ version_number number.now }
{
    if number == "1" {
        Some(Version::One)
    } else if number == "2" {
        Some(Version::Two)
    } else {
        None
    }
}

/// The statement that a line is in a text of this version.
pub(crate) fn statement(version: Version, line: &str) -> Option<Statement<'_>>
    ensures { option_map statement_seen result
        ≡ statement_of version (words_of line.now) }
{
    let mut words = LineWords::of(line);
    let word = words.next()?;
    if word == "loader" {
        loader(version, words)
    } else if word == "field" {
        field(version, words)
    } else {
        None
    }
}

/// `NAME TABLE`, and by which columns.
fn loader<'text>(version: Version, mut words: LineWords<'text>) -> Option<Statement<'text>>
    ensures { option_map statement_seen result
        ≡ loader_of version words.entry }
{
    let name = words.next()?;
    let table = words.next()?;
    let by = by(version, words)?;
    Some(Statement::Loader { name, table, by })
}

/// Nothing, or `by` and columns.
fn by<'text>(version: Version, mut words: LineWords<'text>) -> Option<Option<By<'text>>>
    ensures { option_map (option_map by_seen) result
        ≡ by_of version words.entry }
{
    let Some(word) = words.next() else {
        return Some(None);
    };
    if word != "by" {
        return None;
    }
    let by = columns(version, words)?;
    Some(Some(by))
}

/// `COLUMN` or `COLUMN fold`; in version 2 also `COLUMN COLUMN2` or `COLUMN COLUMN2 fold`.
fn columns<'text>(version: Version, mut words: LineWords<'text>) -> Option<By<'text>>
    ensures { option_map by_seen result
        ≡ columns_of version words.entry }
{
    let column = words.next()?;
    let Some(second) = words.next() else {
        return Some(By {
            column,
            second: None,
            fold: false,
        });
    };
    match words.next() {
        None => one_or_two(version, column, second),
        Some(last) => {
            end(words)?;
            two_folded(version, column, second, last)
        }
    }
}

/// `COLUMN fold`, or in version 2 `COLUMN COLUMN2`.
fn one_or_two<'text>(version: Version, column: &'text str, last: &'text str) -> Option<By<'text>>
    ensures { option_map by_seen result
        ≡ columns_of version (column.now ∷ last.now ∷ []) }
{
    if last == "fold" {
        return Some(By {
            column,
            second: None,
            fold: true,
        });
    }
    match version {
        Version::One => None,
        Version::Two => Some(By {
            column,
            second: Some(last),
            fold: false,
        }),
    }
}

/// `COLUMN COLUMN2 fold`, which version 2 has.
fn two_folded<'text>(
    version: Version,
    column: &'text str,
    second: &'text str,
    last: &str,
) -> Option<By<'text>>
    ensures { option_map by_seen result
        ≡ columns_of version (column.now ∷ second.now ∷ last.now ∷ []) }
{
    if last != "fold" {
        return None;
    }
    match version {
        Version::One => None,
        Version::Two => Some(By {
            column,
            second: Some(second),
            fold: true,
        }),
    }
}

/// `T.F` and a form.
fn field<'text>(version: Version, mut words: LineWords<'text>) -> Option<Statement<'text>>
    ensures { option_map statement_seen result
        ≡ field_of version words.entry }
{
    let (type_name, field_name) = cut(words.next()?, '.')?;
    let form = form(version, words)?;
    Some(Statement::Field {
        type_name,
        field_name,
        form,
    })
}

/// `column COLUMN`, or a form with a loader.
fn form<'text>(version: Version, mut words: LineWords<'text>) -> Option<Form<'text>>
    ensures { option_map form_seen result
        ≡ form_of version words.entry }
{
    let kind = words.next()?;
    let first = words.next()?;
    if kind == "column" {
        end(words)?;
        Some(Form::Column(first))
    } else {
        form_behind(version, kind, first, words)
    }
}

/// Returns what stands behind a loader.
fn form_behind<'text>(
    version: Version,
    kind: &str,
    loader: &'text str,
    words: LineWords<'text>,
) -> Option<Form<'text>>
    ensures { option_map form_seen result ≡ loaded_of
        version kind.now loader.now words.entry }
{
    if kind == "one" {
        let key = only_key(version, words)?;
        Some(Form::One { loader, key })
    } else if kind == "many" {
        let key = only_key(version, words)?;
        Some(Form::Many { loader, key })
    } else if kind == "each" {
        each(loader, words)
    } else if kind == "via" {
        via(version, loader, words)
    } else {
        None
    }
}

/// No further word.
fn end<'text>(mut words: LineWords<'text>) -> Option<()>
    ensures { MatchOption result (words.entry ≢ [])
        (λ _. words.entry ≡ []) }
{
    match words.next() {
        Some(_) => None,
        None => Some(()),
    }
}

/// `arg NAME` or `column NAME`.
fn part<'text>(words: &mut LineWords<'text>) -> Option<KeyPart<'text>>
    ensures { MatchOption result (part_of words.old ≡ None) (λ part.
        part_of words.old ≡ Some (part_seen part, words.new)) }
{
    let word = words.next()?;
    let name = words.next()?;
    if word == "arg" {
        Some(KeyPart::Argument(name))
    } else if word == "column" {
        Some(KeyPart::Column(name))
    } else {
        None
    }
}

/// A part as a key of its own.
fn single_key(part: KeyPart<'_>) -> KeyWords<'_>
    ensures { key_seen result
        ≡ lone_part (part_seen part.entry) }
{
    match part {
        KeyPart::Argument(name) => KeyWords::Argument(name),
        KeyPart::Column(name) => KeyWords::Column(name),
    }
}

/// A part, or two where the word `and` stands behind it.
fn key_of_words<'text>(one: KeyPart<'text>, words: &mut LineWords<'text>) -> Option<KeyWords<'text>>
    ensures { let read = joined_of Two (part_seen one.entry) words.old in
        MatchOption result (read ≡ None) (λ key. read ≡ Some (key_seen key, words.new)) }
{
    if !words.take("and") {
        return Some(single_key(one));
    }
    let two = part(words)?;
    Some(KeyWords::Pair(one, two))
}

/// `all`, `arg NAME` or `column NAME`, and in version 2 two of the last joined by `and`.
fn key_source<'text>(version: Version, words: &mut LineWords<'text>) -> Option<KeyWords<'text>>
    ensures { MatchOption result (key_of version words.old ≡ None) (λ key.
        key_of version words.old ≡ Some (key_seen key, words.new)) }
{
    if words.take("all") {
        return Some(KeyWords::All);
    }
    let one = part(words)?;
    match version {
        Version::One => Some(single_key(one)),
        Version::Two => key_of_words(one, words),
    }
}

/// A key and nothing behind it.
fn only_key<'text>(version: Version, mut words: LineWords<'text>) -> Option<KeyWords<'text>>
    ensures { MatchOption result (lone_key version words.entry ≡ None)
        (λ key. lone_key version words.entry ≡ Some (key_seen key)) }
{
    let key = key_source(version, &mut words)?;
    end(words)?;
    Some(key)
}

/// `arg NAME`.
fn each<'text>(loader: &'text str, mut words: LineWords<'text>) -> Option<Form<'text>>
    ensures { option_map form_seen result
        ≡ each_of loader.now words.entry }
{
    let word = words.next()?;
    let argument = words.next()?;
    end(words)?;
    if word == "arg" {
        Some(Form::Each { loader, argument })
    } else {
        None
    }
}

/// Up to two loaders more with their columns.
fn more_steps<'text>(
    first: ViaWords<'text>,
    mut words: LineWords<'text>,
) -> Option<ViaLoaders<'text>>
    ensures { option_map steps_seen result
        ≡ option_map (λ further. step_seen first.entry ∷ further) (more_steps words.entry) }
{
    let Some(loader) = words.next() else {
        return Some(ViaLoaders::One(first));
    };
    let column = words.next()?;
    let second = ViaWords { loader, column };
    let Some(loader) = words.next() else {
        return Some(ViaLoaders::Two(first, second));
    };
    let column = words.next()?;
    end(words)?;
    Some(ViaLoaders::Three(first, second, ViaWords { loader, column }))
}

/// A loader and its column, and in version 2 up to two more of these.
fn steps<'text>(version: Version, mut words: LineWords<'text>) -> Option<ViaLoaders<'text>>
    ensures { option_map steps_seen result
        ≡ steps_of version words.entry }
{
    let loader = words.next()?;
    let column = words.next()?;
    let first = ViaWords { loader, column };
    match version {
        Version::One => {
            end(words)?;
            Some(ViaLoaders::One(first))
        }
        Version::Two => more_steps(first, words),
    }
}

/// A key, and the loaders after the first with their columns.
fn via<'text>(
    version: Version,
    loader: &'text str,
    mut words: LineWords<'text>,
) -> Option<Form<'text>>
    ensures { option_map form_seen result
        ≡ via_of version loader.now words.entry }
{
    let key = key_source(version, &mut words)?;
    let steps = steps(version, words)?;
    Some(Form::Via { loader, key, steps })
}
