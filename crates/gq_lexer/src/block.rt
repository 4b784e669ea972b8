//! The value of a block string.

ghost use Rattle.std.specs.Prelude.{◌≡◌, ◌≤◌, length, map, drop, reverse, min, IfOk};
ghost use Rattle.std.specs.List.{prefix_len, join_with_byte};
ghost use Rattle.std.specs.String.{string_bytes};
ghost use Rattle.gq_lexer.specs.Place.{ends_no_line};
ghost use Rattle.gq_lexer.specs.Block.{raw_of, is_blank, is_blank_line, lines_of, indent_of, common_indent, unindented, trimmed, block_value};
ghost use Rattle.gq_lexer.specs.Lines.{line_end_len};

use crate::unescape::plain_len;
use std::alloc::{AllocError, Global};

/// The value of a block string between whose quotes this stands.
pub fn block_value(alloc: Global, body: &str) -> Result<String, AllocError>
    ensures { IfOk result (λ value. string_bytes value
        ≡ block_value (raw_of body.now)) }
{
    let raw = raw_of(alloc, body)?;
    let mut kept = lines_of(alloc, raw.as_str())?;
    let lines = kept.as_mut_slice();
    unindent(lines);
    join_lines(alloc, trim_blank_lines(lines))
}

/// Returns what stands between the quotes, where a backslash before three quotes is left out.
fn raw_of(alloc: Global, body: &str) -> Result<String, AllocError>
    ensures { IfOk result
        (λ raw. string_bytes raw ≡ raw_of body.now) }
{
    let mut raw = String::new(alloc);
    let mut rest = body;
    loop {
        let (plain, after) = rest.split_at(plain_len(rest.as_bytes()));
        raw.push_str(plain)?;
        let [_, behind @ ..] = after.as_bytes() else {
            return Ok(raw);
        };
        if !behind.starts_with(b"\"\"\"") {
            raw.push('\\')?;
        }
        rest = after.split_at(1).1;
    }
}

/// Returns how many bytes the first line has, without what ends it.
fn line_len(bytes: &[u8]) -> usize
    ensures value { result ≡ prefix_len
        ends_no_line bytes.now }
    ensures within { result ≤ length bytes.now }
{
    bytes
        .iter()
        .take_while(|byte| **byte != b'\n' && **byte != b'\r')
        .count()
}

/// Returns how many bytes end a line here: none at the end of the text.
fn line_end_len(bytes: &[u8]) -> usize
    ensures value { result ≡ line_end_len bytes.now }
    ensures within { result ≤ length bytes.now }
{
    match bytes {
        [] => 0,
        [b'\r', rest @ ..] if rest.starts_with(b"\n") => 2,
        [_, ..] => 1,
    }
}

/// The lines of a text, without what ends them.
fn lines_of<'a>(alloc: Global, text: &'a str) -> Result<Vec<&'a str>, AllocError>
    ensures { IfOk result (λ lines. map (λ line. line.now) lines.items ≡ lines_of text.now) }
{
    let mut lines = Vec::new(alloc);
    let mut rest = text;
    loop {
        let (line, after) = rest.split_at(line_len(rest.as_bytes()));
        lines.push(line)?;
        let end = line_end_len(after.as_bytes());
        if end == 0 {
            return Ok(lines);
        }
        rest = after.split_at(end).1;
    }
}

fn is_blank(byte: u8) -> bool
    ensures { result ≡ is_blank byte }
{
    byte == b'\t' || byte == b' '
}

/// Tells whether a line has only tabs and spaces.
fn is_blank_line(line: &str) -> bool
    ensures { result ≡ is_blank_line line.now }
{
    line.as_bytes().iter().all(|byte| is_blank(*byte))
}

/// Returns how many tabs and spaces a line begins with.
fn blank_len(line: &str) -> usize
    ensures value { result ≡ prefix_len is_blank line.now }
    ensures within { result ≤ length line.now }
{
    line.as_bytes()
        .iter()
        .take_while(|byte| is_blank(**byte))
        .count()
}

/// Returns how many tabs and spaces a line begins with that has anything else.
fn indent_of(line: &str) -> Option<usize>
    ensures { result ≡ indent_of line.now }
{
    if is_blank_line(line) {
        None
    } else {
        Some(blank_len(line))
    }
}

/// The least indent of the lines that have one.
fn common_indent(lines: &[&str]) -> Option<usize>
    ensures { result ≡ common_indent
        (map (λ line. line.now) lines.now) }
{
    lines.iter().filter_map(|line| indent_of(line)).min()
}

/// A line without this many of its tabs and spaces at the front, or without all of them.
fn strip_indent<'a>(line: &'a str, indent: usize) -> &'a str
    ensures { result.now ≡ drop (min indent (prefix_len is_blank line.now)) line.now }
{
    line.split_at(indent.min(blank_len(line))).1
}

/// Takes the common indent of all lines but the first away from them.
fn unindent(lines: &mut [&str])
    ensures { map (λ line. line.now) lines.new
        ≡ unindented (map (λ line. line.now) lines.old) }
{
    let [_, others @ ..] = lines else {
        return;
    };
    if let Some(indent) = common_indent(others) {
        for line in others.iter_mut() {
            *line = strip_indent(line, indent);
        }
    }
}

/// Returns how many lines at the front have only tabs and spaces.
fn blank_front(lines: &[&str]) -> usize
    ensures value { result ≡ prefix_len
        (λ line. is_blank_line line.now) lines.now }
    ensures within { result ≤ length lines.now }
{
    lines
        .iter()
        .take_while(|line| is_blank_line(**line))
        .count()
}

/// Returns how many lines at the end have only tabs and spaces.
fn blank_back(lines: &[&str]) -> usize
    ensures value { result ≡ prefix_len (λ line.
        is_blank_line line.now) (reverse lines.now) }
    ensures within { result ≤ length lines.now }
{
    lines
        .iter()
        .rev()
        .take_while(|line| is_blank_line(**line))
        .count()
}

/// The lines but those at the front and at the end that have only tabs and spaces.
fn trim_blank_lines<'a, 'b>(lines: &'b [&'a str]) -> &'b [&'a str]
    ensures { map (λ line. line.now) result.now
        ≡ trimmed (map (λ line. line.now) lines.now) }
{
    let rest = &lines[blank_front(lines)..];
    &rest[..rest.len() - blank_back(rest)]
}

/// The lines with a line feed between each two.
fn join_lines(alloc: Global, lines: &[&str]) -> Result<String, AllocError>
    ensures { IfOk result (λ text.
        string_bytes text ≡ join_with_byte 10 (map (λ line. line.now) lines.now)) }
{
    let [first, others @ ..] = lines else {
        return Ok(String::new(alloc));
    };
    let mut text = String::from_str(alloc, first)?;
    for line in others {
        text.push('\n')?;
        text.push_str(line)?;
    }
    Ok(text)
}
