//! What is wrong with a line of bindings.
ghost use Rattle.std.specs.Prelude.{◌≡◌, Some, find, is_some, map, option_map, codes};
ghost use Rattle.bindings_syntax.specs.Lines.{is_skipped};
ghost use Rattle.bindings_syntax.specs.Seen.{text_seen};
ghost use Rattle.schema_syntax.specs.Tree.{field_of};
ghost use Rattle.gq_schema.specs.Types.{field_in, tree_of};
ghost use Rattle.gq_schema.specs.Implements.{argument_in};
ghost use Rattle.fault_sentences.specs.Complaints.{IsTrueOfLine};
ghost use Rattle.fault_sentences.specs.Lines.{BeginsWith, IsNew, IsOfField, argument_names, is_defined, lacks, word_in};
ghost use Rattle.fault_sentences.specs.Seen.{line_seen};

use crate::bindings::BindingsComplaint;
use crate::cut::{type_and_field, word_at};
use crate::looked_up::{has_field, has_loader, is_form};
use bindings_syntax::BindingsText;
use gq_schema::{FieldDef, Schema, TypeKind};

/// A line of bindings over a schema, and its words.
#[derive(Clone, Copy)]
pub(crate) struct BadLine<'l, 't> {
    pub schema: &'l Schema,
    pub text: &'l BindingsText<'t>,
    pub number: u64,
    pub line: &'t str,
    pub words: &'l [&'t str],
}

// Tells whether a line with this first word says nothing, or would without the spaces before it.
fn is_blank(first: &str) -> bool
    ensures { result ≡ is_skipped first.now }
{
    first.is_empty() || first.starts_with('#')
}

fn has_argument(field: &FieldDef, name: &str) -> bool
    ensures { result ≡ is_some
        (argument_in (field_of field.now).arguments name.now) }
{
    for argument in &field.arguments {
        if argument.name.text.as_str() == name {
            return true;
        }
    }
    false
}

// The first word behind an `arg` that is no argument of the field.
fn missing_argument<'l>(field: &FieldDef, words: &[&'l str]) -> Option<&'l str>
    ensures { option_map (λ w. w.now) result ≡ find
        (lacks (field_of field.now)) (argument_names (map (λ w. w.now) words.now)) }
{
    let mut is_name = false;
    for word in words {
        if is_name && !has_argument(field, word) {
            return Some(word);
        }
        is_name = *word == "arg";
    }
    None
}

impl<'t> BadLine<'_, 't> {
    fn word(&self, index: usize) -> &'t str
        ensures { result.now ≡ word_in (line_seen self.now) index }
    {
        word_at(self.words, index)
    }

    fn defines_before(&self, loader: &str) -> bool
        ensures { result ≡ is_defined (text_seen self.now.text.now) self.now.number loader.now }
    {
        has_loader(&self.text.statements, self.number, loader)
    }

    // A line that begins with `loader`.
    fn loader_complaint(&self) -> BindingsComplaint<'t>
        requires { BeginsWith (codes "loader") (line_seen self.now) }
        ensures { IsTrueOfLine (line_seen self.now) result }
    {
        let loader = self.word(1);
        if self.defines_before(loader) {
            BindingsComplaint::LoaderTwice(loader)
        } else {
            BindingsComplaint::BadLoader
        }
    }

    // A line whose form or key doesn't fit a field of a type.
    fn form_complaint(
        &self,
        of_type: &'t str,
        name: &'t str,
        field: &FieldDef,
    ) -> BindingsComplaint<'t>
        requires new { IsNew (line_seen self.now) of_type.now name.now }
        requires there { field_in (tree_of self.now.schema.now) of_type.now name.now
            ≡ Some (field_of field.now) }
        ensures { IsTrueOfLine (line_seen self.now) result }
    {
        let (form, loader) = (self.word(2), self.word(3));
        if !is_form(form) {
            return BindingsComplaint::OtherForm(form);
        }
        let is_column = form == "column";
        if !is_column && !self.defines_before(loader) {
            return BindingsComplaint::UnknownLoader(loader);
        }
        if let Some(argument) = missing_argument(field, self.words) {
            return BindingsComplaint::UnknownArgument(of_type, name, argument);
        }
        if of_type == self.schema.root() && (is_column || self.word(4) == "column") {
            return BindingsComplaint::RootColumn(of_type, name);
        }
        BindingsComplaint::Unfit(form, of_type, name)
    }

    // A line of a field of a type.
    fn member_complaint(&self, of_type: &'t str, name: &'t str) -> BindingsComplaint<'t>
        requires { IsOfField (line_seen self.now) of_type.now name.now }
        ensures { IsTrueOfLine (line_seen self.now) result }
    {
        let Some(kind) = self.schema.kind_of(of_type) else {
            return BindingsComplaint::UnknownType(of_type);
        };
        let Some(field) = self.schema.field(of_type, name) else {
            return BindingsComplaint::UnknownField(of_type, name);
        };
        if !matches!(kind, TypeKind::Object) {
            return BindingsComplaint::NoObject(of_type);
        }
        if has_field(&self.text.statements, self.number, of_type, name) {
            return BindingsComplaint::FieldTwice(of_type, name);
        }
        self.form_complaint(of_type, name, field)
    }

    // A line that begins with `field`.
    fn field_complaint(&self) -> BindingsComplaint<'t>
        requires { BeginsWith (codes "field") (line_seen self.now) }
        ensures { IsTrueOfLine (line_seen self.now) result }
    {
        let word = self.word(1);
        match type_and_field(word) {
            None => BindingsComplaint::NoField(word),
            Some((of_type, name)) => self.member_complaint(of_type, name),
        }
    }

    /// What is wrong with the line.
    pub(crate) fn complaint(&self) -> BindingsComplaint<'t>
        ensures { IsTrueOfLine (line_seen self.now) result }
    {
        let first = self.word(0);
        if is_blank(first) {
            return BindingsComplaint::BlankLine;
        }
        if !self.text.is_headed {
            return BindingsComplaint::OtherVersion(self.line);
        }
        match first {
            "loader" => self.loader_complaint(),
            "field" => self.field_complaint(),
            _ => BindingsComplaint::OtherWord(first),
        }
    }
}
