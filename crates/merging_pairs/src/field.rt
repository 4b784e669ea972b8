//! The fields of a document as numbers, and what the rule asks of two of them.
ghost use Rattle.std.specs.Prelude.{◌≡◌};
ghost use Rattle.merging_pairs.specs.Numbered.{have_one_key, are_alike, may_meet, do_agree};

use crate::field_set::FieldSet;

/// A field of a document. Of each attribute equal numbers stand for what is equal.
#[derive(Drop)]
pub struct Field {
    /// The response key.
    pub key: usize,
    /// The field's name.
    pub name: usize,
    /// The arguments, as a set of names and values.
    pub arguments: usize,
    /// The parent type.
    pub parent: usize,
    /// Tells whether the parent type is an object type.
    pub object: bool,
    /// The return type: its lists and `!`, and its name where it is a leaf.
    pub shape: usize,
    /// The fields of its selection set, with those of the fragments that it enters.
    pub members: FieldSet,
}

impl Field {
    /// Tells whether the response keys are equal.
    pub(crate) fn has_one_key(&self, other: &Field) -> bool
        ensures { result ≡ have_one_key self.now other.now }
    {
        self.key == other.key
    }

    /// Tells whether the return types are alike.
    pub(crate) fn is_alike(&self, other: &Field) -> bool
        ensures { result ≡ are_alike self.now other.now }
    {
        self.shape == other.shape
    }

    /// Tells whether both parent types are equal, or either isn't an object type.
    pub(crate) fn may_meet(&self, other: &Field) -> bool
        ensures { result ≡ may_meet self.now other.now }
    {
        self.parent == other.parent || (!self.object || !other.object)
    }

    /// Tells whether names and arguments are equal.
    pub(crate) fn agrees(&self, other: &Field) -> bool
        ensures { result ≡ do_agree self.now other.now }
    {
        self.name == other.name && self.arguments == other.arguments
    }
}
