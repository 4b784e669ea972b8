//! Positions of an answer, and what is put at them.

ghost use Rattle.std.specs.Prelude.{◌≡◌, None, IfOk};
ghost use Rattle.plan_walk.specs.Positions.{is_non_null, member_position};

use crate::leaf_type::LeafType;
use gq_lexer::Place;
use gq_schema::Schema;
use load_memory::{Row, Text};
use std::alloc::AllocError;

/// Says what a position with others below it is.
#[derive(Clone, Copy, PartialEq, Eq, Debug, Drop)]
pub enum PositionKind {
    List,
    Object,
}

/// Tells whether a position may be null (section 3.12, Non-Null).
#[derive(Clone, Copy, PartialEq, Eq, Debug, Drop)]
pub enum Nullability {
    Nullable,
    NonNull,
}

/// A field of an object: its response key, whether it may be null, and where its errors are.
#[derive(Drop)]
pub struct MemberPosition {
    pub key: Text,
    pub nullability: Nullability,
    pub place: Place,
}

impl MemberPosition {
    /// A copy, with a key of its own.
    pub fn copy(&self) -> Result<MemberPosition, AllocError>
        ensures { IfOk result (λ copy. member_position copy ≡ member_position self.now) }
    {
        Ok(MemberPosition {
            key: self.key.clone()?,
            nullability: self.nullability,
            place: self.place,
        })
    }
}

/// The items of a list: whether they may be null, and where their errors are.
#[derive(Clone, Copy, Drop)]
pub struct Items {
    pub nullability: Nullability,
    pub place: Place,
}

/// A position that is bound to a column, over a row.
#[derive(Clone, Copy, Drop)]
pub struct Leaf<'r> {
    pub schema: &'r Schema,
    pub column: &'r str,
    pub ty: &'r LeafType,
    pub row: &'r Row,
}

/// Says how a position goes on after its load.
#[derive(Clone, Copy, PartialEq, Eq, Hash, Debug, Drop)]
pub struct Onward {
    /// The number of its group.
    pub group: usize,
    /// Of a later load of a `via`, of whose rows the first is taken, how many loaders come after it.
    pub later: Option<usize>,
    /// Says how many levels of objects there may be below it.
    pub levels: u32,
}

impl Onward {
    /// Onward at the group of this number, with at most `levels` levels of objects below.
    pub fn at(group: usize, levels: u32) -> Onward
        ensures { result ≡ record { group = group; later = None; levels = levels } }
    {
        Onward {
            group,
            later: None,
            levels,
        }
    }
}

impl Nullability {
    /// Tells whether a null is an error there.
    pub fn is_non_null(self) -> bool
        ensures { result ≡ is_non_null self }
    {
        match self {
            Nullability::Nullable => false,
            Nullability::NonNull => true,
        }
    }
}
