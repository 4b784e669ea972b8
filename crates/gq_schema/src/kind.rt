//! Kinds of types.

ghost use Rattle.std.specs.Prelude.{◌≡◌};

/// Kind of a type of a schema (section 3.4).
#[derive(Clone, Copy, Debug, PartialEq, Eq)]
pub enum TypeKind {
    /// One of the built-in scalars `Int`, `String`, `Boolean` and `ID` (section 3.5).
    Scalar,
    Object,
    Interface,
    Union,
    Enum,
}

impl TypeKind {
    ghost use Rattle.gq_schema.specs.Kinds.{is_leaf};

    /// Tells whether it is a scalar or an enum, which has no fields.
    pub fn is_leaf(self) -> bool
        ensures { result ≡ is_leaf self }
    {
        matches!(self, TypeKind::Scalar | TypeKind::Enum)
    }
}
