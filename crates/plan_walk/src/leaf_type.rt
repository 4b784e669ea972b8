//! Types of leaves, by what they say of texts.

ghost use Rattle.std.specs.Prelude.{◌≡◌};
ghost use Rattle.gq_parser.specs.Tree.{type_of};
ghost use Rattle.plan_walk.specs.LeafTypes.{leaf_type, named_type};

use gq_parser::TypeRef;
use load_memory::Text;

/// Says which texts are right at a type (section 3.5). It is decided once, and not for each cell.
#[derive(Drop)]
pub enum LeafType {
    Int,
    Boolean,
    /// Each text, as at a String or an ID.
    Text,
    /// The values that the schema has of this name, if it is an enum.
    Named(Text),
    /// None, since the type is a list.
    List,
}

// The type of this name.
fn named_type(name: Text) -> LeafType
    ensures { result ≡ named_type name }
{
    match name.as_str() {
        "Int" => LeafType::Int,
        "Boolean" => LeafType::Boolean,
        "String" | "ID" => LeafType::Text,
        _ => LeafType::Named(name),
    }
}

impl LeafType {
    /// What a type says of texts.
    pub fn of(ty: TypeRef) -> LeafType
        ensures { result ≡ leaf_type (type_of ty) }
    {
        match ty {
            TypeRef::Named { name, .. } => named_type(name),
            TypeRef::List { .. } => LeafType::List,
        }
    }
}
