//! Prepared fields: what a group asks for, whatever the row is.

use gq_bindings::ViaLoader;
use gq_lexer::Place;
use gq_parser::{SelectionSet, TypeRef};
use load_memory::{Key, Text};
use short_list::ShortList;
use std::sync::Arc;

/// The own value of a position with nothing below it.
#[derive(Debug, Drop)]
pub enum LeafValue {
    /// A text, an ID, or the name of an enum's value.
    Text(String),
    Int(i32),
    Bool(bool),
    Null,
    /// Reason why there is no value.
    Fault(String),
}

/// Origin of a part of a key of two parts.
#[derive(Drop)]
pub enum KeyPartFrom {
    /// The text of an argument; none where it is null.
    Fixed(Option<Text>),
    /// A column of the row.
    Column(Text),
}

/// Origin of the parts of a key of two. Where a part is null, there is no key; but a column that the row doesn't have is a fault all the
/// same.
#[derive(Drop)]
pub struct KeyPairFrom {
    pub first: KeyPartFrom,
    pub second: KeyPartFrom,
}

/// Origin of the key of a load.
#[derive(Drop)]
pub enum KeyFrom {
    Fixed(Key),
    /// A column of the row.
    Column(Text),
    /// Two parts. They are boxed, so that other keys take half as much.
    Pair(Box<KeyPairFrom>),
}

/// Holds what the objects below a field are made from.
pub struct Children {
    /// An object type, an interface or a union.
    pub type_name: Text,
    /// Tells whether the items of the field's list are of non-null type.
    pub item_non_null: bool,
    /// Place of errors of the items: that of the first field of the group.
    pub place: Place,
    /// What the fields of the group select of the object, field by field.
    pub below: ShortList<Option<Arc<SelectionSet>>>,
}

impl Drop for Children {
    fn drop(self) {
        let Children {
            type_name: _type_name,
            item_non_null: _,
            place: _,
            below: _below,
        } = self;
    }
}

/// Origin of a group's value.
#[derive(Drop)]
pub enum ValueFrom {
    /// One value for every row.
    Known(LeafValue),
    /// A column's field, at a type.
    Cell {
        column: Text,
        ty: TypeRef,
    },
    /// The key's first row.
    First {
        loader: usize,
        key: KeyFrom,
        children: Arc<Children>,
    },
    /// All rows of the key.
    All {
        loader: usize,
        key: KeyFrom,
        children: Arc<Children>,
    },
    /// For each key its first row; no key is null.
    Each {
        loader: usize,
        keys: Vec<Option<Key>>,
        children: Arc<Children>,
    },
    /// The key's rows, and for each the first row of each later loader in turn, by a column of the row before.
    Joined {
        loader: usize,
        key: KeyFrom,
        steps: Arc<Vec<ViaLoader>>,
        children: Arc<Children>,
    },
}

/// The position of a group in its object, and what it asks for.
#[derive(Drop)]
pub struct PreparedField {
    pub key: Text,
    pub place: Place,
    pub non_null: bool,
    pub asked: ValueFrom,
}
