//! Loaders and bindings: the parts of the lines of a bindings text.

use std::sync::Arc;

/// By which column of its table, or by which two, a loader finds the rows of a key.
#[derive(Debug, Drop)]
pub struct By {
    pub column: String,
    /// The column that equals the second part of a key. Without it, keys are no pairs.
    pub second: Option<String>,
    /// Keys and columns are compared with `A` to `Z` made small.
    pub fold: bool,
}

/// A loader: `loader NAME TABLE`, where `by` and one or two columns may follow, and then `fold`.
#[derive(Debug, Drop)]
pub struct LoaderLine {
    pub name: String,
    pub table: String,
    /// Without it the loader gives all rows of its table, under the one key `all`.
    pub by: Option<By>,
}

/// A part of a key of two parts.
#[derive(Debug, Drop)]
pub enum KeyPart {
    /// `arg NAME`: an argument of the field, which is an `Int`, an `ID` or a `String`.
    Argument(String),
    /// `column NAME`: a column of the row that the field belongs to.
    Column(String),
}

/// Origin of the key that a field loads.
#[derive(Debug, Drop)]
pub enum KeyOrigin {
    /// `arg NAME`: an argument of the field, which is an `Int`, an `ID` or a `String`.
    Argument(String),
    /// `column NAME`: a column of the row that the field belongs to.
    Column(String),
    /// `all`: the one key of all rows.
    All,
    /// `PART and PART`: a key of two parts.
    Pair(KeyPart, KeyPart),
}

/// A loader of `via` after its first, by its number, with the column of the row before that has its key.
#[derive(Debug, Drop)]
pub struct ViaLoader {
    pub loader: usize,
    pub column: String,
}

/// Way in which a field is answered. Loaders are named by their numbers, from 0 in the order of their lines.
#[derive(Debug, Drop)]
pub enum Binding {
    /// `column COLUMN`: a column of the row that the field belongs to.
    Column(String),
    /// `one LOADER KEY`: the first row of the key, or null.
    One {
        loader: usize,
        key: KeyOrigin,
    },
    /// `many LOADER KEY`: all rows of the key.
    Many {
        loader: usize,
        key: KeyOrigin,
    },
    /// `each LOADER arg NAME`: for each key in the argument's list its first row, or null.
    Each {
        loader: usize,
        argument: String,
    },
    /// `via LOADER KEY LOADER2 COLUMN ..`: for each row of the key the second loader's first row of the
    /// key that stands in the column, or null; and so on with each further loader.
    Via {
        loader: usize,
        key: KeyOrigin,
        /// One to three loaders after the first.
        steps: Arc<Vec<ViaLoader>>,
    },
}

/// The field of a type, with its binding.
#[derive(Debug, Drop)]
pub struct BoundField {
    pub type_name: String,
    pub field_name: String,
    pub binding: Binding,
}
