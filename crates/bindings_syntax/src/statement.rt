//! The statements of a bindings text. Their parts are words of the text.

/// The version of a bindings text.
#[derive(Clone, Copy, Debug, PartialEq, Eq)]
pub enum Version {
    /// `bindings 1`.
    One,
    /// `bindings 2`: all of version 1, loaders by two columns, keys of two parts, and `via` of up to four loaders.
    Two,
}

/// By which column of its table, or by which two, a loader finds the rows of a key.
#[derive(Clone, Copy, Debug, PartialEq, Eq)]
pub struct By<'text> {
    pub column: &'text str,
    /// The column that equals the second part of a key. Without it, keys are no pairs.
    pub second: Option<&'text str>,
    /// Keys and columns are compared with `A` to `Z` made small.
    pub fold: bool,
}

/// A part of a key of two parts.
#[derive(Clone, Copy, Debug, PartialEq, Eq)]
pub enum KeyPart<'text> {
    /// `arg NAME`: an argument of the field.
    Argument(&'text str),
    /// `column NAME`: a column of the row that the field belongs to.
    Column(&'text str),
}

/// Words for the key that a field loads.
#[derive(Clone, Copy, Debug, PartialEq, Eq)]
pub enum KeyWords<'text> {
    /// `arg NAME`: an argument of the field.
    Argument(&'text str),
    /// `column NAME`: a column of the row that the field belongs to.
    Column(&'text str),
    /// `all`: the one key of all rows.
    All,
    /// `PART and PART`: a key of two parts.
    Pair(KeyPart<'text>, KeyPart<'text>),
}

/// A loader of `via` after its first, with the column of the row before that has its key.
#[derive(Clone, Copy, Debug, PartialEq, Eq)]
pub struct ViaWords<'text> {
    pub loader: &'text str,
    pub column: &'text str,
}

/// The loaders of `via` after its first, in order.
#[derive(Clone, Copy, Debug, PartialEq, Eq)]
pub enum ViaLoaders<'text> {
    One(ViaWords<'text>),
    Two(ViaWords<'text>, ViaWords<'text>),
    Three(ViaWords<'text>, ViaWords<'text>, ViaWords<'text>),
}

/// Form of a field's binding.
#[derive(Clone, Copy, Debug, PartialEq, Eq)]
pub enum Form<'text> {
    /// `column COLUMN`: a column of the row that the field belongs to.
    Column(&'text str),
    /// `one LOADER KEY`: the first row of the key, or null.
    One {
        loader: &'text str,
        key: KeyWords<'text>,
    },
    /// `many LOADER KEY`: all rows of the key.
    Many {
        loader: &'text str,
        key: KeyWords<'text>,
    },
    /// `each LOADER arg NAME`: for each key in the argument's list, its first row or null.
    Each {
        loader: &'text str,
        argument: &'text str,
    },
    /// `via LOADER KEY LOADER2 COLUMN ..`: for each row of the key, the second loader's first row of the
    /// key that stands in the column, or null; and so on with each further loader.
    Via {
        loader: &'text str,
        key: KeyWords<'text>,
        steps: ViaLoaders<'text>,
    },
}

/// Meaning of a line.
#[derive(Clone, Copy, Debug, PartialEq, Eq)]
pub enum Statement<'text> {
    /// `loader NAME TABLE`, `loader NAME TABLE by COLUMN` or `loader NAME TABLE by COLUMN COLUMN2`; after the last two
    /// `fold` may follow.
    Loader {
        name: &'text str,
        table: &'text str,
        /// Without it, the loader gives all rows of the table.
        by: Option<By<'text>>,
    },
    /// `field T.F FORM`. The names are what stands before and after the first dot of `T.F`.
    Field {
        type_name: &'text str,
        field_name: &'text str,
        form: Form<'text>,
    },
}

/// A statement with its line's number, from 1.
#[derive(Clone, Copy, Debug, PartialEq, Eq)]
pub struct NumberedStatement<'text> {
    pub line: u64,
    pub statement: Statement<'text>,
}

/// Holds what a bindings text says.
#[derive(Debug, Drop)]
pub struct BindingsText<'text> {
    /// The first line that counts is `bindings 1` or `bindings 2`.
    pub is_headed: bool,
    /// The statements of the lines before the first bad one, in order.
    pub statements: Vec<NumberedStatement<'text>>,
    /// The first line that counts and has no form, from 1. Where another line than `bindings 1` or `bindings 2` comes
    /// first, it is that line. A text with no line that counts has none, and isn't headed.
    pub bad_line: Option<u64>,
}
