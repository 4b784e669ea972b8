//! Tables of comma-separated values, and sources that answer from them.
//!
//! The layer above may rely on this: a [`Table`] holds the records of its text, or the reading
//! names the first fault; a [`CsvSource`] answers each key with the rows of that key, in file order.
#![tactic(auto)]

pub mod fault;
mod hash;
pub mod index;
pub mod law;
pub mod pair_index;
mod read;
pub mod source;
pub mod table;

pub use fault::TableFault;
pub use index::ColumnIndex;
pub use pair_index::PairIndex;
pub use source::CsvSource;
pub use table::Table;
