//! Groups of fields.

use gq_parser::Field;
use short_list::ShortList;

/// The fields of one response key, in order, of which there is at least one (section 6.3.2).
#[derive(Drop)]
pub struct Group<'p> {
    pub key: &'p str,
    pub fields: ShortList<&'p Field>,
}
