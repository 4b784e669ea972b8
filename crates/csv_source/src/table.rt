//! A table, as its reader gave it.
ghost use Rattle.std.specs.Prelude.{◌≡◌, ◌≤◌, length};
ghost use Rattle.std.specs.Arc.{arc_value};

use load_memory::Sheet;
use std::marker::Model;
use std::sync::Arc;

/// A header and at most 1,000,000 rows of text, in file order.
///
/// A contract sees it as the list of its column names and the list of its rows. Its rows share its
/// memory, and so do its indices.
pub struct Table {
    pub(crate) sheet: Arc<Sheet>,
}

impl Model for Table {
    ghost use Rattle.std.specs.Prelude.{◌≤◌, length};
    ghost use Rattle.std.specs.Arc.{arc_value};
    ghost use Rattle.load_memory.specs.Rows.{SheetOf};

    ghost Value = { SheetOf };

    ghost view = { λ t. arc_value t.sheet };

    ghost invariant = { λ t. length (arc_value t.sheet).rows ≤ 1000000 };
}

impl Drop for Table {
    fn drop(self) {
        let Table { sheet: _sheet } = self;
    }
}

impl Table {
    /// The sheet that the table's rows share.
    pub fn sheet(&self) -> &Arc<Sheet>
        ensures value { arc_value result.now ≡ self.now }
        ensures count { length self.now.rows ≤ 1000000 }
    {
        &self.sheet
    }
}
