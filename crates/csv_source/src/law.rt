//! Laws of the definitions.

ghost use Rattle.std.specs.Prelude.{◌≡◌, ℕ, List};
ghost use Rattle.load_memory.specs.Rows.{SheetOf};
ghost use Rattle.csv_source.specs.Reading.{IsTableOf, FirstFault};
ghost use Rattle.csv_source.specs.declared.fault.TableFault.{TableFault};

/// A text is one table or has one first fault, and never both.
pub fn one_reading()
    ensures table { (text : List ℕ) (s t : SheetOf)
        → IsTableOf text s → IsTableOf text t → s ≡ t }
    ensures apart { (text : List ℕ) (t : SheetOf) (e : TableFault)
        → IsTableOf text t → FirstFault text e → ⊥ }
    ensures fault { (text : List ℕ) (d e : TableFault)
        → FirstFault text d → FirstFault text e → d ≡ e }
{}
