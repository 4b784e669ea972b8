//! Laws of the definitions.

ghost use Rattle.std.specs.Prelude.{◌≡◌, List};
ghost use Rattle.gq_parser.specs.Word.{Token};
ghost use Rattle.schema_syntax.specs.Tree.{Definition};
ghost use Rattle.schema_syntax.specs.Grammar.{IsDocument};

/// *One tree*: a list of tokens has at most one tree.
pub fn one_tree()
    ensures { (tokens : List Token) (ds es : List Definition)
        → IsDocument ds tokens → IsDocument es tokens → ds ≡ es }
{}
