//! Laws of the grammar.

ghost use Rattle.std.specs.Prelude.{◌≡◌, List};
ghost use Rattle.gq_parser.specs.Word.{Token};
ghost use Rattle.gq_parser.specs.Tree as trees;
ghost use Rattle.gq_parser.specs.Grammar.{IsDocument};

/// A list of tokens has at most one tree.
pub fn one_tree()
    ensures { (tokens : List Token) (d e : trees.Document)
        → IsDocument d tokens → IsDocument e tokens → d ≡ e }
{}
