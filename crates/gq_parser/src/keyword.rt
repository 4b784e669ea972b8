//! The names that mean something where the grammar has them as words.

ghost use Rattle.std.specs.Prelude.{◌≡◌};
ghost use Rattle.gq_parser.specs.Keywords.{keyword_of};

/// The keyword that a name is, where the grammar expects one. Elsewhere each of these is a plain
/// name.
#[derive(Clone, Copy, Debug, PartialEq, Eq)]
pub enum Keyword {
    Query,
    Mutation,
    Subscription,
    Fragment,
    On,
    True,
    False,
    Null,
    /// Any other name.
    Other,
}

/// The keyword that a name is where the grammar expects one.
#[tactic(auto, unfolding(crate::specs::Keywords::keyword_of))]
pub fn keyword_of(name: &str) -> Keyword
    ensures { result ≡ keyword_of name.now }
{
    match name {
        "query" => Keyword::Query,
        "mutation" => Keyword::Mutation,
        "subscription" => Keyword::Subscription,
        "fragment" => Keyword::Fragment,
        "on" => Keyword::On,
        "true" => Keyword::True,
        "false" => Keyword::False,
        "null" => Keyword::Null,
        _ => Keyword::Other,
    }
}
