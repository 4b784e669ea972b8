//! Laws of sets of arguments.

ghost use Rattle.std.specs.Prelude.{◌≡◌, List, true};
ghost use Rattle.gq_parser.specs.Tree.{Argument};
ghost use Rattle.merging_arguments.specs.Same.{same_arguments};

/// To be the same set of arguments is an equivalence.
pub fn same_arguments_are_equivalent()
    ensures each_with_itself { (xs : List Argument)
        → same_arguments xs xs ≡ true }
    ensures either_way { (xs ys : List Argument)
        → same_arguments xs ys ≡ same_arguments ys xs }
    ensures by_a_third { (xs ys zs : List Argument) → same_arguments xs ys ≡ true
        → same_arguments ys zs ≡ true → same_arguments xs zs ≡ true }
{}
