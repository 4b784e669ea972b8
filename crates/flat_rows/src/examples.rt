//! Examples of what the definitions give on a few rows, worked by hand.
ghost use Rattle.std.specs.Prelude.{◌≡◌, [], ◌∷◌, Some, None, codes};
ghost use Rattle.load_memory.specs.Keys.{all, pair, text};
ghost use Rattle.load_memory.specs.Outcomes.{rows, key_fault};
ghost use Rattle.flat_rows.specs.Keyed.{ArePlaces, first_unasked, keyed_items, with_faults};
ghost use Rattle.flat_rows.specs.Examples.{ada, bob, by_both, by_id, by_name_folded, by_none, eve, nobody, none, three_ids, twice};

/// A key gets the rows that have it, in the order given, and no rows where none has it. Keys that are the same get the same rows. Of
/// columns of one name the first counts, an empty field is the empty text, and a loader by no column has one key.
pub fn sorted_by_hand()
    ensures ids { keyed_items by_id three_ids (bob ∷ eve ∷ [])
        ≡ rows (bob ∷ eve ∷ []) ∷ none ∷ rows (bob ∷ eve ∷ []) ∷ [] }
    ensures apart { keyed_items by_id (text (codes "1") ∷ text (codes "2") ∷ []) (bob ∷ ada ∷ eve ∷ [])
        ≡ rows (ada ∷ []) ∷ rows (bob ∷ eve ∷ []) ∷ [] }
    ensures folded { keyed_items by_name_folded (text (codes "aDA") ∷ []) (ada ∷ [])
        ≡ rows (ada ∷ []) ∷ [] }
    ensures pairs { keyed_items by_both (pair (codes "Eve") (codes "2") ∷ pair (codes "2") (codes "Eve") ∷ []) (eve ∷ [])
        ≡ rows (eve ∷ []) ∷ none ∷ [] }
    ensures all { keyed_items by_none (all ∷ []) (bob ∷ ada ∷ [])
        ≡ rows (bob ∷ ada ∷ []) ∷ [] }
    ensures empty { keyed_items by_id (text [] ∷ []) (nobody ∷ []) ≡ rows (nobody ∷ []) ∷ [] }
    ensures first { keyed_items by_id (text (codes "1") ∷ text (codes "2") ∷ []) (twice ∷ [])
        ≡ rows (twice ∷ []) ∷ none ∷ [] }
{}

/// The first row whose key wasn't asked for is told by its place, and where each row's was, there is none.
pub fn refused_by_hand()
    ensures second { first_unasked by_id (text (codes "2") ∷ [])
        (bob ∷ ada ∷ eve ∷ []) ≡ Some 1 }
    ensures case { first_unasked by_id (text (codes "2") ∷ []) (bob ∷ eve ∷ []) ≡ None }
{}

/// A fault stands in the place of its key's item alone, whatever that is.
pub fn faulted_by_hand()
    ensures none { with_faults [] (none ∷ rows (ada ∷ []) ∷ []) ≡ none ∷ rows (ada ∷ []) ∷ [] }
    ensures one { with_faults ((1, codes "cast") ∷ []) (none ∷ none ∷ rows (ada ∷ []) ∷ [])
        ≡ none ∷ key_fault (codes "cast") ∷ rows (ada ∷ []) ∷ [] }
    ensures over { with_faults ((0, codes "a") ∷ (1, codes "b") ∷ []) (rows (ada ∷ []) ∷ none ∷ [])
        ≡ key_fault (codes "a") ∷ key_fault (codes "b") ∷ [] }
{}

/// Places rise, and each is that of a key.
pub fn placed_by_hand()
    ensures rising { ArePlaces 3 (0 ∷ 2 ∷ []) }
    ensures past { ¬ (ArePlaces 3 (0 ∷ 3 ∷ [])) }
    ensures twice { ¬ (ArePlaces 3 (1 ∷ 1 ∷ [])) }
    ensures falling { ¬ (ArePlaces 3 (2 ∷ 1 ∷ [])) }
{}
