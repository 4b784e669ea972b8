//! Examples of what the definitions give on small programs, whose answers were worked by hand from the rules.
ghost use Rattle.std.specs.Prelude.{◌≡◌, List, [], ◌∷◌, Some, None, codes};
ghost use Rattle.execution.specs.Loads.{Load};
ghost use Rattle.execution.specs.Program.{Null, Program, Is, needs, chain};
ghost use Rattle.execution.specs.Executed.{exec};
ghost use Rattle.execution.specs.Work.{work};
ghost use Rattle.execution.specs.Residual.{unanswered};
ghost use Rattle.load_memory.specs.Keys.{text};
ghost use Rattle.execution.specs.Front.{firsts};
ghost use Rattle.execution.specs.Rounds.{modes_of, round_orders, after_round, without_failed};
ghost use Rattle.execution.specs.Examples.{two_loaders, five_loads, four_loads, three_orders, one_of_two, one_item_too_few, nothing_known, error, key, load_of, user_without_name, user_is_null, users_and_one_without_name, data_is_null, nullable_users, item_is_null, siblings_under_a_null, each_has_its_error, three_loads, through_four_loaders, first_answered, fault_answered, three_faults};

/// Nulls and errors. A null at a non-null type makes the nearest nullable parent null, up to `data`; errors of siblings
/// stand beside it, once each, in depth-first order.
pub fn completed_by_hand()
    ensures field { exec user_without_name unanswered
        ≡ Some user_is_null }
    ensures whole { exec users_and_one_without_name
        unanswered ≡ Some data_is_null }
    ensures item { exec nullable_users unanswered ≡ Some item_is_null }
    ensures siblings { exec siblings_under_a_null unanswered
        ≡ Some each_has_its_error }
{}

/// Loads are read depth first, past a position that is open; a fault of a load is an error of its position.
pub fn read_by_hand()
    ensures waits { exec three_loads first_answered ≡ None }
    ensures first { needs three_loads unanswered
        ≡ load_of 0 (codes "1") ∷ load_of 0 (codes "2") ∷ load_of 0 (codes "1") ∷ [] }
    ensures more { needs three_loads first_answered ≡ load_of 0 (codes "1") ∷ load_of 0
        (codes "2") ∷ load_of 1 (codes "3") ∷ load_of 0 (codes "1") ∷ [] }
    ensures chain { chain three_loads first_answered ≡ 2 }
    ensures longer { chain through_four_loaders
        fault_answered ≡ 4 }
    ensures faults { exec three_loads fault_answered
        ≡ Some three_faults }
{}

/// Work counts each position that is completed, also where its null makes all that is around it null, and each that waits.
pub fn work_by_hand()
    ensures leaf { work (Is Null) unanswered ≡ 1 }
    ensures object { work user_without_name unanswered ≡ 3 }
    ensures list { work nullable_users unanswered ≡ 6 }
    ensures whole { work users_and_one_without_name
        unanswered ≡ 6 }
    ensures waits { work three_loads unanswered ≡ 4 }
    ensures first { work through_four_loaders
        first_answered ≡ 3 }
{}

/// A front has of equal cache keys the first; a round asks each loader's keys in order, in pieces of its limit; and a list
/// of another length than the keys gives each key the batch fault that says so.
pub fn rounds_by_hand()
    ensures first { firsts (modes_of two_loaders) five_loads
        ≡ four_loads }
    ensures orders { round_orders two_loaders (firsts (modes_of two_loaders) five_loads)
        ≡ three_orders }
    ensures folded { after_round two_loaders nothing_known
        (one_item_too_few ∷ []) 0 (text (codes "abc")) ≡ Some one_of_two }
    ensures other { after_round two_loaders nothing_known
        (one_item_too_few ∷ []) 0 (text (codes "ABC")) ≡ None }
    ensures forgotten { without_failed (after_round two_loaders
        nothing_known (one_item_too_few ∷ [])) 0 (text (codes "b")) ≡ None }
{}
