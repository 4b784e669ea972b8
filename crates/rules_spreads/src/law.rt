//! Laws of reaching.

ghost use Rattle.std.specs.Prelude.{◌≡◌, ◌↔◌, ℕ, true};
ghost use Rattle.rules_parts.specs.declared.part.Owner.{Owner};
ghost use Rattle.rules_spreads.specs.Graphs.{GraphOf};
ghost use Rattle.rules_spreads.specs.Reach.{are_known, reaches, Reaches};

/// In a graph whose rows name fragments that there are, what is reached is what is reached spread by spread.
pub fn reached_by_spreads()
    ensures { (g : GraphOf) (o : Owner) (j : ℕ) → are_known g ≡ true
        → (reaches g o j ≡ true) ↔ Reaches g o j }
{}
