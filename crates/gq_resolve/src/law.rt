//! Laws of the definitions. The function does nothing: its contract is the law.

ghost use Rattle.std.specs.Prelude.{◌≡◌, ℕ, List, [], false};
ghost use Rattle.load_memory.specs.Pairs.{MemoryOf};
ghost use Rattle.execution.specs.Completion.{is_open};
ghost use Rattle.execution.specs.Loads.{Reader, AnswersMore};
ghost use Rattle.execution.specs.Program.{Program, needs, tree};
ghost use Rattle.execution.specs.Reads.{count_read};
ghost use Rattle.gq_check.specs.Plans.{PlanOf};
ghost use Rattle.gq_resolve.specs.Evaluated.{front_over};
ghost use Rattle.plan_walk.specs.Reading.{reader};
ghost use Rattle.gq_resolve.specs.KeyByKey.{IsKeyByKey, AreGivenBy, MakesCalls, called_loads};
ghost use Rattle.plan_program.specs.PlanPrograms.{plan_program};

/// *Execution key by key* asks for one key at a time and remembers nothing. Where its calls give what a reader says, they are the loads
/// that the program reads, one call for each in that order, and it comes to the execution tree. If nothing is missing, there are such
/// calls, just as many as loads are counted. What answers more is asked as often then: so the sources of a memory are, where each of its
/// pairs is what they answer to its key.
pub fn loads_are_calls()
    ensures each { (p : Program) (R : Reader) (cs : List _) (t : _) → IsKeyByKey p cs t
        → AreGivenBy R cs → (called_loads cs ≡ needs p R) × (t ≡ tree p R) }
    ensures some { (p : Program) (R : Reader)
        → is_open (tree p R) ≡ false → MakesCalls p R (count_read p R) }
    ensures only { (p : Program) (R : Reader) (count : ℕ)
        → MakesCalls p R count → count ≡ count_read p R }
    ensures more { (p : Program) (R Q : Reader) → AnswersMore R Q
        → is_open (tree p R) ≡ false → count_read p Q ≡ count_read p R }
    ensures plans { (plan : PlanOf) (m : MemoryOf) → front_over m (plan_program plan) ≡ []
        → MakesCalls (plan_program plan) (reader m) (count_read (plan_program plan) (reader m)) }
{}
