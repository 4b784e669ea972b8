//! Laws of the definitions. Each function does nothing: its contract is the law.
ghost use Rattle.std.specs.Prelude.{◌≡◌, ◌↔◌, ◌≤◌, ◌<◌, ◌⊎◌, ℕ, IsSome, List, [], Some, true, length, IsPermutation};
ghost use Rattle.load_memory.specs.declared.key.KeyMode.{KeyMode};
ghost use Rattle.execution.specs.Loads.{Load, Memory, Reader, read, Extends, AnswersMore, IsOneOf};
ghost use Rattle.execution.specs.Program.{Program, Tree, needs, tree, chain};
ghost use Rattle.execution.specs.Completion.{IsNullAt, IsCompletion, AnsweredOf, positions, top_position};
ghost use Rattle.execution.specs.Front.{front, front_of_keys, firsts, wanting, wanted, modes_wanted, keys_for};
ghost use Rattle.load_memory.specs.Replies.{ReplyOf};
ghost use Rattle.execution.specs.Rounds.{modes_of, any_answer, AreLimited, key_by_key, direct, stored, all_primed};
ghost use Rattle.load_memory.specs.Keys.{KeyOf};
ghost use Rattle.execution.specs.Sessions.{AreMissing, AreApart, IsAskedAgainRightly};
ghost use Rattle.execution.specs.Logs.{LogOf, HasRounds, IsLawfulLog, IsBoundedLog, IsSparingRun, longest_chain, count_of_own, IsPartOf, IsOfPart, IsSharedLog, executed, FitsItems, AreBothLawful, IsSameMemory, HasPair, IsAnsweredBy, log_cells, IsLimitedRound, AgreeAfter, round_cells, TwiceOf, AsksTwice};
ghost use Rattle.load_queue.specs.Wanted.{WantedOf, keys_wanted};
ghost use Rattle.load_memory.specs.Pairs.{PairOf, look};
ghost use Rattle.execution.specs.Residual.{rest, Fits, unanswered};
ghost use Rattle.execution.specs.Executed.{exec, nulls};
ghost use Rattle.execution.specs.Work.{work};

/// *Completion* (sections 6.4.3 and 6.4.4 of the GraphQL specification of October 2021): what `exec` computes bottom up is
/// the one answer that the sentence on paths and the list of all positions allow.
pub fn completion()
    ensures paths { (t : Tree)
        → (nulls t ≡ true) ↔ IsNullAt t }
    ensures answer { (p : Program) (R : Reader) (answered : AnsweredOf)
        → (exec p R ≡ Some answered) ↔ IsCompletion (tree p R) answered }
    ensures one { (t : Tree) (a b : AnsweredOf)
        → IsCompletion t a → IsCompletion t b → a ≡ b }
{}

/// *Monotone execution*: execution is defined exactly where nothing that it needs is missing, and is the same over a
/// larger memory. A larger memory needs at least the same loads, also where execution isn't defined.
pub fn monotone_execution()
    ensures defined { (modes : List KeyMode) (p : Program) (M : Memory)
        → IsSome (exec p (read modes M)) ↔ (front modes p M ≡ []) }
    ensures same { (modes : List KeyMode) (p : Program) (M N : Memory) → Extends M N
        → front modes p M ≡ [] → exec p (read modes N) ≡ exec p (read modes M) }
    ensures grows { (modes : _) (p : _) (M N : Memory) (load : _) → Extends M N
        → IsOneOf load (needs p (read modes M)) → IsOneOf load (needs p (read modes N)) }
{}

/// *Work only grows*: over a larger memory an execution has at least as many positions, also where something is missing. Those
/// that *Completion* speaks of are counted, each once.
pub fn work_only_grows()
    ensures grows { (modes : List KeyMode) (p : Program) (M N : Memory) → Extends M N
        → work p (read modes M) ≤ work p (read modes N) }
    ensures positions { (p : Program) (R : Reader)
        → length (positions (top_position (tree p R)) (tree p R)) ≡ work p R }
{}

/// A suspended program fits a reader if it has done only what the reader answers; a fresh program fits every reader. A
/// suspended program that fits still fits when more is answered, has the same execution as its program, and waits for the
/// same loads. What is left of it fits, and what is left of a program has its tree as done.
pub fn suspended_programs()
    ensures goes_on { (suspended p : Program) (R Q : Reader)
        → Fits suspended p R → AnswersMore R Q → Fits suspended p Q }
    ensures executed { (suspended p : Program) (R : Reader)
        → Fits suspended p R → exec suspended R ≡ exec p R }
    ensures waits { (modes : List KeyMode) (suspended p : Program) (M : Memory)
        → Fits suspended p (read modes M) → front modes suspended M ≡ front modes p M }
    ensures left { (suspended p : Program) (R : Reader)
        → Fits suspended p R → Fits (rest suspended R) p R }
    ensures holds { (p : Program) (R : Reader)
        → tree (rest p R) unanswered ≡ tree p R }
{}

/// Wants are the front. Adding the needed and missing loads, in the order in which an evaluation meets them, adds only the
/// first of equal cache keys; and wants that were empty then hold the front's keys for each loader.
pub fn wants_are_the_front()
    ensures first { (wants : List WantedOf) (loads : List Load)
        → wanting wants (firsts (modes_wanted wants) loads) ≡ wanting wants loads }
    ensures front { (modes : _) (loads : _) (loader : ℕ) → loader < length modes
        → keys_wanted (wanted modes loads) loader ≡ keys_for loader (firsts modes loads) }
{}

/// *Reply order is immaterial*: whatever the sources answer, the memory after a round is the same for every order of the
/// round's replies.
pub fn reply_order_is_immaterial()
    ensures { (rules : _) (p : _) (M : _) (round other : _) → IsLimitedRound rules p M round
        → IsPermutation round other → AgreeAfter rules M other round }
{}

/// To prime pairs one after another, each where its key is absent, is to store them.
pub fn stored_is_primed()
    ensures { (pairs more : List PairOf) (loader : ℕ) (key : KeyOf)
        → look (all_primed pairs more) loader key ≡ stored (look pairs) more loader key }
{}

/// *Rounds within the chain*: whatever the sources answer, a lawful log has at most as many rounds as the load chain over
/// its last memory has loads.
pub fn rounds_within_the_chain()
    ensures { (log : LogOf) → IsBoundedLog log
        → length log.rounds ≤ longest_chain log }
{}

/// *No sparing run is shorter*: whatever the sources answer, a run that asks in each step for any part of what is needed and
/// missing has no fewer steps than a lawful log has rounds. Some such run has as many, since the log is one itself.
pub fn no_sparing_run_is_shorter()
    ensures attained { (log : _) → AreLimited log.rules → IsLawfulLog any_answer log
        → (steps : _) × IsSparingRun log steps × (length steps ≡ length log.rounds) }
    ensures fewest { (log : LogOf) (steps : List Memory) → IsBoundedLog log
        → IsSparingRun log steps → length log.rounds ≤ length steps }
{}

/// *Shared rounds are few*: if several programs share rounds, as the parts of one program, each is executed over the last
/// memory. Its own rounds are those in which something that it needs was missing: at most its own load chain, and no more
/// than the steps of any sparing run of it alone. For one of them all rounds are its own.
pub fn shared_rounds_are_few()
    ensures executed { (modes : List KeyMode) (whole p : Program) (end : Memory)
        → IsPartOf p whole → front modes whole end ≡ [] → front modes p end ≡ [] }
    ensures chain { (log part : LogOf) → IsBoundedLog log
        → IsOfPart log part → count_of_own part ≤ longest_chain part }
    ensures sparing { (log part : LogOf) (steps : List Memory) → IsBoundedLog log
        → IsOfPart log part → IsSparingRun part steps → count_of_own part ≤ length steps }
    ensures greatest { (log : _) → IsSharedLog log → 0 < length log.rounds
        → (part : LogOf) × IsOfPart log part × (count_of_own part ≡ length log.rounds) }
{}

/// *One lawful log*: over sources that answer key by key there is at most one lawful log from a memory, and one memory at its
/// end. If the sources answer equal cache keys alike, and the memory has at first what they would answer, as an empty one
/// has, execution over the last memory is direct execution.
pub fn one_lawful_log()
    ensures rounds { (item : _) (log : LogOf) (others : List (List ReplyOf)) (last : Memory)
        → AreBothLawful item log others last → log.rounds ≡ others }
    ensures memory { (item : _) (log : LogOf) (others : List (List ReplyOf)) (last : Memory)
        → AreBothLawful item log others last → IsSameMemory log.end last }
    ensures direct { (item : _) (log : LogOf) → FitsItems item log
        → IsLawfulLog (key_by_key item) log → executed log ≡ exec log.program (direct item) }
{}

/// Within one log no loader is asked twice for one cache key, whatever the sources answer, and each pair of the last memory
/// was there at first or is in a reply of the log.
pub fn asked_once_and_answered()
    ensures once { (log : LogOf) → AreLimited log.rules
        → HasRounds any_answer log → AreApart (log_cells log) }
    ensures answered { (log : LogOf) (pair : PairOf) → HasRounds any_answer log
        → HasPair log.end pair → HasPair log.start pair ⊎ IsAnsweredBy log pair }
    ensures kept { (log : LogOf) → HasRounds any_answer log
        → Extends log.start log.end }
{}

/// *No key twice*, over any steps of a session. The rounds of an answer, and that of a list of keys, ask for loads that the
/// memory lacks, of equal cache keys only the first. No round asks a loader for two equal cache keys. Between two rounds that
/// ask for one, it was cleared, or the earlier batch that asked for it failed as a whole. What was primed, lost or answered
/// in between makes no difference.
pub fn no_key_twice()
    ensures front { (modes : List KeyMode) (p : Program) (M : Memory)
        → AreMissing modes M (front modes p M) }
    ensures keys { (modes : List KeyMode) (loader : ℕ) (keys : List KeyOf) (M : Memory)
        → AreMissing modes M (front_of_keys modes loader keys M) }
    ensures together { (rules : _) (M : _) (loads : List Load) → AreLimited rules
        → AreMissing (modes_of rules) M loads → AreApart (round_cells rules loads) }
    ensures again { (rules : _) (M : _) (t : TwiceOf) → AreLimited rules → AsksTwice rules M t
        → IsAskedAgainRightly (modes_of rules) t.cell t.replies t.between }
{}
