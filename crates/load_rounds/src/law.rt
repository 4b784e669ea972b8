//! Laws of the calls of a session, one after another. Each function does nothing: its contract is the law.
ghost use Rattle.std.specs.Prelude.{◌≡◌, ◌≤◌, ◌⊎◌, ◌∷◌, [], List, true, length, map};
ghost use Rattle.std.specs.List.{list_any};
ghost use Rattle.load_queue.specs.Loaders.{as_made};
ghost use Rattle.execution.specs.Front.{front};
ghost use Rattle.execution.specs.Logs.{HasPair};
ghost use Rattle.execution.specs.Loads.{Extends, Memory, read};
ghost use Rattle.execution.specs.Rounds.{AreLimited};
ghost use Rattle.execution.specs.Sessions.{Forgot, AreApart};
ghost use Rattle.execution.specs.Rounds.{direct};
ghost use Rattle.load_rounds.specs.Sessions.{StateOf, rules_of};
ghost use Rattle.load_rounds.specs.Runs.{RunOf, IsRun, program_of};
ghost use Rattle.load_rounds.specs.SharedRounds.{RequestOf, front_of_all, together, SharedHeadline, IsAnsweredAlone, AreWithinChain};
ghost use Rattle.load_memory.specs.Keys.{KeyOf};
ghost use Rattle.load_memory.specs.Outcomes.{ItemOf};
ghost use Rattle.load_memory.specs.declared.key.KeyMode.{KeyMode};
ghost use Rattle.load_rounds.specs.KeyByKey.{AnswerKeyByKey, RespectModes, HasLawfulLog, IsAnsweredAlike, IsAnsweredDirectly};
ghost use Rattle.load_rounds.specs.SharedKeyByKey.{AreAnsweredAlike, AreAnsweredDirectly};
ghost use Rattle.execution.specs.Front.{front_of_keys};
ghost use Rattle.load_rounds.specs.Calls.{AreKnown};
ghost use Rattle.load_rounds.specs.Headline.{StopsAnswering};
ghost use Rattle.load_rounds.specs.Limits.{work_of_all};
ghost use Rattle.load_rounds.specs.Reading.{CanLoad, HasRead, reading};
ghost use Rattle.load_rounds.specs.Histories.{Call, Loading, StoppedExecuting, StoppedLoading, IsMadeOf, AreMadeOf, Leads, IsCall, AreCalls, clears_at, IsFrom, gained_cells, AskTwice, IsFailedAt};

use execution::Execute;
use load_queue::LocalSource;

/// Each call is a list of steps, and each step is lawful: a round asks only for what the memory lacks at that moment, of equal
/// cache keys only the first. Calls in a row make their steps in a row. So each pair of the memory after them was there
/// before, was primed by one of them, or is in a reply of one of their rounds.
pub fn calls_are_steps<S: LocalSource>()
    ensures one { (call : Call) (old new : _) → IsCall S.may_tell call old new
        → (steps : _) × Leads S.may_tell old (Forgot ∷ steps) new × IsMadeOf call steps }
    ensures all { (calls : List Call) (old new : _) → AreCalls S.may_tell calls old new
        → (steps : _) × Leads S.may_tell old steps new × AreMadeOf calls steps }
    ensures pairs { (calls : _) (old new : _) (pair : _) → AreCalls S.may_tell calls old new
        → HasPair new.memory pair → IsFrom S.may_tell calls old new pair }
{}

/// No call changes more of a loader than its log and the count of its orders. So a session that starts again is as a new one over the
/// loaders that it was made with, whatever was called before, but that their orders stay counted.
pub fn calls_keep_loaders<S: LocalSource>()
    ensures { (calls : List Call) (old new : StateOf S) → AreCalls S.may_tell calls old new
        → map as_made new.loaders ≡ map as_made old.loaders }
{}

/// *No key twice*, over any list of calls. No call asks a loader twice for one cache key. If two calls each have a stored log
/// entry that asks a loader for one cache key, a call between them cleared it, or the earlier batch failed as a whole: after
/// the earlier call the memory has that batch's fault for it. Entries of a lost round aren't stored, and their keys may be
/// asked for again. A run that the caller advances counts as one call, at whatever stage it was dropped ([`dropped_runs_are_calls`]),
/// unless another call changed its session before that. A session that starts again has cleared every key.
///
/// A call that is out of memory counts, with the rounds that it stored; such a `clear` has cleared nothing. A
/// call that is refused because of its loader's number doesn't count.
pub fn no_key_twice<S: LocalSource>()
    ensures together { (call : _) (old new : _) (loader : _) → AreLimited (rules_of old)
        → IsCall S.may_tell call old new → AreApart (gained_cells loader old new) }
    ensures again { (t : _) → AreLimited (rules_of t.old) → AskTwice S.may_tell t
        → (list_any (clears_at t.cell) t.between ≡ true) ⊎ IsFailedAt t.cell t.mid }
{}

/// Whatever its stage, a run is to its session what an answer at which memory ran out is: rounds were made since it was begun, and
/// perhaps one more is lost.
pub fn dropped_runs_are_calls<S: LocalSource, E, P: Execute<E>>()
    ensures { (begun now : StateOf S) (run : RunOf P E)
        → IsRun P.program P.text_of S.may_tell begun now run
        → IsCall S.may_tell (StoppedExecuting (program_of P.program P.text_of run)) begun now }
{}

/// *Shared rounds*. Several requests are one program, whose front is the front of all of them: what any of them needs and the memory
/// lacks, in order, of equal cache keys only the first. The rounds of all together are at most the longest of their load chains. For
/// one request alone this is the headline.
pub fn requests_share_rounds<S: LocalSource>()
    ensures front { (modes : List KeyMode) (rs : List RequestOf) (M : Memory)
        → front modes (together rs) M ≡ front_of_all modes (map (λ r. r.program) rs) M }
    ensures chain { (old new : _) (rs : _) (report : _) → (h : SharedHeadline S.may_tell
        old new rs report) → AreWithinChain old new rs (length h.log) }
    ensures one { (old new : _) (r : _) (report : _) → SharedHeadline S.may_tell old new
        (r ∷ []) (report ∷ []) → IsAnsweredAlone S.may_tell old new r report }
    ensures alone { (old new : _) (r : _) (report : _) → IsAnsweredAlone S.may_tell old new r report
        → SharedHeadline S.may_tell old new (r ∷ []) (report ∷ []) }
{}

/// *One lawful log*, of answers. Over sources that answer key by key, as each `PerKey` source does by its laws, every reply in
/// an answer's log is fixed. So two answers from one state are one: the same text, rounds, memory and logs, whoever ran the
/// orders. If the loaders compare keys as their sources do, and the memory has at first what the sources would answer, as in a
/// new session, the text is that of direct execution.
pub fn answers_key_by_key<S: LocalSource>()
    ensures lawful { (item : S → KeyOf → ItemOf)
        → AnswerKeyByKey S.may_tell item → HasLawfulLog S.may_tell item }
    ensures one { (item : S → KeyOf → ItemOf)
        → AnswerKeyByKey S.may_tell item → IsAnsweredAlike S.may_tell }
    ensures direct { (item : _) (mode_of : S → KeyMode) → AnswerKeyByKey S.may_tell item
        → RespectModes mode_of item → IsAnsweredDirectly S.may_tell item mode_of }
{}

/// *One lawful log*, of answers to several requests. Over sources that answer key by key two times the answers to the same requests
/// from one state are the same, and leave the same memory and logs, whoever ran the orders. Each text is that of direct execution, as
/// that of an answer alone is.
pub fn requests_key_by_key<S: LocalSource>()
    ensures one { (item : S → KeyOf → ItemOf)
        → AnswerKeyByKey S.may_tell item → AreAnsweredAlike S.may_tell }
    ensures direct { (item : _) (mode_of : S → KeyMode) → AnswerKeyByKey S.may_tell item
        → RespectModes mode_of item → AreAnsweredDirectly S.may_tell item mode_of }
{}

/// *Keys are a program*: a list that reads each of them. Its front is what a call that loads them asks for. A run of it that has answered is
/// such a call, with the outcomes that the memory has then: one round at most. A run where memory ran out is such a call that stopped.
pub fn keys_are_a_program<S: LocalSource>()
    ensures front { (modes : _) (loader : _) (keys : _) (M : Memory)
        → front modes (reading loader keys) M ≡ front_of_keys modes loader keys M }
    ensures loaded { (old new : _) (l ks os : _) → HasRead S.may_tell old new l ks
        → AreKnown new l ks os → IsCall S.may_tell (Loading l ks os) old new }
    ensures stopped { (old new : StateOf S) (l ks : _) → CanLoad old l → StopsAnswering S.may_tell
        old new (reading l ks) → IsCall S.may_tell (StoppedLoading l ks) old new }
{}

/// *Refused rightly*: over a memory that has more, the work of requests is at least as much. So where it is over a limit, whoever answers them
/// over such a memory has answers over the limit.
pub fn refused_rightly()
    ensures { (modes : List KeyMode) (rs : List RequestOf) (M N : Memory) → Extends M N
        → work_of_all rs (read modes M) ≤ work_of_all rs (read modes N) }
{}
