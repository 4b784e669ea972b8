//! Laws that verdicts and answers exist. Each function does nothing: its contract is the law.
//!
//! A definition of what may be answered could be one that nothing meets, and "out of memory" would stand in for every answer. These laws say
//! that this is not so: each text is a document or has a fault, each document has a verdict, execution and its rounds always come to an
//! answer, and so each line has one.
ghost use Rattle.std.specs.Prelude.{◌≡◌, ◌≢◌, ◌⊎◌, ◌<◌, ◌^◌, ℕ, List, Option, Some, length};
ghost use Rattle.serde_json.specs.Data.{Data};
ghost use Rattle.gq_parser.specs.declared.fault.ParseFault.{ParseFault};
ghost use Rattle.gq_parser.specs.declared.fault.ParseFault.TheVariants as parse;
ghost use Rattle.gq_parser.specs.Fault.{IsDocumentOf, IsParseFault};
ghost use Rattle.gq_parser.specs.Tree.{Document};
ghost use Rattle.schema_syntax.specs.Tree.{Definition};
ghost use Rattle.load_memory.specs.Keys.{KeyOf};
ghost use Rattle.load_memory.specs.Outcomes.{ItemOf};
ghost use Rattle.execution.specs.Loads.{Memory};
ghost use Rattle.execution.specs.Program.{Program};
ghost use Rattle.execution.specs.Completion.{AnsweredOf};
ghost use Rattle.execution.specs.Executed.{exec};
ghost use Rattle.execution.specs.Rounds.{RuleOf, direct};
ghost use Rattle.gq_check.specs.Plans.{PlanOf};
ghost use Rattle.gq_check.specs.Planned.{IsPlan};
ghost use Rattle.gq_check.specs.Verdict.{FaultOf, IsVerdict};
ghost use Rattle.world.specs.Worlds.{HasSources};
ghost use Rattle.world_answers.specs.Answers.{IsAnsweredAnew};
ghost use Rattle.world_answers.specs.Lines.{IsAnswer};
ghost use Rattle.world_answers.specs.Services.{ServiceOf};
ghost use Rattle.world_answers.specs.Logs.{AnswersKeyByKey, HasLog};
ghost use Rattle.world_answers.specs.Requests.{IsRefusedOrAnswered};

/// Each text is a document, or has a first fault. `NoMemory`, which says nothing of a text, isn't counted as one.
pub fn texts_are_read()
    ensures { (text : List ℕ) → ((d : Document) × IsDocumentOf text d)
        ⊎ ((f : ParseFault) × (f ≢ parse.NoMemory) × IsParseFault text f) }
{}

/// Each document has a verdict over each schema, and so exactly one (`one_verdict` of `gq_check`). Of Field Selection Merging
/// (section 5.3.2 of the GraphQL specification of October 2021), which is a relation, it can be told for each selection set whether
/// it can be merged, and else which response key fails first.
pub fn documents_have_verdicts()
    ensures { (defs : List Definition) (d : Document)
        → (v : Option FaultOf) × IsVerdict defs d v }
{}

/// Direct execution, in which each load is answered by its key's item, has an answer for every program. Over sources that
/// answer key by key, and equal cache keys alike, a lawful log exists from every memory that has what they would answer, as an
/// empty one has.
pub fn answers_are_there()
    ensures direct { (p : Program) (item : ℕ → KeyOf → ItemOf)
        → (answered : AnsweredOf) × (exec p (direct item) ≡ Some answered) }
    ensures log { (item : ℕ → KeyOf → ItemOf) (rules : List RuleOf) (p : Program) (M : Memory)
        → AnswersKeyByKey item rules p M → HasLog item rules p M }
{}

/// Each plan over the bindings of a world has an answer, whatever the limits: a text that is that of direct execution, and a session
/// of the world, new at first, in which it was answered with the headline, or refused as soon as what is known was over the limit on
/// work. So only being out of memory keeps a plan from its answer.
pub fn plans_are_answered()
    ensures { (s : ServiceOf) (plan : PlanOf) → HasSources s.world → plan.bindings
        ≡ s.world.bindings → IsPlan plan → (text : List ℕ) × IsAnsweredAnew s plan text }
{}

/// Each request to a service whose query is a document comes to a fault of the document, or to one of the choice of its operation
/// and its variables, or to an answer.
pub fn requests_are_answered()
    ensures { (s : ServiceOf) (d : Document) (name : Option (List ℕ)) (given : Data)
        → HasSources s.world → IsRefusedOrAnswered s d name given }
{}

/// Each line has an answer by a service, and so exactly one (`one_answer`): it is no request, or its query is no
/// document, or one to which `requests_are_answered` applies, and a string can hold every name that a refusal tells. An array has the
/// refusals of its values, and all of its plans can be answered in one session, or refused there. Of a line that no memory holds, one of
/// 2^63 bytes or more, this isn't said.
pub fn lines_are_answered()
    ensures { (s : ServiceOf) (line : List ℕ) → HasSources s.world → length line < 2 ^ 63
        → (text : List ℕ) × IsAnswer s line text }
{}
