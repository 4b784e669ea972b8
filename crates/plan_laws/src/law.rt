//! Laws of collection, of levels, of what execution can meet, and of the answers of plans.
ghost use Rattle.std.specs.Prelude.{◌≡◌, ◌≤◌, ℕ, List, length, false};
ghost use Rattle.gq_parser.specs.Tree.{Value};
ghost use Rattle.schema_syntax.specs.Tree.{Argument, Definition};
ghost use Rattle.gq_bindings.specs.Tree.{BindingsOf};
ghost use Rattle.gq_check.specs.Plans.{PlanOf, plan_of};
ghost use Rattle.gq_check.specs.Planned.{IsPlan};
ghost use Rattle.plan_program.specs.PlanPrograms.{most_levels, plan_program};
ghost use Rattle.plan_requests.specs.Servers.{ServerOf};
ghost use Rattle.plan_laws.specs.Collecting.{CollectsTheSame, CollectsBySelections};
ghost use Rattle.plan_laws.specs.Headline.{ExecutesPlan, AnswersPlan};
ghost use Rattle.plan_laws.specs.Levels.{program_with};
ghost use Rattle.plan_laws.specs.Met.{CanBeMet, IsMetBy, HasFirst, CanHave, IsDefined, BindsFields, NamesItsLoaders, AsksItsBinding, AreRead, IsOverSchema, IsOverOne};
ghost use Rattle.plan_laws.specs.OfServers.{IsMade, IsPlanOver};
ghost use Rattle.plan_laws.specs.Unset.{IsRight, has_unset};
ghost use Rattle.plan_program.specs.Groups.{FieldOf, GroupOf};

use gq_check::Plan;
use load_queue::LocalSource;

/// Collection ends (section 6.3.2 of the GraphQL specification of October 2021): no more fragments are entered one inside
/// another than the plan has, so a higher bound would collect the same. A fragment that is entered collects what its selections
/// collect, with fragments in them entered in the same way.
pub fn collection_ends()
    ensures more { (plan : PlanOf) (ty : List ℕ) (left : ℕ)
        → length plan.fragments ≤ left → CollectsTheSame plan ty left }
    ensures enters { (plan : PlanOf) (ty : List ℕ)
        → CollectsBySelections plan ty }
{}

/// More levels than a plan has change nothing: its operation has no path of more than 128 fields, fragments expanded, so its
/// program is the same where objects have any more levels.
pub fn more_levels_change_nothing()
    ensures { (plan : PlanOf) (levels : ℕ) → IsPlan plan
        → most_levels ≤ levels → program_with plan levels ≡ plan_program plan }
{}

/// Bindings that are read over a schema bind each field of each object type, and name only loaders that they define. So if a
/// plan's bindings are of its own schema, no field of an object type is null because either is lacking.
pub fn fields_are_bound()
    ensures bound { (defs : List Definition) (b : BindingsOf)
        → AreRead defs b → BindsFields defs b }
    ensures loaders { (defs : List Definition) (b : BindingsOf)
        → AreRead defs b → NamesItsLoaders b }
{}

/// Each group of fields that the execution of a plan can meet is answered by its first field. Unless that is `__typename`, it
/// has a definition in the type of its object. If the plan's bindings were read over its own schema, it also has a binding,
/// whose loaders exist, and the group asks for what that binding asks for. So in such a plan's program no field is null because
/// it lacks one of these.
pub fn met_fields_are_answered()
    ensures first { (plan : PlanOf) (ty : List ℕ) (g : GroupOf)
        → IsOverSchema plan → CanBeMet plan ty g → HasFirst g }
    ensures defined { (plan : PlanOf) (ty : List ℕ) (g : GroupOf) (f : FieldOf)
        → IsOverSchema plan → IsMetBy plan ty g f → IsDefined plan.definitions ty f.name }
    ensures answered { (plan : PlanOf) (ty : List ℕ) (g : GroupOf) (f : FieldOf)
        → IsOverOne plan → IsMetBy plan ty g f → AsksItsBinding plan ty g f }
{}

/// A literal that is given for an argument of a field that execution can meet is right at the argument's type, unless a
/// variable in it has no value or null. So no other literal is a field error.
pub fn literals_are_right()
    ensures { (plan : PlanOf) (a : Argument) (v : Value) → IsOverSchema plan
        → CanHave plan a v → has_unset plan v ≡ false → IsRight plan a.of_type v }
{}

/// A server reads its bindings over its own schema, so each plan of its requests is over one schema, as
/// [`met_fields_are_answered`] asks.
pub fn plans_of_a_server_are_over_one()
    ensures { (s : ServerOf) (plan : PlanOf) → IsMade s → IsPlanOver s plan → IsOverOne plan }
{}

/// The headline for a plan. Each plan is of a document that keeps every rule, so the whole sentence holds of its answer.
pub fn answers_of_plans<S: LocalSource>(plan: &Plan)
    ensures { let p = plan_of plan.now in (old new : _) (text : _) (n : _)
        → ExecutesPlan S.may_tell old new p text n → AnswersPlan S.may_tell old new p text n }
{
    // The clause `prepared` of this call says that the plan is of a valid document.
    let _ = plan.operation();
}
