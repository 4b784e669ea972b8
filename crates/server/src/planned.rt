//! What was asked of a client, planned: refusals and plans.

ghost use Rattle.std.specs.Prelude.{◌≡◌, [], ◌∷◌, true, false, Some, None, IfOk, OnOk, map, option_map, string_bytes};
ghost use Rattle.load_rounds.specs.SharedRounds.{report_of};
ghost use Rattle.request_line.specs.Seen.{request_of, requests_of};
ghost use Rattle.server.specs.Hands.{refusals_in};
ghost use Rattle.server.specs.Kept.{NeedsLoaders};
ghost use Rattle.server.specs.Overruns.{overruns, reports_given};
ghost use Rattle.server.specs.Planned.{AddsRequest, PlansAll, is_refused, nothing_planned};

use crate::arrays::array_answer;
use crate::overruns::overrun_answers;
use crate::request_cache::RequestCache;
use gq_resolve::{LimitedPlan, PreparedPlan};
use load_rounds::{Answer, Overrun};
use plan_requests::{Request, not_a_request};
use short_list::ShortList;
use std::alloc::{AllocError, Global};
use std::marker::Model;
use std::sync::Arc;

/// The form of a response: that of one request or of an array, with the refusals that stand in it.
pub(crate) struct ResponseForm {
    is_array: bool,
    // The refusal of each request, in order. One without has a plan.
    refusals: ShortList<Option<String>>,
}

impl Drop for ResponseForm {
    fn drop(self) {
        let ResponseForm {
            is_array: _,
            refusals: _refusals,
        } = self;
    }
}

impl ResponseForm {
    ghost use Rattle.server.specs.Planned.{IsOneResponse, IsResponseOf};

    /// The response that is made of the answers to the plans.
    pub(crate) fn response(&self, alloc: Global, answers: Vec<Answer>) -> Result<Answer, AllocError>
        ensures { IfOk result (λ answer. IsResponseOf self.now.is_array
            (refusals_in self.now) (map report_of answers.items) (report_of answer)) }
    {
        if self.is_array {
            return array_answer(alloc, self.refusals.as_slice(), &answers);
        }
        let mut answers = answers;
        match answers.pop() {
            Some(answer) => Ok(answer),
            None => self.refusal(alloc),
        }
    }

    /// The response where the plans are over a limit: each has that refusal in its place.
    pub(crate) fn overrun(&self, alloc: Global, overrun: Overrun) -> Result<Answer, AllocError>
        ensures { IfOk result (λ answer. IsResponseOf self.now.is_array (refusals_in self.now)
            (overruns overrun (refusals_in self.now)) (report_of answer)) }
    {
        let answers = overrun_answers(alloc, self.refusals.as_slice(), overrun)?;
        self.response(alloc, answers)
    }

    /// The response that is made of what is given to the plans: their answers, or that they are over a limit.
    pub(crate) fn respond(
        &self,
        alloc: Global,
        given: Result<Vec<Answer>, Overrun>,
    ) -> Result<Answer, AllocError>
        ensures { IfOk result (λ answer. IsResponseOf self.now.is_array (refusals_in self.now)
            (reports_given (refusals_in self.now) given) (report_of answer)) }
    {
        match given {
            Ok(answers) => self.response(alloc, answers),
            Err(overrun) => self.overrun(alloc, overrun),
        }
    }

    // The refusal of one request.
    fn refusal(&self, alloc: Global) -> Result<Answer, AllocError>
        ensures { IfOk result (λ answer. IsOneResponse
            (refusals_in self.now) [] (report_of answer)) }
    {
        let text = match self.refusals.as_slice().first() {
            Some(Some(text)) => text.clone()?,
            _ => String::new(alloc),
        };
        Ok(Answer {
            text,
            rounds: 0,
            loads: 0,
        })
    }
}

/// Holds what was asked of a client, planned: a request, several, or text that may be either. It has the plan of each request within
/// the client's limit at that time, or the text that refuses it. [`ByHand`](crate::ByHand) and
/// [`ClientAnswering`](crate::ClientAnswering) take it.
///
/// A contract sees whether it is an array, the refusals, the plans, and below which number their loaders are.
#[derive(Drop)]
pub struct PlannedRequest {
    pub(crate) form: ResponseForm,
    pub(crate) plans: Vec<LimitedPlan>,
    // Least number of loaders of a session.
    pub(crate) loaders: usize,
}

impl Model for PlannedRequest {
    ghost use Rattle.std.specs.Coded.{codes};
    ghost use Rattle.std.specs.Prelude.{◌≤◌, All, map, option_map, string_bytes};
    ghost use Rattle.gq_parser.specs.contracts.tree.TypeRef as type_ref;
    ghost use Rattle.gq_parser.specs.contracts.tree.Literal as literal;
    ghost use Rattle.gq_parser.specs.contracts.tree.Argument as argument;
    ghost use Rattle.gq_parser.specs.contracts.tree.SelectionSet as set;
    ghost use Rattle.gq_schema.specs.contracts.input.Input as input;
    ghost use Rattle.server.specs.Planned.{PlannedOf};
    ghost use Rattle.server.specs.Plans.{limited_loaders};

    ghost Value = { PlannedOf };

    ghost coded = { Prim.hlevel (codes, type_ref.the_row.coded, literal.the_row.coded, argument.the_row.coded, set.the_row.coded, input.the_row.coded) };

    ghost view = { λ p. record {
      many = p.form.is_array;
      refusals = map (option_map string_bytes) p.form.refusals;
      plans = p.plans.items;
      loaders = p.loaders;
    } };

    ghost invariant = { λ p. All (λ limited. limited_loaders limited ≤ p.loaders) p.plans.items };
}

impl PlannedRequest {
    /// Nothing yet, for sessions of so many loaders.
    fn new(alloc: Global, is_array: bool, loaders: usize) -> PlannedRequest
        ensures { result ≡ nothing_planned is_array loaders }
    {
        PlannedRequest {
            form: ResponseForm {
                is_array,
                refusals: ShortList::new(),
            },
            plans: Vec::new(alloc),
            loaders,
        }
    }

    // Adds what one request more asks, within a limit.
    fn push(
        &mut self,
        alloc: Global,
        prepared: Result<Arc<PreparedPlan>, String>,
        most: Option<usize>,
    ) -> Result<(), AllocError>
        requires { NeedsLoaders self.old.loaders prepared }
        ensures { OnOk result
            (AddsRequest most prepared self.old self.new) }
    {
        match prepared {
            Err(text) => self.form.refusals.push(alloc, Some(text))?,
            Ok(plan) => {
                self.form.refusals.push(alloc, None)?;
                self.plans.push(LimitedPlan::new(plan, most))?;
            }
        }
        Ok(())
    }

    // What is asked alone, within a limit.
    fn alone(
        alloc: Global,
        loaders: usize,
        prepared: Result<Arc<PreparedPlan>, String>,
        most: Option<usize>,
    ) -> Result<PlannedRequest, AllocError>
        requires { NeedsLoaders loaders prepared }
        ensures { IfOk result (AddsRequest most prepared
            (nothing_planned false loaders)) }
    {
        let mut planned = PlannedRequest::new(alloc, false, loaders);
        planned.push(alloc, prepared, most)?;
        Ok(planned)
    }

    /// Returns how many loaders a session has at least that answers it.
    pub(crate) fn loaders(&self) -> usize
        ensures { result ≡ self.now.loaders }
    {
        self.loaders
    }

    /// Tells whether it is one request, which is refused: nothing is asked then.
    pub fn is_refused(&self) -> bool
        ensures { result ≡ is_refused self.now }
    {
        !self.form.is_array && self.plans.is_empty()
    }
}

/// Returns what one request asks, within a limit.
pub(crate) fn plan_one(
    alloc: Global,
    kept: &mut RequestCache,
    request: &Request<'_>,
    most: Option<usize>,
) -> Result<PlannedRequest, AllocError>
    ensures planned { IfOk result (PlansAll kept.old.server most
        (Some (request_of request.now) ∷ []) false) }
    ensures server { kept.new.server ≡ kept.old.server }
{
    let prepared = kept.prepare(alloc, request)?;
    PlannedRequest::alone(alloc, kept.server().loaders(), prepared, most)
}

/// Returns what the values of an array ask, within a limit each.
pub(crate) fn plan_several(
    alloc: Global,
    kept: &mut RequestCache,
    values: &[Option<Request<'_>>],
    most: Option<usize>,
) -> Result<PlannedRequest, AllocError>
    ensures planned { IfOk result (PlansAll kept.old.server most
        (requests_of values.now) true) }
    ensures server { kept.new.server ≡ kept.old.server }
{
    let mut planned = PlannedRequest::new(alloc, true, kept.server().loaders());
    for value in values {
        let prepared = kept.prepare_value(alloc, value)?;
        planned.push(alloc, prepared, most)?;
    }
    Ok(planned)
}

/// Returns what is planned of what is no request: its refusal.
pub(crate) fn plan_none(
    alloc: Global,
    kept: &RequestCache,
    most: Option<usize>,
) -> Result<PlannedRequest, AllocError>
    ensures { IfOk result (PlansAll kept.now.server
        most (None ∷ []) false) }
{
    let text = not_a_request(alloc)?;
    PlannedRequest::alone(alloc, kept.server().loaders(), Err(text), most)
}
