//! Execution of plans (sections 6.2 to 6.4 of the GraphQL specification of October 2021): over a memory of what was loaded, a
//! plan is ready with its answer, or waits for exactly the loads that it needs and the memory lacks.
//!
//! The layer above may rely on this: a [`RootState`] is ready with the text of the execution of the plan's program
//! (`plan_program::specs::PlanPrograms`), and the count of the loads that it reads, where nothing is missing, and else adds the front to the wants. It goes on over a memory
//! that grows from poll to poll, and keeps what is done.
//!
//! Between two polls it may work ahead in steps ([`RootState::work_ahead`]), and count its work ([`RootState::count_ahead`]): it still fits its
//! memory then, so a poll promises the same. Each such call comes nearer to the end, or says that nothing is left to do.
//!
//! A plan is what can be executed (`execution::Execute`), and so is a plan with a limit ([`LimitedPlan`]): an answer whose text is
//! longer is refused, and all else is as for the plan. So whatever answers what can be executed answers plans.
#![tactic(auto)]

mod advance;
mod answer_ahead;
mod answer_text;
mod bounded;
mod completed_text;
pub mod law;
mod limited;
pub mod limited_plan;
mod most_groups;
mod output;
mod paused_walk;
mod pausing;
mod plan;
mod prepared_plan;
mod root_state;
mod stepped_output;
mod threads;
mod wanting;
mod work;

pub use limited_plan::LimitedPlan;
pub use prepared_plan::PreparedPlan;
pub use root_state::RootState;
