//! Types that may go to other threads, and those that threads may share. The check proves it of these types at the calls here, of which
//! none is made at run time. So a type that ceases to be so is refused here, and not first in the crate of someone who starts threads.

use crate::limited_plan::LimitedPlan;
use crate::prepared_plan::PreparedPlan;
use crate::root_state::RootState;
use std::marker::{Send, Sync};

fn goes<T: Send>(_: &T) {}

fn is_shared<T: Sync>(_: &T) {}

fn prepared_plan_goes(prepared: &PreparedPlan) {
    goes(prepared)
}

fn prepared_plan_is_shared(prepared: &PreparedPlan) {
    is_shared(prepared)
}

fn root_state_goes(state: &RootState) {
    goes(state)
}

fn limited_plan_goes(limited: &LimitedPlan) {
    goes(limited)
}
