//! Laws of what a plan asks, with no code that runs: collection of fields ends, more levels than a plan has change nothing, and
//! each field that execution can meet is defined and bound. An answer that has the headline of a plan's program has that of the plan.
//!
//! The definitions of `plan_program` are total: they count down as they enter fragments and objects, and give null where a
//! definition, a binding or a loader is lacking. The laws ([`law`]), each carried by a function that does nothing, say that these
//! counts cut nothing off, and that a plan of a valid document over bindings of its own schema lacks none of these. Sessions and workers know no
//! plan; here both meet ([`answers_of_plans`](law::answers_of_plans)).
#![tactic(auto)]

pub mod law;
