//! The operations of a document in spans, as the rules on variables take them.

ghost use Rattle.std.specs.Prelude.{◌≡◌, ◌<◌, ◌≤◌, ◌+◌, ◌^◌, IfOk, length};
ghost use Rattle.rules_spreads.specs.OperationSpans.{AreReachers};

use crate::graph::Graph;
use crate::operation_set::{OperationSet, span_len};
use crate::reaching::reachers;
use gq_parser::Operation;
use std::alloc::{AllocError, Global};

/// Some operations in a row: `count` of a document's `operations`, from `first` on. `reached_numbers` says of each fragment which of
/// them reach it.
#[derive(Drop)]
pub struct OperationSpan<'d> {
    pub operations: &'d [Operation],
    pub first: usize,
    pub count: usize,
    pub reached: Vec<OperationSet>,
    ghost low: { first < 2 ^ 63 },
    ghost few: { count ≤ 64 },
    ghost within: { first + count ≤ length operations.now },
}

impl<'d> OperationSpan<'d> {
    /// The span that begins with the operation `first`.
    ///
    /// Takes two passes over what the fragments spread, where there is no cycle.
    pub fn new(
        alloc: Global,
        operations: &'d [Operation],
        graph: &Graph,
        first: usize,
    ) -> Result<OperationSpan<'d>, AllocError>
        requires { first < length operations.now }
        ensures operations { IfOk result
            (λ span. span.operations.now ≡ operations.now) }
        ensures first { IfOk result
            (λ span. span.first ≡ first) }
        ensures some { IfOk result
            (λ span. 0 < span.count) }
        ensures reached { IfOk result (λ span.
            AreReachers graph.now first span.count span.reached.items) }
    {
        let count = span_len(first, operations.len());
        let reached = reachers(alloc, graph, graph.edges(), first, count)?;
        Ok(OperationSpan {
            operations,
            first,
            count,
            reached,
        })
    }
}
