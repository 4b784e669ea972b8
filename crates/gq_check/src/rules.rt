//! The rules in the order of their sections (section 5).

ghost use Rattle.std.specs.Prelude.{◌≡◌, None, IsTrue, IfOk, option_map};
ghost use Rattle.rules_parts.specs.Broken.{broken_of};
ghost use Rattle.rules_parts.specs.Listing.{parts_of};
ghost use Rattle.rules_parts.specs.Parts.{parts_in};
ghost use Rattle.rules_spreads.specs.Graphs.{graph_of};
ghost use Rattle.rules_spreads.specs.Rules.{fragment_spreads_must_not_form_cycles};
ghost use Rattle.gq_check.specs.Report.{report_of};
ghost use Rattle.gq_check.specs.Verdict.{served_fault, operations_fault, fields_fault, arguments_fault, fragments_fault, spreads_fault, directives_fault, variables_fault, rules_fault, limits_fault, first_fault, breaks, IsMergingFault, IsVerdictOf};

use crate::fault::Rule;
use crate::report::Report;
use merging_fields::field_selection_merging;
use rules_parts::{Parts, Violation};
use rules_spreads::{Graph, fragment_spreads_must_not_form_cycles, too_deep};
use rules_typed::{
    all_variable_usages_are_allowed, argument_names, field_selections, fragment_spread_is_possible,
    fragment_spread_type_existence, fragments_on_composite_types, leaf_field_selections,
    required_arguments, values_of_correct_type, variables_are_input_types,
};
use rules_untyped::{
    VariableUses, all_variable_uses_defined, all_variables_used, argument_uniqueness,
    directives_are_defined, directives_are_in_valid_locations, directives_are_unique_per_location,
    fragment_name_uniqueness, fragment_spread_target_defined, fragments_must_be_used,
    is_too_complex, lone_anonymous_operation, not_served, operation_name_uniqueness,
    variable_uniqueness,
};
use std::alloc::{AllocError, Global};

// Returns what is reported of a rule.
fn report<'d>(rule: Rule, broken: Option<Violation<'d>>) -> Option<Report<'d>>
    ensures { option_map report_of result
        ≡ option_map (breaks rule) (option_map broken_of broken.entry) }
{
    match broken {
        Some(broken) => Some(Report::Breaks(rule, broken)),
        None => None,
    }
}

fn served_fault<'d>(parts: &Parts<'d>) -> Option<Report<'d>>
    ensures { option_map report_of result
        ≡ served_fault (parts_in parts.now) }
{
    match not_served(parts) {
        Some(broken) => Some(Report::NotServed(broken)),
        None => None,
    }
}

fn operations_fault<'d>(alloc: Global, parts: &Parts<'d>) -> Result<Option<Report<'d>>, AllocError>
    ensures { IfOk result (λ fault.
        option_map report_of fault ≡ operations_fault (parts_in parts.now)) }
{
    if let Some(broken) = operation_name_uniqueness(alloc, parts)? {
        return Ok(Some(Report::Breaks(Rule::OperationNameUniqueness, broken)));
    }
    Ok(report(
        Rule::LoneAnonymousOperation,
        lone_anonymous_operation(parts),
    ))
}

fn fields_fault<'d>(parts: &Parts<'d>) -> Option<Report<'d>>
    ensures { option_map report_of result
        ≡ fields_fault (parts_in parts.now) }
{
    if let Some(broken) = field_selections(parts) {
        return Some(Report::Breaks(Rule::FieldSelections, broken));
    }
    report(Rule::LeafFieldSelections, leaf_field_selections(parts))
}

fn arguments_fault<'d>(alloc: Global, parts: &Parts<'d>) -> Result<Option<Report<'d>>, AllocError>
    ensures { IfOk result (λ fault.
        option_map report_of fault ≡ arguments_fault (parts_in parts.now)) }
{
    if let Some(broken) = argument_names(parts) {
        return Ok(Some(Report::Breaks(Rule::ArgumentNames, broken)));
    }
    if let Some(broken) = argument_uniqueness(alloc, parts)? {
        return Ok(Some(Report::Breaks(Rule::ArgumentUniqueness, broken)));
    }
    Ok(report(Rule::RequiredArguments, required_arguments(parts)))
}

// Tells whether a document has neither fragments nor inline fragments, and spreads none.
fn has_no_fragments(parts: &Parts) -> bool
    ensures fragments { IsTrue result
        → fragments_fault (parts_in parts.now) ≡ None }
    ensures spreads { IsTrue result
        → spreads_fault (parts_in parts.now) ≡ None }
{
    parts.spreads.is_empty() && parts.inlines.is_empty() && parts.document.fragments.is_empty()
}

fn fragments_fault<'d>(alloc: Global, parts: &Parts<'d>) -> Result<Option<Report<'d>>, AllocError>
    ensures { IfOk result (λ fault.
        option_map report_of fault ≡ fragments_fault (parts_in parts.now)) }
{
    if has_no_fragments(parts) {
        return Ok(None);
    }
    if let Some(broken) = fragment_name_uniqueness(alloc, parts)? {
        return Ok(Some(Report::Breaks(Rule::FragmentNameUniqueness, broken)));
    }
    if let Some(broken) = fragment_spread_type_existence(parts) {
        return Ok(Some(Report::Breaks(Rule::FragmentSpreadTypeExistence, broken)));
    }
    if let Some(broken) = fragments_on_composite_types(parts) {
        return Ok(Some(Report::Breaks(Rule::FragmentsOnCompositeTypes, broken)));
    }
    let broken = fragments_must_be_used(alloc, parts)?;
    Ok(report(Rule::FragmentsMustBeUsed, broken))
}

fn spreads_fault<'d>(
    alloc: Global,
    parts: &Parts<'d>,
    graph: &Graph,
) -> Result<Option<Report<'d>>, AllocError>
    requires { graph.now ≡ graph_of (parts_in parts.now) }
    ensures { IfOk result (λ fault.
        option_map report_of fault ≡ spreads_fault (parts_in parts.now)) }
{
    if has_no_fragments(parts) {
        return Ok(None);
    }
    if let Some(broken) = fragment_spread_target_defined(parts) {
        return Ok(Some(Report::Breaks(Rule::FragmentSpreadTargetDefined, broken)));
    }
    if let Some(broken) = fragment_spreads_must_not_form_cycles(alloc, parts, graph)? {
        return Ok(Some(Report::Breaks(Rule::FragmentSpreadsMustNotFormCycles, broken)));
    }
    Ok(report(
        Rule::FragmentSpreadIsPossible,
        fragment_spread_is_possible(parts),
    ))
}

fn directives_fault<'d>(alloc: Global, parts: &Parts<'d>) -> Result<Option<Report<'d>>, AllocError>
    ensures { IfOk result (λ fault.
        option_map report_of fault ≡ directives_fault (parts_in parts.now)) }
{
    if parts.directive_lists.is_empty() {
        return Ok(None);
    }
    if let Some(broken) = directives_are_defined(parts) {
        return Ok(Some(Report::Breaks(Rule::DirectivesAreDefined, broken)));
    }
    if let Some(broken) = directives_are_in_valid_locations(parts) {
        return Ok(Some(Report::Breaks(Rule::DirectivesAreInValidLocations, broken)));
    }
    let broken = directives_are_unique_per_location(alloc, parts)?;
    Ok(report(Rule::DirectivesAreUniquePerLocation, broken))
}

// Tells whether a document has no variables, and uses none.
fn has_no_variables(parts: &Parts) -> bool
    ensures { IsTrue result
        → variables_fault (parts_in parts.now) ≡ None }
{
    if !parts.uses.is_empty() {
        return false;
    }
    if !parts.variables.is_empty() {
        return false;
    }
    let operations = parts.document.operations.as_slice();
    operations
        .iter()
        .all(|operation| operation.variables.is_empty())
}

// The fault of a document that may have variables.
fn fault_of_variables<'d>(
    alloc: Global,
    parts: &Parts<'d>,
    graph: &Graph,
) -> Result<Option<Report<'d>>, AllocError>
    requires { graph.now ≡ graph_of (parts_in parts.now) }
    ensures { IfOk result (λ fault.
        option_map report_of fault ≡ variables_fault (parts_in parts.now)) }
{
    if let Some(broken) = variable_uniqueness(alloc, parts)? {
        return Ok(Some(Report::Breaks(Rule::VariableUniqueness, broken)));
    }
    if let Some(broken) = variables_are_input_types(parts) {
        return Ok(Some(Report::Breaks(Rule::VariablesAreInputTypes, broken)));
    }
    let uses = VariableUses::new(alloc, parts)?;
    if let Some(broken) = all_variable_uses_defined(alloc, &uses, graph)? {
        return Ok(Some(Report::Breaks(Rule::AllVariableUsesDefined, broken)));
    }
    if let Some(broken) = all_variables_used(alloc, &uses, graph)? {
        return Ok(Some(Report::Breaks(Rule::AllVariablesUsed, broken)));
    }
    let broken = all_variable_usages_are_allowed(alloc, parts, graph)?;
    Ok(report(Rule::AllVariableUsagesAreAllowed, broken))
}

fn variables_fault<'d>(
    alloc: Global,
    parts: &Parts<'d>,
    graph: &Graph,
) -> Result<Option<Report<'d>>, AllocError>
    requires { graph.now ≡ graph_of (parts_in parts.now) }
    ensures { IfOk result (λ fault.
        option_map report_of fault ≡ variables_fault (parts_in parts.now)) }
{
    if has_no_variables(parts) {
        return Ok(None);
    }
    Ok(fault_of_variables(alloc, parts, graph)?)
}

// Returns what isn't served, and the rules.
fn rules_fault<'d>(
    alloc: Global,
    parts: &Parts<'d>,
    graph: &Graph,
) -> Result<Option<Report<'d>>, AllocError>
    requires { graph.now ≡ graph_of (parts_in parts.now) }
    ensures { IfOk result (λ fault. option_map report_of
        fault ≡ rules_fault (parts_in parts.now)) }
{
    if let Some(fault) = served_fault(parts) {
        return Ok(Some(fault));
    }
    if let Some(fault) = operations_fault(alloc, parts)? {
        return Ok(Some(fault));
    }
    if let Some(fault) = fields_fault(parts) {
        return Ok(Some(fault));
    }
    if let Some(fault) = arguments_fault(alloc, parts)? {
        return Ok(Some(fault));
    }
    if let Some(fault) = fragments_fault(alloc, parts)? {
        return Ok(Some(fault));
    }
    if let Some(fault) = spreads_fault(alloc, parts, graph)? {
        return Ok(Some(fault));
    }
    if let Some(fault) = report(Rule::ValuesOfCorrectType, values_of_correct_type(parts)) {
        return Ok(Some(fault));
    }
    if let Some(fault) = directives_fault(alloc, parts)? {
        return Ok(Some(fault));
    }
    Ok(variables_fault(alloc, parts, graph)?)
}

// Too many levels, and too many fields.
fn limits_fault<'d>(
    alloc: Global,
    parts: &Parts<'d>,
    graph: &Graph,
) -> Result<Option<Report<'d>>, AllocError>
    requires { graph.now ≡ graph_of (parts_in parts.now) }
    ensures { IfOk result (λ fault.
        option_map report_of fault ≡ limits_fault (parts_in parts.now)) }
{
    if let Some(broken) = too_deep(alloc, parts, graph)? {
        return Ok(Some(Report::TooDeep(broken.place)));
    }
    if is_too_complex(parts) {
        return Ok(Some(Report::TooComplex));
    }
    Ok(None)
}

// The first fault but those of Field Selection Merging.
fn first_fault<'d>(
    alloc: Global,
    parts: &Parts<'d>,
    graph: &Graph,
) -> Result<Option<Report<'d>>, AllocError>
    requires { graph.now ≡ graph_of (parts_in parts.now) }
    ensures { IfOk result (λ fault. option_map report_of
        fault ≡ first_fault (parts_in parts.now)) }
{
    match rules_fault(alloc, parts, graph)? {
        Some(fault) => Ok(Some(fault)),
        None => Ok(limits_fault(alloc, parts, graph)?),
    }
}

// Field Selection Merging, where nothing else is reported.
fn merging_fault<'d>(
    alloc: Global,
    parts: &Parts<'d>,
    graph: &Graph,
) -> Result<Option<Report<'d>>, AllocError>
    requires listed { parts_in parts.now
        ≡ parts_of (parts_in parts.now).definitions (parts_in parts.now).document }
    requires graph { graph.now
        ≡ graph_of (parts_in parts.now) }
    requires unreported { first_fault (parts_in parts.now)
        ≡ None }
    ensures { IfOk result (λ fault.
        IsMergingFault (parts_in parts.now) (option_map report_of fault)) }
{
    let broken = field_selection_merging(alloc, parts, graph)?;
    Ok(report(Rule::FieldSelectionMerging, broken))
}

/// The verdict on a document, by its parts and what its fragments spread.
pub fn verdict<'d>(
    alloc: Global,
    parts: &Parts<'d>,
    graph: &Graph,
) -> Result<Option<Report<'d>>, AllocError>
    requires listed { parts_in parts.now
        ≡ parts_of (parts_in parts.now).definitions (parts_in parts.now).document }
    requires graph { graph.now
        ≡ graph_of (parts_in parts.now) }
    ensures { IfOk result (λ fault. IsVerdictOf
        (parts_in parts.now) (option_map report_of fault)) }
{
    match first_fault(alloc, parts, graph)? {
        Some(fault) => Ok(Some(fault)),
        None => Ok(merging_fault(alloc, parts, graph)?),
    }
}
