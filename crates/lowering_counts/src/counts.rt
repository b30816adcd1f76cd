//! What a program has, counted in one walk over each of its functions.
ghost use Rattle.std.specs.Prelude.{◌≡◌, IfOk, map, drop, if◌then◌else◌};
ghost use Rattle.typed_tree.specs.Counts as tree;
ghost use Rattle.typed_tree.specs.TypedViews.{local_of, function_of, program_of};
ghost use Rattle.lowering_counts.specs.Built as judged;
ghost use Rattle.lowering_counts.specs.Counting.{IsCounted};
ghost use Rattle.lowering_counts.specs.Limits.{counted};

use crate::built::{are_built_locals, is_built_beside_functions};
use crate::survey::{both, has_pointer};
use crate::survey_stmt::survey_stmt;
use bb_words::list::List;
use std::alloc::{AllocError, Global};
use typed_tree::typed::{Function, Local, Program};

/// What a program has, each count up to the greatest `u32`, and whether it is built.
#[derive(Drop)]
pub struct ProgramCounts {
    /// The nodes of all functions.
    pub nodes: u32,
    /// The values of each function, in their order.
    pub values: List<u32>,
    /// Whether the program is built.
    pub built: bool,
}

/// What a function has, each count up to the greatest `u32`, and whether it is built.
#[derive(Clone, Copy)]
struct FunctionCounts {
    nodes: u32,
    values: u32,
    built: bool,
}

/// A local that does not lie in memory is one value.
fn value_of(local: &Local) -> u32
    ensures { result ≡ (if local.now.is_block then 0 else 1) }
{
    if local.is_block { 0 } else { 1 }
}

/// How many of these locals are values.
fn value_locals(locals: &[Local]) -> u32
    ensures { result ≡ counted (tree.value_locals (map local_of locals.now)) }
{
    let mut count: u32 = 0;
    for local in locals {
        count = count.saturating_add(value_of(local));
    }
    count
}

/// How many of the locals after the parameters are values.
fn other_values(locals: &[Local], params: usize) -> u32
    ensures { result ≡ counted (tree.value_locals (drop params (map local_of locals.now))) }
{
    if locals.len() < params {
        return 0;
    }
    value_locals(&locals[params..])
}

/// What a function has.
fn counts_of_function(f: &Function) -> FunctionCounts
    ensures nodes { result.nodes ≡ counted (tree.nodes_of_function (function_of f.now)) }
    ensures values { result.values ≡ counted (tree.values_of (function_of f.now)) }
    ensures built { result.built ≡ judged.is_built_function (function_of f.now) }
{
    let body = survey_stmt(&f.body);
    let locals = f.locals.as_slice();
    let others = other_values(locals, f.params as usize);
    let kept = are_built_locals(locals);
    FunctionCounts {
        nodes: f.params.saturating_add(1).saturating_add(body.nodes),
        values: f.params.saturating_add(others).saturating_add(body.temps),
        built: !has_pointer(&f.result) && kept && body.built,
    }
}

/// What a program has.
pub fn counts_of(alloc: Global, program: &Program) -> Result<ProgramCounts, AllocError>
    ensures { IfOk result (λ counts. IsCounted (program_of program.now) counts) }
{
    let beside = is_built_beside_functions(program);
    let functions = program.functions.as_slice();
    let mut nodes: u32 = 0;
    let mut values = List::new(alloc);
    let mut built = true;
    for f in functions {
        let one = counts_of_function(f);
        nodes = nodes.saturating_add(one.nodes);
        values.push(one.values)?;
        built = both(built, one.built);
    }
    Ok(ProgramCounts {
        nodes,
        values,
        built: both(beside, built),
    })
}
