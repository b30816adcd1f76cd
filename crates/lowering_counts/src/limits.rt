//! The limits on the nodes of a program and on the values of a function.
ghost use Rattle.std.specs.Prelude.{◌≡◌, IfOk, map};
ghost use Rattle.typed_tree.specs.TypedViews.{function_of, program_of};
ghost use Rattle.lowering_counts.specs.Counting.{IsCounted, counted_values};
ghost use Rattle.lowering_counts.specs.Limits.{Fit, IsWithin};

use crate::counts::{ProgramCounts, counts_of};
use crate::error::LowerError;
use bb_words::list::List;
use std::alloc::Global;
use typed_tree::typed::{Function, Program};

/// How many nodes the functions of a program may have.
pub const MOST_NODES: u32 = 4096;

/// How many values a function may have.
pub const MOST_VALUES: u32 = 250;

/// Looks for the first function that has too many values, of which each function has as many as `values` says.
fn check_values(alloc: Global, functions: &[Function], values: &[u32]) -> Result<(), LowerError>
    requires { values.now ≡ counted_values (map function_of functions.now) }
    ensures { Fit (map function_of functions.now) result }
{
    for (number, f) in functions.iter().enumerate() {
        let count = values[number];
        if count > MOST_VALUES {
            let function = List::copy_of(alloc, f.name.as_slice())?;
            return Err(LowerError::TooManyValues { function, count });
        }
    }
    Ok(())
}

/// What a program has that is within the limits: on its nodes first, and then on the values of its functions, in their order;
/// or the first limit that the program passes.
pub fn within_limits(alloc: Global, program: &Program) -> Result<ProgramCounts, LowerError>
    ensures limits { IsWithin (program_of program.now) result }
    ensures counts { IfOk result (λ counts. IsCounted (program_of program.now) counts) }
{
    let counts = counts_of(alloc, program)?;
    if counts.nodes > MOST_NODES {
        return Err(LowerError::TooManyNodes {
            count: counts.nodes,
        });
    }
    let functions = program.functions.as_slice();
    check_values(alloc, functions, counts.values.as_slice())?;
    Ok(counts)
}
