//! The code of functions and of whole programs.
ghost use Rattle.std.specs.Prelude.{◌≡◌, ◌≤◌, true, IfOk, All, length, map};
ghost use Rattle.typed_tree.specs.Counts as tree;
ghost use Rattle.typed_tree.specs.TypedViews.{struct_of, function_of, program_of};
ghost use Rattle.mid_code.specs.Views as mid;
ghost use Rattle.mid_code.specs.Views.{function_of as mid_function};
ghost use Rattle.lowering_counts.specs.Built as built;
ghost use Rattle.lowering_counts.specs.Counting.{counted_values};
ghost use Rattle.lowering_counts.specs.Limits.{counted, HasRoom};
ghost use Rattle.lowering_code.specs.Lower as lower;
ghost use Rattle.lowering_code.specs.Lower.{function_code};
ghost use Rattle.lowering_code.specs.Ready.{IsReady};

use crate::code_stmt::code_stmt;
use crate::emit::{block, put};
use bb_words::list::List;
use mid_code::code::{Mid, MidFunction};
use std::alloc::{AllocError, Global};
use typed_tree::typed::{Function, Program};
use typed_tree::types::StructType;

/// The code of a function with so many values, the first of which are its locals.
fn code_function(
    alloc: Global,
    structs: &[StructType],
    f: &Function,
    values: u32,
) -> Result<MidFunction, AllocError>
    requires ready { IsReady (function_of f.now) }
    requires values { values ≡ counted (tree.values_of (function_of f.now)) }
    ensures { IfOk result (λ code. mid_function code ≡ function_code (map struct_of structs.now) (function_of f.now)) }
{
    let locals = f.locals.len() as u32;
    let mut inner = Vec::new(alloc);
    code_stmt(alloc, structs, &f.body, 1, locals, &mut inner)?;
    let mut body = Vec::new(alloc);
    put(&mut body, block(inner))?;
    Ok(MidFunction {
        line: f.line,
        values,
        params: f.params,
        blocks: List::new(alloc),
        body,
    })
}

/// The code of all functions, of which each has as many values as `values` says.
fn code_functions(
    alloc: Global,
    structs: &[StructType],
    functions: &[Function],
    values: &[u32],
) -> Result<List<MidFunction>, AllocError>
    requires ready { All IsReady (map function_of functions.now) }
    requires values { values.now ≡ counted_values (map function_of functions.now) }
    ensures { IfOk result (λ code. map mid_function code ≡ map (function_code (map struct_of structs.now)) (map function_of functions.now)) }
{
    let mut code = List::new(alloc);
    for (number, f) in functions.iter().enumerate() {
        code.push(code_function(alloc, structs, f, values[number])?)?;
    }
    Ok(code)
}

/// The code of a program that is built and within the limits, each of whose functions has as many values as `values` says.
pub fn lowered(alloc: Global, program: &Program, values: &[u32]) -> Result<Mid, AllocError>
    requires built { built.is_built (program_of program.now) ≡ true }
    requires room { HasRoom (program_of program.now) }
    requires params { All (λ f. f.params ≤ length f.locals) (program_of program.now).functions }
    requires values { values.now ≡ counted_values (program_of program.now).functions }
    ensures { IfOk result (λ code. mid.program_of code ≡ lower.lowered (program_of program.now)) }
{
    let structs = program.structs.as_slice();
    let functions = program.functions.as_slice();
    let functions = code_functions(alloc, structs, functions, values)?;
    Ok(Mid {
        named: 0,
        globals: List::new(alloc),
        functions,
        main: program.main,
    })
}
