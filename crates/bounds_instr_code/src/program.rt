//! The flat code of functions and of whole programs.
ghost use Rattle.std.specs.Prelude.{◌≡◌, ◌≤◌, ◌+◌, IfOk, All, map, true};
ghost use Rattle.mid_code.specs.Views.{program_of};
ghost use Rattle.mid_code.specs.Views as mid;
ghost use Rattle.flat_code.specs.CodeViews as flat;
ghost use Rattle.bounds_instr_code.specs.Built as built;
ghost use Rattle.bounds_instr_code.specs.Code as instr;
ghost use Rattle.bounds_instr_code.specs.Code.{HasRoom};

use crate::code_steps::code_steps;
use bb_words::list::List;
use flat_code::code::{Flat, FlatFunction};
use mid_code::code::{Mid, MidFunction};
use std::alloc::{AllocError, Global};

/// How many temporaries a function has.
pub const TEMPORARIES: u32 = 5;

/// The flat code of a function without block locals, for slots of 2^g bytes.
fn code_function(alloc: Global, g: u8, f: &MidFunction) -> Result<FlatFunction, AllocError>
    requires room { f.now.values ≤ 250 }
    requires least { 1 ≤ g }
    requires most { g ≤ 24 }
    ensures { IfOk result (λ code. flat.function_of code ≡ instr.frameless_code g (mid.function_of f.now)) }
{
    let mut body = Vec::new(alloc);
    code_steps(alloc, g, f.values, &f.body, &mut body)?;
    Ok(FlatFunction {
        values: f.values + TEMPORARIES,
        params: f.params,
        frame: 0,
        line: f.line,
        body: List::from_vec(body),
    })
}

/// The flat code of all functions.
fn code_functions(
    alloc: Global,
    g: u8,
    functions: &[MidFunction],
) -> Result<List<FlatFunction>, AllocError>
    requires room { All HasRoom (map mid.function_of functions.now) }
    requires least { 1 ≤ g }
    requires most { g ≤ 24 }
    ensures { IfOk result (λ code. map flat.function_of code ≡ map (instr.frameless_code g) (map mid.function_of functions.now)) }
{
    let mut code = List::new(alloc);
    for f in functions {
        code.push(code_function(alloc, g, f)?)?;
    }
    Ok(code)
}

/// The flat code of a program whose forms are built, for slots of 2^g bytes.
pub fn instrumented(alloc: Global, g: u8, mid: &Mid) -> Result<Flat, AllocError>
    requires built { built.is_built (program_of mid.now) ≡ true }
    requires room { All HasRoom (program_of mid.now).functions }
    requires least { 2 ≤ g }
    requires most { g ≤ 24 }
    ensures { IfOk result (λ code. flat.code_of code ≡ instr.instrumented g (program_of mid.now)) }
{
    injection::laws::frames_are_alike();
    let functions = code_functions(alloc, g, mid.functions.as_slice())?;
    Ok(Flat {
        functions,
        main: mid.main,
        initial: List::new(alloc),
    })
}
