//! From a text to its typed program.
ghost use Rattle.std.specs.Prelude.{◌<◌, ◌^◌, length};
ghost use Rattle.typed_tree.specs.Typed.{Typed};
ghost use Rattle.typed_tree.specs.TypedViews.{program_of};
ghost use Rattle.bb_driver.specs.Sources.{ReadsProgram, LaysOut, Checks};

use crate::error::CompileError;
use block_layout::frame::frame;
use block_layout::globals::{Layout, globals};
use block_layout::laws::typed_has_small_objects;
use c_lexer::lex;
use c_parser::parse;
use lowering_counts::limits::within_limits;
use std::alloc::Global;
use syntax_in_range::text_is_in_range;
use typed_tree::typed::Program;
use typing_accepted::laws::{accepted_is_typed, files_fail_at_first};
use typing_unit::unit::type_unit;

/// The typed program of a text (C11 5.1.1.2, 6.4 to 6.9), or the first refusal of tokens, grammar and typing.
pub fn read(alloc: Global, text: &[u8]) -> Result<Program, CompileError>
    requires { length text.now < 2 ^ 32 }
    ensures { ReadsProgram text.now result }
{
    text_is_in_range();
    accepted_is_typed();
    files_fail_at_first();
    let tokens = lex(alloc, text)?;
    let unit = parse(alloc, &tokens)?;
    let program = type_unit(alloc, &unit)?;
    Ok(program)
}

/// Where the global objects of a typed program lie; or the first of its objects that have no room: the global ones, or the block
/// locals of a function.
pub fn lay_out(alloc: Global, program: &Program) -> Result<Layout, CompileError>
    requires { Typed (program_of program.now) }
    ensures { LaysOut (program_of program.now) result }
{
    typed_has_small_objects();
    let layout = globals(alloc, program)?;
    for function in program.functions.as_slice() {
        frame(alloc, function)?;
    }
    Ok(layout)
}

/// Whether a text is accepted: read, and within the limits of the compiler.
pub fn check(alloc: Global, text: &[u8]) -> Result<(), CompileError>
    requires { length text.now < 2 ^ 32 }
    ensures { Checks text.now result }
{
    let program = read(alloc, text)?;
    lay_out(alloc, &program)?;
    within_limits(alloc, &program)?;
    Ok(())
}
