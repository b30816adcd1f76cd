//! From a typed program to its code.
ghost use Rattle.typed_tree.specs.Typed.{Typed, HasLines};
ghost use Rattle.typed_tree.specs.TypedViews.{program_of};
ghost use Rattle.lowering.specs.Lowers.{IsLowered};

use lowering_code::program::lowered;
use lowering_counts::error::LowerError;
use lowering_counts::limits::within_limits;
use lowering_keeps::laws::{code_is_formed, code_is_light, code_keeps};
use mid_code::code::Mid;
use std::alloc::Global;
use typed_tree::typed::Program;

/// The code of a typed program whose lines are those of a text: what it means for every size of slot, every input and every
/// bound on turns and nested calls, within its cost; or the first limit that the program passes.
pub fn lower(alloc: Global, program: &Program) -> Result<Mid, LowerError>
    requires typed { Typed (program_of program.now) }
    requires lines { HasLines (program_of program.now) }
    ensures { IsLowered (program_of program.now) result }
{
    code_keeps();
    code_is_light();
    code_is_formed();
    let counts = within_limits(alloc, program)?;
    if !counts.built {
        return Err(LowerError::NotBuilt);
    }
    let mid = lowered(alloc, program, counts.values.as_slice())?;
    Ok(mid)
}
