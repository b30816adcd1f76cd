//! From mid code to flat code.
ghost use Rattle.std.specs.Prelude.{◌≤◌};
ghost use Rattle.mid_code.specs.Formed.{Formed};
ghost use Rattle.mid_code.specs.Views.{program_of};
ghost use Rattle.bounds_instr.specs.Instruments.{IsInstrumented};

use crate::error::InstrError;
use bounds_instr_accepted::laws::{instrumented_is_disciplined, instrumented_is_light};
use bounds_instr_code::built::is_built;
use bounds_instr_code::program::instrumented;
use bounds_instr_keeps::laws::instrumented_keeps;
use flat_code::code::Flat;
use mid_code::code::Mid;
use std::alloc::Global;

/// The flat code of a program that is well formed, for slots of 2^g bytes: it does what the program does, for every input and
/// every bound on turns and nested calls, within the program's time, it keeps the discipline, and it weighs no more than the
/// program does, but for the start code and the library. Or the program has a form that is not built.
pub fn instrument(alloc: Global, mid: &Mid, g: u8) -> Result<Flat, InstrError>
    requires formed { Formed (program_of mid.now) }
    requires least { 2 ≤ g }
    requires most { g ≤ 24 }
    ensures { IsInstrumented g (program_of mid.now) result }
{
    instrumented_keeps();
    instrumented_is_disciplined();
    instrumented_is_light();
    if !is_built(mid) {
        return Err(InstrError::NotBuilt);
    }
    let flat = instrumented(alloc, g, mid)?;
    Ok(flat)
}
