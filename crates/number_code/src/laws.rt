//! Laws of the code of programs of numbers.
ghost use Rattle.number_code.specs.Laws.{CodeIsBuilt, CodeFits, CodeIsCalm, MainFits, NoFrames};

/// The mid code of a program of numbers has flat code.
pub fn code_is_built()
    ensures { CodeIsBuilt }
{}

/// Each function of its flat code is one that the selection of instructions is proved for.
pub fn code_fits()
    ensures { CodeFits }
{
    flat_discipline::laws::plain_items_are_read();
}

/// None of its steps accesses memory, or looks into the size table.
pub fn code_is_calm()
    ensures { CodeIsCalm }
{}

/// The first function that is called is there, and has no parameters.
pub fn main_fits()
    ensures { MainFits }
{}

/// It has no global objects, and no frame of its functions has objects.
pub fn no_frames()
    ensures { NoFrames }
{}
