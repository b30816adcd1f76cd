//! Laws of lowering.
ghost use Rattle.lowering_keeps.specs.Laws.{CodeKeeps, CodeIsLight, CodeIsFormed, FortyTwoExits};

use typed_tree::typed_laws::{aggregates_have_objects, temps_at_least_four, types_are_small};

/// The code of a typed program that is built means what the program means, within its cost.
pub fn code_keeps()
    ensures { CodeKeeps }
{
    types_are_small();
    aggregates_have_objects();
}

/// The code of a typed program that is built comes to at most 504 bytes for each node.
pub fn code_is_light()
    ensures { CodeIsLight }
{
    types_are_small();
    aggregates_have_objects();
}

/// The code of a typed program that is built is well formed.
pub fn code_is_formed()
    ensures { CodeIsFormed }
{
    types_are_small();
    aggregates_have_objects();
    temps_at_least_four();
}

/// The code of `int main(void){return 42;}` exits with 42.
pub fn forty_two_exits()
    ensures { FortyTwoExits }
{}
