//! Laws of the typed tree.
ghost use Rattle.typed_tree.specs.SizeLaws.{CompleteLiesAligned, MembersLieWithin, MembersLieApart, ArrayIsElements, NoneInItself};
ghost use Rattle.typed_tree.specs.TypedLaws.{TypesAreSmall, UndefinedIsEmpty, TempsAtLeastFour, FortyTwo, ManyLocals};
ghost use Rattle.typed_tree.specs.TypedLaws.{Mixed, Temporaries, Nodes, Referred, Strings, AggregatesHaveObjects};
ghost use Rattle.typed_tree.specs.TypedRefused.{NotTyped, LinesCount};

/// No type of a typed program has more than 1,048,576 bytes.
pub fn types_are_small()
    ensures { TypesAreSmall }
{}

/// A tag that is never defined has size 0 and alignment 1.
pub fn undefined_is_empty()
    ensures { UndefinedIsEmpty }
{}

/// An object of a complete type has at least 1 byte, an alignment of 1 or 4, and a multiple of it as its size.
pub fn complete_lies_aligned()
    ensures { CompleteLiesAligned }
{}

/// A member lies within its struct, at a multiple of its alignment.
pub fn members_lie_within()
    ensures { MembersLieWithin }
{}

/// Members of one struct share no byte.
pub fn members_lie_apart()
    ensures { MembersLieApart }
{}

/// An array's size is that of its elements together.
pub fn array_is_elements()
    ensures { ArrayIsElements }
{}

/// No struct lies in itself.
pub fn none_in_itself()
    ensures { NoneInItself }
{}

/// Each expression has 4 temporaries or more.
pub fn temps_at_least_four()
    ensures { TempsAtLeastFour }
{}

/// The tree of `int main(void){return 42;}` is typed and has 4 nodes.
pub fn forty_two()
    ensures { FortyTwo }
{}

/// A `main` with 247 locals has 251 values.
pub fn many_locals()
    ensures { ManyLocals }
{}

/// The layout of a struct with a `char`, an `int`, an array and a pointer.
pub fn mixed()
    ensures { Mixed }
{}

/// Temporaries of small expressions.
pub fn temporaries()
    ensures { Temporaries }
{}

/// Nodes of small expressions and statements.
pub fn nodes()
    ensures { Nodes }
{}

/// Where `&` is found.
pub fn referred()
    ensures { Referred }
{}

/// Strings are arrays of their bytes and a zero.
pub fn strings()
    ensures { Strings }
{}

/// A struct or an array is found in an object, also where it is no place.
pub fn aggregates_have_objects()
    ensures { AggregatesHaveObjects }
{}

/// For each rule a small program that breaks it, and none of them is typed.
pub fn not_typed()
    ensures { NotTyped }
{}

/// Lines are 1 to 1,048,575.
pub fn lines_count()
    ensures { LinesCount }
{}
