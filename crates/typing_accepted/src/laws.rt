//! The typing functions accept what the relation accepts.
ghost use Rattle.typing_accepted.specs.AcceptanceLaws.{ExpressionsAreTyped, ArgumentsAreTyped, TypeNamesAreTyped, StructsAreTyped, InitializersAreTyped};
ghost use Rattle.typing_accepted.specs.AcceptanceLaws.{StatementsAreTyped, ExternalsAreTyped, AcceptedIsTyped, AcceptedAsOne, AcceptedKeepsRules};
ghost use Rattle.typing_accepted.specs.AcceptanceLaws.{ArgumentsFailAtFirst, ItemsFailAtFirst, LocalsFailAtFirst, DeclaratorsFailAtFirst, FilesFailAtFirst};

use typing_unit_keeps::laws::files_are_typed;

/// An expression is accepted as another where typing gives that one.
pub fn expressions_are_typed()
    ensures { ExpressionsAreTyped }
{}

/// The arguments of a call are accepted where typing gives them.
pub fn arguments_are_typed()
    ensures { ArgumentsAreTyped }
{}

/// A type name names a type where typing gives that type.
pub fn type_names_are_typed()
    ensures { TypeNamesAreTyped }
{}

/// The definition of a struct is accepted where typing gives its number.
pub fn structs_are_typed()
    ensures { StructsAreTyped }
{}

/// The initializer of a declared object is accepted as a typed one where typing gives that one.
pub fn initializers_are_typed()
    ensures { InitializersAreTyped }
{}

/// A statement is accepted as a typed one where typing gives that one.
pub fn statements_are_typed()
    ensures { StatementsAreTyped }
{}

/// A declaration or a definition of a file is accepted where typing gives the file behind it.
pub fn externals_are_typed()
    ensures { ExternalsAreTyped }
{}

/// A file is accepted as a program exactly where typing gives that program.
pub fn accepted_is_typed()
    ensures { AcceptedIsTyped }
{}

/// A file is accepted as one program.
pub fn accepted_as_one()
    ensures { AcceptedAsOne }
{}

/// The program of an accepted file whose literals are those of their types keeps every rule of typing.
pub fn accepted_keeps_rules()
    ensures { AcceptedKeepsRules }
{
    files_are_typed();
}

/// The arguments of a call are refused where all before one are accepted and that one is refused.
pub fn arguments_fail_at_first()
    ensures { ArgumentsFailAtFirst }
{}

/// What stands in a block is refused where all before one part of it is accepted and that part is refused.
pub fn items_fail_at_first()
    ensures { ItemsFailAtFirst }
{}

/// The declarators of a declaration in a block are refused where all before one are accepted and that one is refused.
pub fn locals_fail_at_first()
    ensures { LocalsFailAtFirst }
{}

/// The declarators of a declaration of the file are refused where all before one are accepted and that one is refused.
pub fn declarators_fail_at_first()
    ensures { DeclaratorsFailAtFirst }
{}

/// A file is refused where all its declarations before one are accepted and that one is refused; or behind its text, for
/// a function that is called and not defined, or for want of `main`.
pub fn files_fail_at_first()
    ensures { FilesFailAtFirst }
{}
