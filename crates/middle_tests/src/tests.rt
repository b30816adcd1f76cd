//! A program goes from its typed tree to mid code and to flat code, and that is verified, where memory is not wanting.
ghost use Rattle.std.specs.Prelude.{◌≡◌, [], IfOk, codes};
ghost use Rattle.typed_tree.specs.TypedLaws as laws;
ghost use Rattle.typed_tree.specs.TypedViews.{stmt_of, program_of};

use bb_words::list::List;
use bb_words::steps::Width;
use bb_words::word::Word;
use bounds_instr::instrument::instrument;
use c_words::place::{At, Name};
use flat_code::code::{Flat, FlatFunction, FlatStep};
use flat_verify::error::VerifyError;
use flat_verify::global_blocks::GlobalBlocks;
use flat_verify::verify::verify;
use lowering::lower::lower;
use std::alloc::{AllocError, Global};
use std::test::Fail;
use typed_tree::typed::{Function, Program};
use typed_tree::typed_expr::{TypedExpr, TypedForm};
use typed_tree::typed_laws;
use typed_tree::typed_stmt::TypedStmt;
use typed_tree::types::Ty;

/// `{return 42;}`
#[tactic(auto, using(typed_tree::proofs::TypedViewed::typed_views))]
fn body(alloc: Global) -> Result<TypedStmt, Fail>
    ensures { IfOk result (λ s. stmt_of s ≡ (laws.main_function [] (laws.return_number 42)).body) }
{
    let value = TypedExpr {
        at: At { token: 7, line: 1 },
        ty: Ty::Int,
        form: TypedForm::Number(42),
    };
    let mut statements = Vec::new(alloc);
    statements.push(TypedStmt::Return(At { token: 6, line: 1 }, Some(value)))?;
    Ok(TypedStmt::Block(At { token: 5, line: 1 }, statements))
}

fn main_name(alloc: Global) -> Result<Name, AllocError>
    ensures { IfOk result (λ name. name ≡ codes "main") }
{
    let mut name = List::new(alloc);
    name.push(b'm')?;
    name.push(b'a')?;
    name.push(b'i')?;
    name.push(b'n')?;
    Ok(name)
}

/// `int main(void){return 42;}`
fn forty_two(alloc: Global) -> Result<Program, Fail>
    ensures { IfOk result (λ p. program_of p ≡ laws.forty_two) }
{
    let mut functions = List::new(alloc);
    functions.push(Function {
        name: main_name(alloc)?,
        line: 1,
        result: Ty::Int,
        params: 0,
        locals: List::new(alloc),
        body: body(alloc)?,
    })?;
    Ok(Program {
        structs: List::new(alloc),
        globals: List::new(alloc),
        texts: List::new(alloc),
        functions,
        main: 0,
    })
}

#[test]
fn goes_to_flat_code(rt: HostRuntime) -> Result<(), Fail> {
    let alloc = rt.alloc();
    typed_laws::forty_two();
    let program = forty_two(alloc)?;
    let mid = lower(alloc, &program)?;
    let values = match mid.functions.as_slice().first() {
        Some(f) => f.values,
        None => 0,
    };
    assert_eq!(rt; values, 4);
    let flat = instrument(alloc, &mid, 4)?;
    assert_eq!(rt; flat.functions.len(), 1);
    let layout = no_globals(alloc);
    let verified = verify(alloc, &flat, &layout, 4)?;
    assert_eq!(rt; verified.exponent, 4);
    Ok(())
}

fn no_globals(alloc: Global) -> GlobalBlocks
    ensures { result.globals ≡ [] }
{
    GlobalBlocks {
        globals: List::new(alloc),
    }
}

/// One function of one value, which becomes 7 and then the byte at that address.
fn loads_a_number(alloc: Global) -> Result<Flat, AllocError> {
    let mut body = List::new(alloc);
    body.push(FlatStep::Number {
        to: 0,
        value: Word(7),
    })?;
    body.push(FlatStep::Load {
        to: 0,
        at: 0,
        width: Width::Byte,
    })?;
    let mut functions = List::new(alloc);
    functions.push(FlatFunction {
        values: 1,
        params: 0,
        frame: 0,
        line: 1,
        body,
    })?;
    Ok(Flat {
        functions,
        main: 0,
        initial: List::new(alloc),
    })
}

#[test]
fn number_is_no_address(rt: HostRuntime) -> Result<(), Fail> {
    let alloc = rt.alloc();
    let flat = loads_a_number(alloc)?;
    let layout = no_globals(alloc);
    let place = match verify(alloc, &flat, &layout, 4) {
        Err(VerifyError::Unchecked { function: 0, place }) => Some(place),
        _ => None,
    };
    assert_eq!(rt; place, Some(1));
    Ok(())
}
