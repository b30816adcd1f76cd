//! Each rule of the operators that takes memory, with ample memory. Which rule a file breaks is said by the laws of typing.
use c_words::operators::{AssignOperator, BinaryOperator, StepOperator, UnaryOperator};
use c_words::place::At;
use std::alloc::Global;
use std::test::Fail;
use typed_tree::typed_expr::{TypedExpr, TypedForm};
use typed_tree::types::Ty;
use typing_operators::assignments::assign;
use typing_operators::binary::{binary, comma, conditional};
use typing_operators::error::TypeError;
use typing_operators::places::{arrow, index};
use typing_operators::unary::{cast, measured_type, step_after, unary};

const AT: At = At { token: 3, line: 1 };

fn local(ty: Ty) -> TypedExpr {
    TypedExpr {
        at: AT,
        ty,
        form: TypedForm::Local(0),
    }
}

fn number(n: u32) -> TypedExpr {
    TypedExpr {
        at: AT,
        ty: Ty::Int,
        form: TypedForm::Number(n),
    }
}

// The rule that was broken, or 0.
fn rule_of(answer: Result<TypedExpr, TypeError>) -> u8 {
    match answer {
        Ok(_) => 0,
        Err(TypeError::BadType { rule, .. }) => rule,
        Err(_) => 255,
    }
}

fn sum(alloc: Global) -> Result<TypedExpr, TypeError> {
    binary(alloc, &[], AT, BinaryOperator::Add, number(1), number(2))
}

#[test]
fn two_operands(rt: HostRuntime) -> Result<(), Fail> {
    let alloc = rt.alloc();
    assert_eq!(rt; rule_of(sum(alloc)), 0);
    let both = comma(alloc, AT, number(1), number(2))?;
    assert!(rt; matches!(&both.ty, Ty::Int));
    assert_eq!(rt;
        rule_of(conditional(alloc, AT, number(1), number(2), number(3))),
        0
    );
    let place = local(Ty::Int);
    assert_eq!(rt;
        rule_of(assign(alloc, &[], AT, AssignOperator::Add, place, number(1))),
        0
    );
    Ok(())
}

#[test]
fn one_operand(rt: HostRuntime) -> Result<(), Fail> {
    let alloc = rt.alloc();
    assert_eq!(rt;
        rule_of(unary(alloc, &[], AT, UnaryOperator::Address, local(Ty::Int))),
        0
    );
    assert_eq!(rt;
        rule_of(step_after(alloc, &[], AT, StepOperator::Decrement, local(Ty::Int))),
        0
    );
    assert_eq!(rt; rule_of(cast(alloc, AT, Ty::Char, number(300))), 0);
    assert_eq!(rt; rule_of(measured_type(&[], AT, Ty::Int)), 0);
    let a = local(Ty::array(alloc, Ty::Int, 3)?);
    assert_eq!(rt; rule_of(index(alloc, &[], AT, a, number(0))), 0);
    assert_eq!(rt; rule_of(arrow(alloc, &[], AT, number(1), b"m")), 12);
    Ok(())
}
