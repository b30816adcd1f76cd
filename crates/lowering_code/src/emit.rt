//! Steps, one after another.
ghost use Rattle.std.specs.Prelude.{min, ◌≤◌, ◌≡◌, ◌+◌, ◌<◌, ◌^◌, OnOk, IfOk, map};
ghost use Rattle.typed_tree.specs.Types.{CType, is_unsigned as unsigned_type};
ghost use Rattle.typed_tree.specs.TypesViewed.{ty_of};
ghost use Rattle.source_meaning.specs.Operators.{binary_of as operator_of, is_shift as shifts};
ghost use Rattle.typed_tree.specs.TypedViews.{struct_of};
ghost use Rattle.typed_tree.specs.Sizes.{size_of as bytes_of};
ghost use Rattle.bb_words.specs.Answers.{either};
ghost use Rattle.mid_code.specs.Code.{append};
ghost use Rattle.mid_code.specs.Code.Step.{Number, Same, Arith, If, Block, Loop, Exit, Return, LineMark};
ghost use Rattle.mid_code.specs.Views.{step_of, steps_of};
ghost use Rattle.lowering_code.specs.Lower as lower;
ghost use Rattle.lowering_code.specs.Lower.{only};

use bb_words::steps::{ArithOp, DivideOp};
use bb_words::word::Word;
use c_words::operators::{AssignOperator, BinaryOperator, StepOperator, UnaryOperator};
use mid_code::code::MidStep;
use std::alloc::{AllocError, Global};
use typed_tree::types::{StructType, Ty};

/// The number of the value after this one. There is none after the greatest `u32`, which no function has room for: its
/// values are counted before its code is made.
pub fn after(to: u32) -> Result<u32, AllocError>
    ensures next { IfOk result (λ n. n ≡ to + 1) }
    ensures fits { OnOk result (to + 1 < 2 ^ 32) }
{
    match to.checked_add(1) {
        Some(next) => Ok(next),
        None => Err(AllocError),
    }
}

/// One more step.
#[tactic(auto, using(crate::proofs::Emitted::steps_append))]
pub fn put(code: &mut Vec<MidStep>, step: MidStep) -> Result<(), AllocError>
    ensures { OnOk result (steps_of code.new.items ≡ append (steps_of code.old.items) (only (step_of step))) }
{
    code.push(step)?;
    Ok(())
}

/// A choice between two lists of steps.
pub fn choice(cond: u32, yes: Vec<MidStep>, no: Vec<MidStep>) -> MidStep
    ensures { step_of result ≡ If cond (steps_of yes.items) (steps_of no.items) }
{
    MidStep::If { cond, yes, no }
}

/// A loop.
pub fn repeat(body: Vec<MidStep>) -> MidStep
    ensures { step_of result ≡ Loop (steps_of body.items) }
{
    MidStep::Loop { body }
}

/// A block.
pub fn block(body: Vec<MidStep>) -> MidStep
    ensures { step_of result ≡ Block (steps_of body.items) }
{
    MidStep::Block { body }
}

/// Value `to` becomes a number.
#[tactic(auto, using(mid_code::proofs::Views::step_views))]
pub fn put_number(code: &mut Vec<MidStep>, to: u32, value: u32) -> Result<(), AllocError>
    ensures { OnOk result (steps_of code.new.items ≡ append (steps_of code.old.items) (only (Number to value))) }
{
    put(
        code,
        MidStep::Number {
            to,
            value: Word(value),
        },
    )
}

/// Value `to` becomes value `from`.
#[tactic(auto, using(mid_code::proofs::Views::step_views))]
pub fn put_same(code: &mut Vec<MidStep>, to: u32, from: u32) -> Result<(), AllocError>
    ensures { OnOk result (steps_of code.new.items ≡ append (steps_of code.old.items) (only (Same to from))) }
{
    put(code, MidStep::Same { to, from })
}

/// An operation on two numbers.
#[tactic(auto, using(mid_code::proofs::Views::step_views))]
pub fn put_arith(
    code: &mut Vec<MidStep>,
    to: u32,
    op: ArithOp,
    left: u32,
    right: u32,
) -> Result<(), AllocError>
    ensures { OnOk result (steps_of code.new.items ≡ append (steps_of code.old.items) (only (Arith to op left right))) }
{
    put(
        code,
        MidStep::Arith {
            to,
            op,
            left,
            right,
        },
    )
}

/// Leaves so many Blocks and Loops.
#[tactic(auto, using(mid_code::proofs::Views::step_views))]
pub fn put_exit(code: &mut Vec<MidStep>, levels: u32) -> Result<(), AllocError>
    ensures { OnOk result (steps_of code.new.items ≡ append (steps_of code.old.items) (only (Exit levels))) }
{
    put(code, MidStep::Exit { levels })
}

/// A statement of this line begins.
#[tactic(auto, using(mid_code::proofs::Views::step_views))]
pub fn put_line(code: &mut Vec<MidStep>, line: u32) -> Result<(), AllocError>
    ensures { OnOk result (steps_of code.new.items ≡ append (steps_of code.old.items) (only (LineMark line))) }
{
    put(code, MidStep::LineMark { line })
}

/// Leaves the function with a value.
#[tactic(auto, using(mid_code::proofs::Views::step_views))]
pub fn put_return(code: &mut Vec<MidStep>, from: u32) -> Result<(), AllocError>
    ensures { OnOk result (steps_of code.new.items ≡ append (steps_of code.old.items) (only (Return from))) }
{
    put(code, MidStep::Return { from })
}

/// Leaves a turn of a loop where value `at` is 0.
#[tactic(auto, using(crate::proofs::Emitted::emitted))]
pub fn put_leaving(alloc: Global, code: &mut Vec<MidStep>, at: u32) -> Result<(), AllocError>
    ensures { OnOk result (steps_of code.new.items ≡ append (steps_of code.old.items) (only (lower.leaving at))) }
{
    let yes = Vec::new(alloc);
    let mut no = Vec::new(alloc);
    put_exit(&mut no, 1)?;
    put(code, choice(at, yes, no))?;
    Ok(())
}

/// The operation for unsigned or for signed numbers.
fn chosen(unsigned: bool, a: ArithOp, b: ArithOp) -> ArithOp
    ensures { result ≡ lower.chosen unsigned a b }
{
    if unsigned { a } else { b }
}

fn chosen_division(unsigned: bool, a: DivideOp, b: DivideOp) -> DivideOp
    ensures { result ≡ lower.chosen_division unsigned a b }
{
    if unsigned { a } else { b }
}

/// The step of an operator on two numbers.
#[tactic(auto, using(mid_code::proofs::Views::step_views))]
pub fn operation(
    op: BinaryOperator,
    unsigned: bool,
    line: u32,
    to: u32,
    left: u32,
    right: u32,
) -> MidStep
    ensures { step_of result ≡ lower.operation op unsigned line to left right }
{
    let (left, right, op) = match op {
        BinaryOperator::Divide => {
            let op = chosen_division(unsigned, DivideOp::Divu, DivideOp::Div);
            return MidStep::Divide {
                to,
                op,
                left,
                right,
                line,
            };
        }
        BinaryOperator::Remainder => {
            let op = chosen_division(unsigned, DivideOp::Remu, DivideOp::Rem);
            return MidStep::Divide {
                to,
                op,
                left,
                right,
                line,
            };
        }
        BinaryOperator::LogicalAnd | BinaryOperator::LogicalOr => {
            return MidStep::Number { to, value: Word(0) };
        }
        BinaryOperator::Multiply => (left, right, ArithOp::Mul),
        BinaryOperator::Add => (left, right, ArithOp::Add),
        BinaryOperator::Subtract => (left, right, ArithOp::Sub),
        BinaryOperator::ShiftLeft => (left, right, ArithOp::Shl),
        BinaryOperator::ShiftRight => {
            (left, right, chosen(unsigned, ArithOp::Shr, ArithOp::Sar))
        }
        BinaryOperator::Less => (left, right, chosen(unsigned, ArithOp::Ltu, ArithOp::Lts)),
        BinaryOperator::Greater => (right, left, chosen(unsigned, ArithOp::Ltu, ArithOp::Lts)),
        BinaryOperator::LessEqual => (
            left,
            right,
            chosen(unsigned, ArithOp::AtMostUnsigned, ArithOp::AtMostSigned),
        ),
        BinaryOperator::GreaterEqual => (
            right,
            left,
            chosen(unsigned, ArithOp::AtMostUnsigned, ArithOp::AtMostSigned),
        ),
        BinaryOperator::Equal => (left, right, ArithOp::Equal),
        BinaryOperator::NotEqual => (left, right, ArithOp::Unequal),
        BinaryOperator::BitAnd => (left, right, ArithOp::And),
        BinaryOperator::BitXor => (left, right, ArithOp::Xor),
        BinaryOperator::BitOr => (left, right, ArithOp::Or),
    };
    MidStep::Arith {
        to,
        op,
        left,
        right,
    }
}

/// Value `to` keeps its low 8 bits.
#[tactic(auto, using(crate::proofs::Emitted::more_one))]
fn put_low_byte(code: &mut Vec<MidStep>, to: u32) -> Result<(), AllocError>
    requires { to + 1 < 2 ^ 32 }
    ensures { OnOk result (steps_of code.new.items ≡ append (steps_of code.old.items) (lower.fitting CType.Char to)) }
{
    put_number(code, to + 1, 255)?;
    put_arith(code, to, ArithOp::And, to, to + 1)?;
    Ok(())
}

/// Value `to` is given to a type.
#[tactic(auto, using(crate::proofs::Emitted::emitted))]
pub fn put_fitting(code: &mut Vec<MidStep>, ty: &Ty, to: u32) -> Result<(), AllocError>
    requires { to + 1 < 2 ^ 32 }
    ensures { OnOk result (steps_of code.new.items ≡ append (steps_of code.old.items) (lower.fitting (ty_of ty.now) to)) }
{
    match ty {
        Ty::Char => put_low_byte(code, to),
        Ty::Void | Ty::Int | Ty::Unsigned | Ty::Struct(_) | Ty::Pointer(_) | Ty::Array(_, _) => {
            Ok(())
        }
    }
}

/// Value `to` is cast to a type.
pub fn put_casting(code: &mut Vec<MidStep>, ty: &Ty, to: u32) -> Result<(), AllocError>
    requires { to + 1 < 2 ^ 32 }
    ensures { OnOk result (steps_of code.new.items ≡ append (steps_of code.old.items) (lower.casting (ty_of ty.now) to)) }
{
    match ty {
        Ty::Void => put_number(code, to, 0),
        Ty::Char | Ty::Int | Ty::Unsigned | Ty::Struct(_) | Ty::Pointer(_) | Ty::Array(_, _) => {
            put_fitting(code, ty, to)
        }
    }
}

/// 1 where value `to` is not 0, else 0.
#[tactic(auto, using(crate::proofs::Emitted::emitted))]
pub fn put_flagged(
    alloc: Global,
    code: &mut Vec<MidStep>,
    to: u32,
    if_set: u32,
    if_zero: u32,
) -> Result<(), AllocError>
    ensures { OnOk result (steps_of code.new.items ≡ append (steps_of code.old.items) (only (If to (only (Number to if_set)) (only (Number to if_zero))))) }
{
    let mut yes = Vec::new(alloc);
    put_number(&mut yes, to, if_set)?;
    let mut no = Vec::new(alloc);
    put_number(&mut no, to, if_zero)?;
    put(code, choice(to, yes, no))
}

/// Value `to` is taken from a number.
#[tactic(auto, using(crate::proofs::Emitted::more_one))]
fn put_taken_from(code: &mut Vec<MidStep>, number: u32, to: u32) -> Result<(), AllocError>
    requires { to + 1 < 2 ^ 32 }
    ensures { OnOk result (steps_of code.new.items
        ≡ append (steps_of code.old.items) (append (only (Number (to + 1) number)) (only (Arith to ArithOp.Sub (to + 1) to)))) }
{
    put_number(code, to + 1, number)?;
    put_arith(code, to, ArithOp::Sub, to + 1, to)?;
    Ok(())
}

/// An operator on value `to`.
#[tactic(auto, using(crate::proofs::Emitted::emitted))]
pub fn put_unary(
    alloc: Global,
    code: &mut Vec<MidStep>,
    op: UnaryOperator,
    to: u32,
) -> Result<(), AllocError>
    requires { to + 1 < 2 ^ 32 }
    ensures { OnOk result (steps_of code.new.items ≡ append (steps_of code.old.items) (lower.one_operand op to)) }
{
    match op {
        UnaryOperator::Minus => put_taken_from(code, 0, to),
        UnaryOperator::Complement => put_taken_from(code, 4294967295, to),
        UnaryOperator::Not => put_flagged(alloc, code, to, 0, 1),
        UnaryOperator::Plus | UnaryOperator::Address | UnaryOperator::Dereference => Ok(()),
    }
}

fn one_step(op: StepOperator) -> ArithOp
    ensures { result ≡ lower.one_step op }
{
    match op {
        StepOperator::Increment => ArithOp::Add,
        StepOperator::Decrement => ArithOp::Sub,
    }
}

/// Value `local` is read as value `to`, stepped as value `at`, and written.
#[tactic(auto, using(crate::proofs::Emitted::stepping_more))]
pub fn put_stepping(
    code: &mut Vec<MidStep>,
    op: StepOperator,
    ty: &Ty,
    local: u32,
    to: u32,
    at: u32,
) -> Result<(), AllocError>
    requires next { to + 1 < 2 ^ 32 }
    requires free { at + 1 < 2 ^ 32 }
    ensures { OnOk result (steps_of code.new.items ≡ append (steps_of code.old.items) (lower.stepping op (ty_of ty.now) local to at)) }
{
    put_same(code, to, local)?;
    put_number(code, to + 1, 1)?;
    put_arith(code, at, one_step(op), to, to + 1)?;
    put_fitting(code, ty, at)?;
    put_same(code, local, at)?;
    Ok(())
}

/// Whether a type is unsigned int.
pub fn is_unsigned(ty: &Ty) -> bool
    ensures { result ≡ unsigned_type (ty_of ty.now) }
{
    match ty {
        Ty::Unsigned => true,
        Ty::Void | Ty::Char | Ty::Int | Ty::Struct(_) | Ty::Pointer(_) | Ty::Array(_, _) => false,
    }
}

/// The operator of a compound assignment.
fn binary_of(op: AssignOperator) -> BinaryOperator
    ensures { result ≡ operator_of op }
{
    match op {
        AssignOperator::Assign | AssignOperator::Add => BinaryOperator::Add,
        AssignOperator::Multiply => BinaryOperator::Multiply,
        AssignOperator::Divide => BinaryOperator::Divide,
        AssignOperator::Remainder => BinaryOperator::Remainder,
        AssignOperator::Subtract => BinaryOperator::Subtract,
        AssignOperator::ShiftLeft => BinaryOperator::ShiftLeft,
        AssignOperator::ShiftRight => BinaryOperator::ShiftRight,
        AssignOperator::BitAnd => BinaryOperator::BitAnd,
        AssignOperator::BitXor => BinaryOperator::BitXor,
        AssignOperator::BitOr => BinaryOperator::BitOr,
    }
}

fn is_shift(op: AssignOperator) -> bool
    ensures { result ≡ shifts op }
{
    match op {
        AssignOperator::ShiftLeft | AssignOperator::ShiftRight => true,
        AssignOperator::Assign
        | AssignOperator::Multiply
        | AssignOperator::Divide
        | AssignOperator::Remainder
        | AssignOperator::Add
        | AssignOperator::Subtract
        | AssignOperator::BitAnd
        | AssignOperator::BitXor
        | AssignOperator::BitOr => false,
    }
}

/// Whether the operands of a compound assignment are unsigned.
fn is_unsigned_assignment(op: AssignOperator, left: &Ty, right: &Ty) -> bool
    ensures { result ≡ unsigned_type (either (shifts op) (ty_of left.now) (ty_of right.now)) }
{
    if is_shift(op) {
        is_unsigned(left)
    } else {
        is_unsigned(right)
    }
}

/// A compound assignment to value `local`, whose right operand is the value after `to`.
#[tactic(auto, using(crate::proofs::Emitted::compound_more))]
pub fn put_compound(
    code: &mut Vec<MidStep>,
    op: AssignOperator,
    line: u32,
    left: &Ty,
    right: &Ty,
    local: u32,
    to: u32,
) -> Result<(), AllocError>
    requires { to + 1 < 2 ^ 32 }
    ensures { OnOk result (steps_of code.new.items ≡ append (steps_of code.old.items) (lower.compound op line (ty_of left.now) (ty_of right.now) local to)) }
{
    let unsigned = is_unsigned_assignment(op, left, right);
    put_same(code, to, local)?;
    put(
        code,
        operation(binary_of(op), unsigned, line, to, to, to + 1),
    )?;
    put_casting(code, left, to)?;
    put_same(code, local, to)?;
    Ok(())
}

fn struct_size(found: &StructType) -> u32
    ensures { result ≡ min (struct_of found.now).size 4294967295 }
{
    let size = found.size;
    size
}

/// Many more steps.
#[tactic(auto, using(crate::proofs::Emitted::steps_append))]
pub fn put_all(code: &mut Vec<MidStep>, mut steps: Vec<MidStep>) -> Result<(), AllocError>
    ensures { OnOk result (steps_of code.new.items ≡ append (steps_of code.old.items) (steps_of steps.items)) }
{
    code.append(&mut steps)?;
    Ok(())
}

/// The value that the second operand of an operator becomes.
pub fn second_at(op: BinaryOperator, to: u32) -> u32
    requires { to + 1 < 2 ^ 32 }
    ensures at { result ≡ lower.second_at op to }
    ensures most { result ≤ to + 1 }
{
    match op {
        BinaryOperator::LogicalAnd | BinaryOperator::LogicalOr => to,
        _ => to + 1,
    }
}

/// An operator whose first operand is value `to`, and whose second operand has this code.
#[tactic(auto, using(crate::proofs::Emitted::emitted))]
pub fn put_binary(
    alloc: Global,
    code: &mut Vec<MidStep>,
    op: BinaryOperator,
    unsigned: bool,
    line: u32,
    to: u32,
    second: Vec<MidStep>,
) -> Result<(), AllocError>
    requires { to + 1 < 2 ^ 32 }
    ensures { OnOk result (steps_of code.new.items ≡ append (steps_of code.old.items) (lower.binary_steps op unsigned line to (steps_of second.items))) }
{
    let mut second = second;
    match op {
        BinaryOperator::LogicalAnd => {
            put_flagged(alloc, &mut second, to, 1, 0)?;
            let mut no = Vec::new(alloc);
            put_number(&mut no, to, 0)?;
            put(code, choice(to, second, no))?;
        }
        BinaryOperator::LogicalOr => {
            put_flagged(alloc, &mut second, to, 1, 0)?;
            let mut yes = Vec::new(alloc);
            put_number(&mut yes, to, 1)?;
            put(code, choice(to, yes, second))?;
        }
        _ => {
            put_all(code, second)?;
            put(code, operation(op, unsigned, line, to, to, to + 1))?;
        }
    }
    Ok(())
}

/// The value that the right side of an assignment becomes.
pub fn right_at(op: AssignOperator, to: u32) -> u32
    requires { to + 1 < 2 ^ 32 }
    ensures at { result ≡ lower.right_at op to }
    ensures most { result ≤ to + 1 }
{
    match op {
        AssignOperator::Assign => to,
        _ => to + 1,
    }
}

/// An assignment to value `local`, whose right side is a value.
pub fn put_assign(
    code: &mut Vec<MidStep>,
    op: AssignOperator,
    line: u32,
    left: &Ty,
    right: &Ty,
    local: u32,
    to: u32,
) -> Result<(), AllocError>
    requires { to + 1 < 2 ^ 32 }
    ensures { OnOk result (steps_of code.new.items
        ≡ append (steps_of code.old.items) (lower.assign_steps op line (ty_of left.now) (ty_of right.now) local to)) }
{
    match op {
        AssignOperator::Assign => put_same(code, local, to),
        _ => put_compound(code, op, line, left, right, local, to),
    }
}

/// How many bytes a type has, up to the greatest `u32`.
#[tactic(auto, using(crate::proofs::Emitted::min_mul))]
pub fn size_of(structs: &[StructType], ty: &Ty) -> u32
    ensures { result ≡ lower.word_size (map struct_of structs.now) (ty_of ty.now) }
{
    match ty {
        Ty::Void => 0,
        Ty::Char => 1,
        Ty::Int | Ty::Unsigned | Ty::Pointer(_) => 4,
        Ty::Struct(k) => match structs.get(*k as usize) {
            None => 0,
            Some(found) => struct_size(found),
        },
        Ty::Array(element, count) => size_of(structs, element).saturating_mul(*count),
    }
}
