//! The code of pointers: orders and differences, loads, and moves, over the temporaries from `t` on.
ghost use Rattle.std.specs.Prelude.{◌≡◌, ◌≤◌, ◌+◌, IfOk, OnOk};
ghost use Rattle.bb_words.specs.Numbers.{word_of};
ghost use Rattle.bb_words.specs.declared.steps.Width.TheVariants.{Pointer};
ghost use Rattle.flat_code.specs.Code.{none, more, ◌+++◌};
ghost use Rattle.flat_code.specs.Code.FStep.{Number, Arith, Load};
ghost use Rattle.flat_code.specs.CodeViews.{step_of, steps_of};
ghost use Rattle.bounds_instr_code.specs.Code as instr;

use bb_words::steps::{ArithOp, OrderOp, Width};
use bb_words::word::Word;
use flat_code::code::FlatStep;
use flat_code::emit::{LoadValues, MoveValues, load_steps, move_steps};
use std::alloc::{AllocError, Global};

/// Many more steps.
#[tactic(auto, using(crate::proofs::Emitted::steps_append))]
pub fn put_all(code: &mut Vec<FlatStep>, mut steps: Vec<FlatStep>) -> Result<(), AllocError>
    ensures { OnOk result (steps_of code.new.items ≡ steps_of code.old.items +++ steps_of steps.items) }
{
    code.append(&mut steps)?;
    Ok(())
}

fn number(to: u32, value: u32) -> FlatStep
    ensures { step_of result ≡ Number to value }
{
    FlatStep::Number {
        to,
        value: Word(value),
    }
}

fn arith(to: u32, op: ArithOp, left: u32, right: u32) -> FlatStep
    ensures { step_of result ≡ Arith to op left right }
{
    FlatStep::Arith {
        to,
        op,
        left,
        right,
    }
}

fn order_step(op: OrderOp, to: u32, left: u32, right: u32) -> FlatStep
    ensures { step_of result ≡ instr.order_step op to left right }
{
    match op {
        OrderOp::Below => arith(to, ArithOp::Ltu, left, right),
        OrderOp::AtMost => arith(to, ArithOp::AtMostUnsigned, left, right),
        OrderOp::Above => arith(to, ArithOp::Ltu, right, left),
        OrderOp::AtLeast => arith(to, ArithOp::AtMostUnsigned, right, left),
    }
}

/// Whether two pointers stand in an order: their addresses are compared.
#[tactic(auto, using(flat_code::proofs::CodeViewed::flat_views))]
pub fn ordering(
    alloc: Global,
    t: u32,
    to: u32,
    op: OrderOp,
    left: u32,
    right: u32,
) -> Result<Vec<FlatStep>, AllocError>
    requires room { t ≤ 250 }
    ensures { IfOk result (λ x. steps_of x.items ≡ instr.ordering t to op left right) }
{
    let second = t + 1;
    let mut steps = Vec::new(alloc);
    steps.push(arith(t, ArithOp::Add, left, left))?;
    steps.push(arith(second, ArithOp::Add, right, right))?;
    steps.push(order_step(op, to, t, second))?;
    Ok(steps)
}

/// How many elements of a size lie between two pointers.
#[tactic(auto, using(flat_code::proofs::CodeViewed::flat_views))]
pub fn subtraction(
    alloc: Global,
    t: u32,
    to: u32,
    left: u32,
    right: u32,
    size: u32,
) -> Result<Vec<FlatStep>, AllocError>
    requires room { t ≤ 250 }
    ensures { IfOk result (λ x. steps_of x.items ≡ instr.subtraction t to left right size) }
{
    let second = t + 1;
    let mut steps = Vec::new(alloc);
    steps.push(number(t, 0x7fff_ffff))?;
    steps.push(arith(second, ArithOp::And, right, t))?;
    steps.push(arith(t, ArithOp::And, left, t))?;
    steps.push(arith(t, ArithOp::Sub, t, second))?;
    steps.push(number(second, size))?;
    steps.push(arith(to, ArithOp::Div, t, second))?;
    Ok(steps)
}

/// The load of a pointer, which is checked.
#[tactic(auto, using(flat_code::proofs::CodeViewed::flat_views))]
fn pointer_loading(
    alloc: Global,
    g: u8,
    t: u32,
    to: u32,
    at: u32,
    line: u32,
) -> Result<Vec<FlatStep>, AllocError>
    requires room { t ≤ 250 }
    requires least { 1 ≤ g }
    requires most { g ≤ 24 }
    ensures { IfOk result (λ x. steps_of x.items ≡ instr.loading g t to at Pointer line) }
{
    let slot = t + 1;
    let exponent = t + 2;
    let mut loads = load_steps(
        alloc,
        g,
        LoadValues {
            to,
            at,
            line: t,
            slot,
            exponent,
        },
    )?;
    let mut steps = Vec::new(alloc);
    steps.push(number(t, line))?;
    steps.append(&mut loads)?;
    Ok(steps)
}

/// A load, without a check.
#[tactic(auto, using(flat_code::proofs::CodeViewed::flat_views))]
fn number_loading(
    alloc: Global,
    to: u32,
    at: u32,
    width: Width,
) -> Result<Vec<FlatStep>, AllocError>
    ensures { IfOk result (λ x. steps_of x.items ≡ more (Load to at width) none) }
{
    let mut steps = Vec::new(alloc);
    steps.push(FlatStep::Load { to, at, width })?;
    Ok(steps)
}

/// A load, with a check where it is of a pointer.
pub fn loading(
    alloc: Global,
    g: u8,
    t: u32,
    to: u32,
    at: u32,
    width: Width,
    line: u32,
) -> Result<Vec<FlatStep>, AllocError>
    requires room { t ≤ 250 }
    requires least { 1 ≤ g }
    requires most { g ≤ 24 }
    ensures { IfOk result (λ x. steps_of x.items ≡ instr.loading g t to at width line) }
{
    match width {
        Width::Pointer => pointer_loading(alloc, g, t, to, at, line),
        Width::Byte | Width::Half | Width::SignedHalf | Width::Word => {
            number_loading(alloc, to, at, width)
        }
    }
}

/// The move of a pointer by temporary `t`, with the line in the next one.
#[tactic(auto, using(crate::proofs::Emitted::moved))]
fn moving(alloc: Global, g: u8, t: u32, to: u32, from: u32) -> Result<Vec<FlatStep>, AllocError>
    requires room { t ≤ 250 }
    requires least { 1 ≤ g }
    requires most { g ≤ 24 }
    ensures { IfOk result (λ x. steps_of x.items ≡ instr.moving g t to from) }
{
    let line = t + 1;
    let result = t + 2;
    let slot = t + 3;
    let exponent = t + 4;
    let mut steps = move_steps(
        alloc,
        g,
        MoveValues {
            pointer: from,
            distance: t,
            result,
            line,
            slot,
            exponent,
        },
    )?;
    steps.push(FlatStep::Same { to, from: result })?;
    Ok(steps)
}

/// A move by so many elements.
#[derive(Clone, Copy)]
pub struct Elements {
    pub to: u32,
    pub from: u32,
    pub by: u32,
    pub scale: u32,
    pub down: bool,
    pub line: u32,
}

fn factor(scale: u32, down: bool) -> u32
    ensures { result ≡ instr.factor scale down }
{
    if down {
        0u32.wrapping_sub(scale)
    } else {
        scale
    }
}

/// The move of a pointer by so many elements, up or down.
#[tactic(auto, using(flat_code::proofs::CodeViewed::flat_views))]
pub fn moving_elements(
    alloc: Global,
    g: u8,
    t: u32,
    x: Elements,
) -> Result<Vec<FlatStep>, AllocError>
    requires room { t ≤ 250 }
    requires least { 1 ≤ g }
    requires most { g ≤ 24 }
    ensures { IfOk result (λ y. steps_of y.items ≡ instr.moving_elements g t x.to x.from x.by x.scale x.down x.line) }
{
    let second = t + 1;
    let mut moved = moving(alloc, g, t, x.to, x.from)?;
    let mut steps = Vec::new(alloc);
    steps.push(number(second, x.line))?;
    steps.push(number(t, factor(x.scale, x.down)))?;
    steps.push(arith(t, ArithOp::Mul, x.by, t))?;
    steps.append(&mut moved)?;
    Ok(steps)
}

/// The move of a pointer by so many bytes.
#[tactic(auto, using(flat_code::proofs::CodeViewed::flat_views))]
pub fn moving_by(
    alloc: Global,
    g: u8,
    t: u32,
    to: u32,
    from: u32,
    distance: i32,
    line: u32,
) -> Result<Vec<FlatStep>, AllocError>
    requires room { t ≤ 250 }
    requires least { 1 ≤ g }
    requires most { g ≤ 24 }
    ensures { IfOk result (λ x. steps_of x.items ≡ instr.moving_by g t to from (word_of distance) line) }
{
    let second = t + 1;
    let mut moved = moving(alloc, g, t, to, from)?;
    let mut steps = Vec::new(alloc);
    steps.push(number(second, line))?;
    steps.push(number(t, distance.cast_unsigned()))?;
    steps.append(&mut moved)?;
    Ok(steps)
}
