//! The sequences that check pointers, as steps of a program: what makes flat code writes them, and what reads it finds
//! them there.
ghost use Rattle.std.specs.Prelude.{◌≡◌, ◌≤◌, ◌-◌, ◌^◌, IfOk};
ghost use Rattle.flat_code.specs.Code.{◌+++◌};
ghost use Rattle.flat_code.specs.Code.FStep.{Number, Arith, If, Slot, Look, Load, Checked};
ghost use Rattle.flat_code.specs.CodeViews.{step_of, steps_of};
ghost use Rattle.flat_code.specs.Sequences.{report, address_steps, mark_steps, outside_steps, move_sequence};
ghost use Rattle.flat_code.specs.Sequences.{owned_steps, load_sequence, touch_steps, span_sequence};

use crate::code::FlatStep;
use bb_words::kinds::ReportKind;
use bb_words::steps::{ArithOp, Width};
use bb_words::word::Word;
use std::alloc::{AllocError, Global};

/// The numbers of the values of a move: `pointer` is moved by `distance` to `result`, or the value `line` is reported.
/// `slot` and `exponent` are temporaries.
#[derive(Clone, Copy)]
pub struct MoveValues {
    pub pointer: u32,
    pub distance: u32,
    pub result: u32,
    pub line: u32,
    pub slot: u32,
    pub exponent: u32,
}

/// The numbers of the values of a load: the pointer at `at` is loaded into `to`, or the value `line` is reported.
#[derive(Clone, Copy)]
pub struct LoadValues {
    pub to: u32,
    pub at: u32,
    pub line: u32,
    pub slot: u32,
    pub exponent: u32,
}

/// The numbers of the values of a span: `count` bytes at `pointer` lie in one block, and `last` becomes the address of the
/// last, or the value `line` is reported. `distance`, `slot` and `exponent` are temporaries.
#[derive(Clone, Copy)]
pub struct SpanValues {
    pub pointer: u32,
    pub count: u32,
    pub last: u32,
    pub line: u32,
    pub distance: u32,
    pub slot: u32,
    pub exponent: u32,
}

fn number(to: u32, value: u32) -> FlatStep
    ensures { step_of result ≡ Number to value }
{
    FlatStep::Number {
        to,
        value: Word(value),
    }
}

fn power(n: u8) -> u32
    requires { n ≤ 24 }
    ensures { result ≡ 2 ^ n }
{
    1u32 << n
}

fn report_steps(alloc: Global, kind: ReportKind, line: u32) -> Result<Vec<FlatStep>, AllocError>
    ensures { IfOk result (λ v. steps_of v.items ≡ report kind line) }
{
    let mut steps = Vec::new(alloc);
    steps.push(FlatStep::Report { kind, line })?;
    Ok(steps)
}

fn arith(to: u32, op: ArithOp, left: u32, right: u32) -> FlatStep
    ensures { step_of result ≡ Arith to op left right }
{
    FlatStep::Arith {
        to,
        op,
        left,
        right,
    }
}

/// The result becomes the pointer without bit 31, plus the distance.
fn address_of(alloc: Global, v: MoveValues) -> Result<Vec<FlatStep>, AllocError>
    ensures { IfOk result (λ x. steps_of x.items ≡ address_steps v.pointer v.distance v.result) }
{
    let mut steps = Vec::new(alloc);
    steps.push(number(v.result, 0x7fff_ffff))?;
    steps.push(arith(v.result, ArithOp::And, v.pointer, v.result))?;
    steps.push(arith(v.result, ArithOp::Add, v.result, v.distance))?;
    Ok(steps)
}

/// The result becomes that, with bit 31.
fn marked_address_of(alloc: Global, v: MoveValues) -> Result<Vec<FlatStep>, AllocError>
    ensures { IfOk result (λ x. steps_of x.items ≡ address_steps v.pointer v.distance v.result +++ mark_steps v.result v.slot) }
{
    let mut steps = Vec::new(alloc);
    steps.push(number(v.result, 0x7fff_ffff))?;
    steps.push(arith(v.result, ArithOp::And, v.pointer, v.result))?;
    steps.push(arith(v.result, ArithOp::Add, v.result, v.distance))?;
    steps.push(number(v.slot, 0x8000_0000))?;
    steps.push(arith(v.result, ArithOp::Or, v.result, v.slot))?;
    Ok(steps)
}

#[tactic(auto, using(crate::proofs::CodeViewed::flat_views))]
fn branch(cond: u32, yes: Vec<FlatStep>, no: Vec<FlatStep>) -> FlatStep
    ensures { step_of result ≡ If cond (steps_of yes.items) (steps_of no.items) }
{
    FlatStep::If { cond, yes, no }
}

/// The steps for an offset that is not one of the block.
fn outside(alloc: Global, g: u8, v: MoveValues) -> Result<Vec<FlatStep>, AllocError>
    requires least { 1 ≤ g }
    requires most { g ≤ 24 }
    ensures { IfOk result (λ x. steps_of x.items ≡ outside_steps g v.pointer v.distance v.result v.line v.slot v.exponent) }
{
    let near = marked_address_of(alloc, v)?;
    let far = report_steps(alloc, ReportKind::Bounds, v.line)?;
    let mut steps = Vec::new(alloc);
    steps.push(number(v.result, power(g - 1)))?;
    steps.push(arith(v.slot, ArithOp::Add, v.slot, v.result))?;
    steps.push(number(v.result, power(g)))?;
    steps.push(arith(v.exponent, ArithOp::Add, v.exponent, v.result))?;
    steps.push(arith(v.result, ArithOp::Ltu, v.slot, v.exponent))?;
    steps.push(branch(v.result, near, far))?;
    Ok(steps)
}

/// The move sequence, for slots of 2^g bytes.
pub fn move_steps(alloc: Global, g: u8, v: MoveValues) -> Result<Vec<FlatStep>, AllocError>
    requires least { 1 ≤ g }
    requires most { g ≤ 24 }
    ensures { IfOk result (λ x. steps_of x.items ≡ move_sequence g v.pointer v.distance v.result v.line v.slot v.exponent) }
{
    let owned = Vec::new(alloc);
    let unowned = report_steps(alloc, ReportKind::Bounds, v.line)?;
    let within = address_of(alloc, v)?;
    let others = outside(alloc, g, v)?;
    let mut steps = Vec::new(alloc);
    steps.push(slot(v.slot, v.pointer))?;
    steps.push(look(v.exponent, v.slot))?;
    steps.push(branch(v.exponent, owned, unowned))?;
    steps.push(number(v.result, u32::from(g)))?;
    steps.push(arith(v.slot, ArithOp::Shl, v.slot, v.result))?;
    steps.push(arith(v.slot, ArithOp::Shr, v.slot, v.exponent))?;
    steps.push(arith(v.slot, ArithOp::Shl, v.slot, v.exponent))?;
    steps.push(number(v.result, 1))?;
    steps.push(arith(v.exponent, ArithOp::Shl, v.result, v.exponent))?;
    steps.push(number(v.result, 0x7fff_ffff))?;
    steps.push(arith(v.result, ArithOp::And, v.pointer, v.result))?;
    steps.push(arith(v.result, ArithOp::Add, v.result, v.distance))?;
    steps.push(arith(v.slot, ArithOp::Sub, v.result, v.slot))?;
    steps.push(arith(v.result, ArithOp::Ltu, v.slot, v.exponent))?;
    steps.push(branch(v.result, within, others))?;
    steps.push(checked(v.pointer, v.result))?;
    Ok(steps)
}

fn slot(to: u32, from: u32) -> FlatStep
    ensures { step_of result ≡ Slot to from }
{
    FlatStep::Slot { to, from }
}

fn look(to: u32, slot: u32) -> FlatStep
    ensures { step_of result ≡ Look to slot }
{
    FlatStep::Look { to, slot }
}

fn load(to: u32, at: u32, width: Width) -> FlatStep
    ensures { step_of result ≡ Load to at width }
{
    FlatStep::Load { to, at, width }
}

fn checked(from: u32, to: u32) -> FlatStep
    ensures { step_of result ≡ Checked from to }
{
    FlatStep::Checked { from, to }
}

/// The steps that check that a block holds the word that was loaded.
fn owned_of(alloc: Global, g: u8, v: LoadValues) -> Result<Vec<FlatStep>, AllocError>
    requires least { 1 ≤ g }
    requires most { g ≤ 24 }
    ensures { IfOk result (λ x. steps_of x.items ≡ owned_steps g v.to v.line v.slot v.exponent) }
{
    let held = Vec::new(alloc);
    let free = report_steps(alloc, ReportKind::Pointer, v.line)?;
    let past = report_steps(alloc, ReportKind::Pointer, v.line)?;
    let mut looking = Vec::new(alloc);
    looking.push(look(v.exponent, v.slot))?;
    looking.push(branch(v.exponent, held, free))?;
    let mut steps = Vec::new(alloc);
    steps.push(slot(v.slot, v.to))?;
    steps.push(number(v.exponent, power(25 - g)))?;
    steps.push(arith(v.exponent, ArithOp::Ltu, v.slot, v.exponent))?;
    steps.push(branch(v.exponent, looking, past))?;
    Ok(steps)
}

/// The load sequence, for slots of 2^g bytes.
pub fn load_steps(alloc: Global, g: u8, v: LoadValues) -> Result<Vec<FlatStep>, AllocError>
    requires least { 1 ≤ g }
    requires most { g ≤ 24 }
    ensures { IfOk result (λ x. steps_of x.items ≡ load_sequence g v.to v.at v.line v.slot v.exponent) }
{
    let some = owned_of(alloc, g, v)?;
    let null = Vec::new(alloc);
    let mut steps = Vec::new(alloc);
    steps.push(load(v.to, v.at, Width::Pointer))?;
    steps.push(branch(v.to, some, null))?;
    Ok(steps)
}

/// The move from the first byte of a range to the last.
pub fn move_in(v: SpanValues) -> MoveValues
    ensures { result ≡ record { pointer = v.pointer; distance = v.distance; result = v.last; line = v.line; slot = v.slot; exponent = v.exponent } }
{
    MoveValues {
        pointer: v.pointer,
        distance: v.distance,
        result: v.last,
        line: v.line,
        slot: v.slot,
        exponent: v.exponent,
    }
}

/// The steps that touch the first and the last byte.
#[tactic(auto, using(crate::proofs::Emitted::touched))]
fn touch_of(alloc: Global, g: u8, v: SpanValues) -> Result<Vec<FlatStep>, AllocError>
    requires least { 1 ≤ g }
    requires most { g ≤ 24 }
    ensures { IfOk result (λ x. steps_of x.items ≡ touch_steps g v.pointer v.count v.last v.line v.distance v.slot v.exponent) }
{
    let mut moving = move_steps(alloc, g, move_in(v))?;
    let mut steps = Vec::new(alloc);
    steps.push(load(v.distance, v.pointer, Width::Byte))?;
    steps.push(number(v.distance, 0xffff_ffff))?;
    steps.push(arith(v.distance, ArithOp::Add, v.count, v.distance))?;
    steps.append(&mut moving)?;
    steps.push(load(v.distance, v.last, Width::Byte))?;
    Ok(steps)
}

/// The span sequence, for slots of 2^g bytes.
pub fn span_steps(alloc: Global, g: u8, v: SpanValues) -> Result<Vec<FlatStep>, AllocError>
    requires least { 1 ≤ g }
    requires most { g ≤ 24 }
    ensures { IfOk result (λ x. steps_of x.items ≡ span_sequence g v.pointer v.count v.last v.line v.distance v.slot v.exponent) }
{
    let short = Vec::new(alloc);
    let long = report_steps(alloc, ReportKind::Bounds, v.line)?;
    let some = touch_of(alloc, g, v)?;
    let empty = Vec::new(alloc);
    let mut steps = Vec::new(alloc);
    steps.push(number(v.distance, 0x0100_0001))?;
    steps.push(arith(v.distance, ArithOp::Ltu, v.count, v.distance))?;
    steps.push(branch(v.distance, short, long))?;
    steps.push(branch(v.count, some, empty))?;
    Ok(steps)
}
