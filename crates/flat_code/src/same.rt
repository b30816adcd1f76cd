//! Whether steps are others, as lists.
ghost use Rattle.std.specs.Prelude.{◌≡◌, ◌&&◌};
ghost use Rattle.flat_code.specs.CodeViews.{step_of, steps_of};
ghost use Rattle.flat_code.specs.Recognized.{number_of_op, number_of_width, number_of_kind, same_numbers, same_step, same_steps, starts};

use crate::code::FlatStep;
use bb_words::kinds::ReportKind;
use bb_words::steps::{ArithOp, Width};

fn op_number(op: ArithOp) -> u32
    ensures { result ≡ number_of_op op }
{
    match op {
        ArithOp::Add => 0,
        ArithOp::Sub => 1,
        ArithOp::Mul => 2,
        ArithOp::Mulh => 3,
        ArithOp::Mulhsu => 4,
        ArithOp::Mulhu => 5,
        ArithOp::Div => 6,
        ArithOp::Divu => 7,
        ArithOp::Rem => 8,
        ArithOp::Remu => 9,
        ArithOp::Shl => 10,
        ArithOp::Shr => 11,
        ArithOp::Sar => 12,
        ArithOp::Lts => 13,
        ArithOp::Ltu => 14,
        ArithOp::And => 15,
        ArithOp::Or => 16,
        ArithOp::Xor => 17,
        ArithOp::Equal => 18,
        ArithOp::Unequal => 19,
        ArithOp::AtMostSigned => 20,
        ArithOp::AtMostUnsigned => 21,
    }
}

fn width_number(width: Width) -> u32
    ensures { result ≡ number_of_width width }
{
    match width {
        Width::Byte => 0,
        Width::Half => 1,
        Width::SignedHalf => 2,
        Width::Word => 3,
        Width::Pointer => 4,
    }
}

fn kind_number(kind: ReportKind) -> u32
    ensures { result ≡ number_of_kind kind }
{
    match kind {
        ReportKind::Bounds => 0,
        ReportKind::Pointer => 1,
        ReportKind::DivZero => 2,
        ReportKind::BadFree => 3,
        ReportKind::Depth => 4,
        ReportKind::Stack => 5,
    }
}

fn are_same_numbers(a: &[u32], b: &[u32]) -> bool
    ensures { result ≡ same_numbers a.now b.now }
{
    match a {
        [] => match b {
            [] => true,
            _ => false,
        },
        [x, rest @ ..] => match b {
            [] => false,
            [y, others @ ..] => *x == *y && are_same_numbers(rest, others),
        },
    }
}

#[cycle(same)]
#[tactic(auto, using(crate::proofs::CodeViewed::flat_views))]
fn is_same_step(a: &FlatStep, b: &FlatStep) -> bool
    ensures { result ≡ same_step (step_of a.now) (step_of b.now) }
{
    match a {
        FlatStep::Number { to, value } => match b {
            FlatStep::Number {
                to: to2,
                value: value2,
            } => *to == *to2 && value.0 == value2.0,
            _ => false,
        },
        FlatStep::Same { to, from } => match b {
            FlatStep::Same {
                to: to2,
                from: from2,
            } => *to == *to2 && *from == *from2,
            _ => false,
        },
        FlatStep::Arith {
            to,
            op,
            left,
            right,
        } => match b {
            FlatStep::Arith {
                to: to2,
                op: op2,
                left: left2,
                right: right2,
            } => *to == *to2
                && op_number(*op) == op_number(*op2)
                && *left == *left2
                && *right == *right2,
            _ => false,
        },
        FlatStep::If { cond, yes, no } => match b {
            FlatStep::If {
                cond: cond2,
                yes: yes2,
                no: no2,
            } => *cond == *cond2 && are_both_same(yes, yes2, no, no2),
            _ => false,
        },
        FlatStep::Block { body } => match b {
            FlatStep::Block { body: body2 } => are_same_steps(body, body2),
            _ => false,
        },
        FlatStep::Loop { body } => match b {
            FlatStep::Loop { body: body2 } => are_same_steps(body, body2),
            _ => false,
        },
        FlatStep::Inner { body } => match b {
            FlatStep::Inner { body: body2 } => are_same_steps(body, body2),
            _ => false,
        },
        FlatStep::Exit { levels } => match b {
            FlatStep::Exit { levels: levels2 } => *levels == *levels2,
            _ => false,
        },
        FlatStep::Call { to, function, args } => match b {
            FlatStep::Call {
                to: to2,
                function: function2,
                args: args2,
            } => *to == *to2 && *function == *function2 && are_same_numbers(args, args2),
            _ => false,
        },
        FlatStep::Return { from } => match b {
            FlatStep::Return { from: from2 } => *from == *from2,
            _ => false,
        },
        FlatStep::Slot { to, from } => match b {
            FlatStep::Slot {
                to: to2,
                from: from2,
            } => *to == *to2 && *from == *from2,
            _ => false,
        },
        FlatStep::Look { to, slot } => match b {
            FlatStep::Look {
                to: to2,
                slot: slot2,
            } => *to == *to2 && *slot == *slot2,
            _ => false,
        },
        FlatStep::FrameAt { to, offset } => match b {
            FlatStep::FrameAt {
                to: to2,
                offset: offset2,
            } => *to == *to2 && *offset == *offset2,
            _ => false,
        },
        FlatStep::Load { to, at, width } => match b {
            FlatStep::Load {
                to: to2,
                at: at2,
                width: width2,
            } => *to == *to2 && *at == *at2 && width_number(*width) == width_number(*width2),
            _ => false,
        },
        FlatStep::Store { at, from, width } => match b {
            FlatStep::Store {
                at: at2,
                from: from2,
                width: width2,
            } => *at == *at2 && *from == *from2 && width_number(*width) == width_number(*width2),
            _ => false,
        },
        FlatStep::Checked { from, to } => match b {
            FlatStep::Checked {
                from: from2,
                to: to2,
            } => *from == *from2 && *to == *to2,
            _ => false,
        },
        FlatStep::LineMark { line } => match b {
            FlatStep::LineMark { line: line2 } => *line == *line2,
            _ => false,
        },
        FlatStep::Report { kind, line } => match b {
            FlatStep::Report {
                kind: kind2,
                line: line2,
            } => kind_number(*kind) == kind_number(*kind2) && *line == *line2,
            _ => false,
        },
        FlatStep::Env {
            to,
            call,
            a: first,
            b: second,
        } => match b {
            FlatStep::Env {
                to: to2,
                call: call2,
                a: first2,
                b: second2,
            } => *to == *to2 && *call == *call2 && *first == *first2 && *second == *second2,
            _ => false,
        },
    }
}

#[cycle(same)]
fn are_same_steps(a: &[FlatStep], b: &[FlatStep]) -> bool
    ensures { result ≡ same_steps (steps_of a.now) (steps_of b.now) }
{
    match a {
        [] => match b {
            [] => true,
            _ => false,
        },
        [s, rest @ ..] => match b {
            [] => false,
            [t, others @ ..] => is_same_step(s, t) && are_same_steps(rest, others),
        },
    }
}

#[cycle(same)]
fn are_both_same(a: &[FlatStep], b: &[FlatStep], x: &[FlatStep], y: &[FlatStep]) -> bool
    ensures { result ≡ (same_steps (steps_of a.now) (steps_of b.now) && same_steps (steps_of x.now) (steps_of y.now)) }
{
    are_same_steps(a, b) && are_same_steps(x, y)
}

/// Whether the first list begins the second.
pub fn is_start(a: &[FlatStep], b: &[FlatStep]) -> bool
    ensures { result ≡ starts (steps_of a.now) (steps_of b.now) }
{
    match a {
        [] => true,
        [s, rest @ ..] => match b {
            [] => false,
            [t, others @ ..] => is_same_step(s, t) && is_start(rest, others),
        },
    }
}
