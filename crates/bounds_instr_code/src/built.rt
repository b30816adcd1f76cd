//! Which programs are built.
ghost use Rattle.std.specs.Prelude.{◌≡◌, map};
ghost use Rattle.mid_code.specs.Views.{step_of, steps_of, function_of, program_of};
ghost use Rattle.bounds_instr_code.specs.Built as built;

use mid_code::code::{Mid, MidFunction, MidStep};
use typed_tree::typed_expr::LibCall;

fn is_of_environment(which: LibCall) -> bool
    ensures { result ≡ built.is_of_environment which }
{
    match which {
        LibCall::Putchar
        | LibCall::Getchar
        | LibCall::Exit
        | LibCall::Malloc
        | LibCall::Calloc
        | LibCall::Free => true,
        LibCall::Memcpy | LibCall::Memset => false,
    }
}

/// Whether a step names no object and copies none, nor any step in it.
#[tactic(auto, using(mid_code::proofs::Views::step_views))]
#[cycle(steps)]
fn is_built_step(x: &MidStep) -> bool
    ensures { result ≡ built.is_built_step (step_of x.now) }
{
    match x {
        MidStep::Number { to: _, value: _ }
        | MidStep::NullPtr { to: _ }
        | MidStep::Same { to: _, from: _ }
        | MidStep::Arith {
            to: _,
            op: _,
            left: _,
            right: _,
        }
        | MidStep::Divide {
            to: _,
            op: _,
            left: _,
            right: _,
            line: _,
        }
        | MidStep::PtrSame {
            to: _,
            left: _,
            right: _,
        }
        | MidStep::Call {
            to: _,
            function: _,
            args: _,
        }
        | MidStep::PtrOrder {
            to: _,
            op: _,
            left: _,
            right: _,
        }
        | MidStep::PtrDiff {
            to: _,
            left: _,
            right: _,
            size: _,
        }
        | MidStep::Move {
            site: _,
            to: _,
            from: _,
            by: _,
            scale: _,
            down: _,
            line: _,
        }
        | MidStep::MoveBy {
            site: _,
            to: _,
            from: _,
            distance: _,
            line: _,
        }
        | MidStep::Load {
            to: _,
            at: _,
            width: _,
            line: _,
        }
        | MidStep::Store {
            at: _,
            from: _,
            width: _,
        }
        | MidStep::Exit { levels: _ }
        | MidStep::Return { from: _ }
        | MidStep::LineMark { line: _ } => true,
        MidStep::Library {
            to: _,
            which,
            args: _,
            line: _,
            site_a: _,
            site_b: _,
        } => is_of_environment(*which),
        MidStep::If { cond: _, yes, no } => {
            let first = are_built_steps(yes);
            let second = are_built_steps(no);
            first && second
        }
        MidStep::Block { body } | MidStep::Loop { body } => are_built_steps(body),
        MidStep::Named { to: _, object: _ }
        | MidStep::Clear { object: _ }
        | MidStep::Init {
            object: _,
            offset: _,
            from: _,
            width: _,
        }
        | MidStep::CopyBytes {
            site_from: _,
            site_to: _,
            from: _,
            to: _,
            length: _,
            line: _,
        } => false,
    }
}

#[cycle(steps)]
fn are_built_steps(xs: &[MidStep]) -> bool
    ensures { result ≡ built.are_built_steps (steps_of xs.now) }
{
    for x in xs {
        if !is_built_step(x) {
            return false;
        }
    }
    true
}

fn is_built_function(f: &MidFunction) -> bool
    ensures { result ≡ built.is_built_function (function_of f.now) }
{
    let body = are_built_steps(&f.body);
    f.blocks.len() == 0 && body
}

fn are_built_functions(functions: &[MidFunction]) -> bool
    ensures { result ≡ built.are_built_functions (map function_of functions.now) }
{
    for f in functions {
        if !is_built_function(f) {
            return false;
        }
    }
    true
}

/// Whether a program is built.
pub fn is_built(p: &Mid) -> bool
    ensures { result ≡ built.is_built (program_of p.now) }
{
    let functions = are_built_functions(p.functions.as_slice());
    p.globals.len() == 0 && functions
}
