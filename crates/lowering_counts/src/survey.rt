//! What is counted of a typed tree before its code is made.
ghost use Rattle.std.specs.Prelude.{◌≡◌, ◌+◌, ◌&&◌, true, min, max, sum};
ghost use Rattle.typed_tree.specs.TypesViewed.{ty_of};
ghost use Rattle.typed_tree.specs.TypedViews.{expr_of, exprs_of};
ghost use Rattle.typed_tree.specs.Counts.{nodes_of, temps_of, own_nodes, own_temps, temps_with};
ghost use Rattle.typed_tree.specs.Walk.{every_expr, walked_all, all_of};
ghost use Rattle.lowering_counts.specs.Built as built;

use typed_tree::typed_expr::{Called, LibCall, TypedExpr, TypedForm};
use typed_tree::typed_laws::temps_at_least_four;
use typed_tree::types::Ty;

/// What a tree counts, up to the greatest `u32`, and whether all of it is built.
#[derive(Clone, Copy)]
pub struct Survey {
    pub nodes: u32,
    pub temps: u32,
    pub built: bool,
}

/// Whether a type is a pointer, or an array of such elements.
pub fn has_pointer(ty: &Ty) -> bool
    ensures { result ≡ built.has_pointer (ty_of ty.now) }
{
    match ty {
        Ty::Pointer(_) => true,
        Ty::Array(element, _) => has_pointer(element),
        Ty::Void | Ty::Char | Ty::Int | Ty::Unsigned | Ty::Struct(_) => false,
    }
}

/// Whether a function of the library works on numbers alone.
fn is_of_numbers(which: LibCall) -> bool
    ensures { result ≡ built.is_of_numbers which }
{
    match which {
        LibCall::Putchar | LibCall::Getchar | LibCall::Exit => true,
        LibCall::Malloc | LibCall::Calloc | LibCall::Free | LibCall::Memcpy | LibCall::Memset => {
            false
        }
    }
}

/// Whether a called function is built.
fn is_called(called: Called) -> bool
    ensures { result ≡ built.is_called called }
{
    match called {
        Called::Defined(_) => true,
        Called::Library(which) => is_of_numbers(which),
    }
}

/// Whether an expression by itself is built.
fn is_built_expr(e: &TypedExpr) -> bool
    ensures { result ≡ built.is_built_expr (expr_of e.now) }
{
    let flat = !has_pointer(&e.ty);
    match &e.form {
        TypedForm::Call(called, _) => flat && is_called(*called),
        TypedForm::SizeofType(ty) => flat && !has_pointer(ty),
        _ => flat,
    }
}

/// The greater of two numbers.
pub fn greater(a: u32, b: u32) -> u32
    ensures { result ≡ max a b }
{
    if a < b { b } else { a }
}

/// Whether both hold.
pub fn both(a: bool, b: bool) -> bool
    ensures { result ≡ (a && b) }
{
    a && b
}

/// What an expression without operands counts.
fn leaf(built: bool) -> Survey
    ensures nodes { result.nodes ≡ 1 }
    ensures temps { result.temps ≡ 4 }
    ensures built { result.built ≡ (built && true) }
{
    Survey {
        nodes: 1,
        temps: 4,
        built,
    }
}

/// What an expression with one operand counts.
fn with_one(own: bool, a: Survey) -> Survey
    ensures nodes { result.nodes ≡ min (1 + (a.nodes + 0)) 4294967295 }
    ensures temps { result.temps ≡ max a.temps 0 }
    ensures built { result.built ≡ (own && (a.built && true)) }
{
    Survey {
        nodes: a.nodes.saturating_add(1),
        temps: a.temps,
        built: own && a.built,
    }
}

/// What an expression with two operands counts.
fn with_two(own: bool, a: Survey, b: Survey) -> Survey
    ensures nodes { result.nodes ≡ min (1 + (a.nodes + (b.nodes + 0))) 4294967295 }
    ensures temps { result.temps ≡ max a.temps (min (max (1 + b.temps) 0) 4294967295) }
    ensures built { result.built ≡ (own && (a.built && (b.built && true))) }
{
    Survey {
        nodes: a.nodes.saturating_add(b.nodes).saturating_add(1),
        temps: greater(a.temps, b.temps.saturating_add(1)),
        built: own && a.built && b.built,
    }
}

/// What an expression with three operands counts.
fn with_three(own: bool, a: Survey, b: Survey, c: Survey) -> Survey
    ensures nodes { result.nodes ≡ min (1 + (a.nodes + (b.nodes + (c.nodes + 0)))) 4294967295 }
    ensures temps { result.temps ≡ max a.temps (min (max (1 + b.temps) (max (2 + c.temps) 0)) 4294967295) }
    ensures built { result.built ≡ (own && (a.built && (b.built && (c.built && true)))) }
{
    let nodes = a.nodes.saturating_add(b.nodes).saturating_add(c.nodes);
    Survey {
        nodes: nodes.saturating_add(1),
        temps: greater(
            a.temps,
            greater(b.temps.saturating_add(1), c.temps.saturating_add(2)),
        ),
        built: own && a.built && b.built && c.built,
    }
}

/// What an expression counts, its operands included.
#[tactic(auto, using(crate::proofs::Counted::counted))]
#[cycle(survey)]
pub fn survey_expr(e: &TypedExpr) -> Survey
    ensures nodes { result.nodes ≡ min (nodes_of (expr_of e.now)) 4294967295 }
    ensures temps { result.temps ≡ min (temps_of (expr_of e.now)) 4294967295 }
    ensures built { result.built ≡ every_expr built.is_built_expr (expr_of e.now) }
{
    let own = is_built_expr(e);
    match &e.form {
        TypedForm::Local(_)
        | TypedForm::Global(_)
        | TypedForm::Text(_)
        | TypedForm::Number(_)
        | TypedForm::Character(_)
        | TypedForm::Null
        | TypedForm::Eof
        | TypedForm::SizeofType(_) => leaf(own),
        TypedForm::Convert(_, a) => {
            let inner = survey_expr(a);
            Survey {
                nodes: inner.nodes,
                temps: inner.temps,
                built: own && inner.built,
            }
        }
        TypedForm::SizeofExpression(a) => {
            let inner = survey_expr(a);
            leaf(own && inner.built)
        }
        TypedForm::Member(a, _) => with_one(own, survey_expr(a)),
        TypedForm::Arrow(a, _) => with_one(own, survey_expr(a)),
        TypedForm::StepBefore(_, a) => with_one(own, survey_expr(a)),
        TypedForm::StepAfter(_, a) => with_one(own, survey_expr(a)),
        TypedForm::Unary(_, a) => with_one(own, survey_expr(a)),
        TypedForm::Cast(a) => with_one(own, survey_expr(a)),
        TypedForm::Index(a, b) => with_two(own, survey_expr(a), survey_expr(b)),
        TypedForm::Binary(_, a, b) => with_two(own, survey_expr(a), survey_expr(b)),
        TypedForm::Assign(_, a, b) => with_two(own, survey_expr(a), survey_expr(b)),
        TypedForm::Comma(a, b) => with_two(own, survey_expr(a), survey_expr(b)),
        TypedForm::Conditional(q, a, b) => {
            with_three(own, survey_expr(q), survey_expr(a), survey_expr(b))
        }
        TypedForm::Call(_, args) => survey_args(own, args),
    }
}

/// What a call with these arguments counts.
#[cycle(survey)]
fn survey_args(own: bool, args: &[TypedExpr]) -> Survey
    ensures nodes { result.nodes ≡ min (1 + sum (walked_all own_nodes (exprs_of args.now))) 4294967295 }
    ensures temps { result.temps ≡ min (temps_with (walked_all own_temps (exprs_of args.now))) 4294967295 }
    ensures built { result.built ≡ (own && all_of (walked_all (λ e bs. built.is_built_expr e && all_of bs) (exprs_of args.now))) }
{
    temps_at_least_four();
    let mut nodes: u32 = 1;
    let mut temps: u32 = 4;
    let mut built = own;
    let mut before: u32 = 0;
    for e in args {
        let one = survey_expr(e);
        nodes = nodes.saturating_add(one.nodes);
        temps = greater(temps, one.temps.saturating_add(before));
        built = both(built, one.built);
        before = before.saturating_add(1);
    }
    Survey {
        nodes,
        temps,
        built,
    }
}
