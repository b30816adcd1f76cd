//! Calls (C11 6.5.2.2): what is called, and the arguments.
ghost use Rattle.std.specs.Prelude.{◌≡◌, map, IfOk, Ok, slice_set, true};
ghost use Rattle.typed_tree.specs.declared.typed_expr.Called.TheVariants.{Library};
ghost use Rattle.typing_expressions.specs.declared.calls.Callee.TheVariants.{Function};
ghost use Rattle.typed_tree.specs.TypesViewed.{ty_of};
ghost use Rattle.typed_tree.specs.TypedViews.{expr_of, exprs_of};
ghost use Rattle.typed_tree.specs.TypedRules.{prototype_in_library};
ghost use Rattle.syntax_tree.specs.SyntaxViews.{expression_tree};
ghost use Rattle.typing_operators.specs.Rule.{Gives, Runs};
ghost use Rattle.typing_operators.specs.Operators as rules;
ghost use Rattle.typing_expressions.specs.Scene.{scene_of};
ghost use Rattle.typing_expressions.specs.Expressions as spec;

use crate::scene::{Entry, Scene, at_file_scope, local};
use bb_words::list::List;
use c_words::place::At;
use std::alloc::{AllocError, Global};
use syntax_tree::syntax::Expression;
use typed_tree::typed_expr::{Called, LibCall, TypedExpr, TypedForm};
use typed_tree::types::Ty;
use typing_operators::conversions::given;
use typing_operators::error::TypeError;

/// What a called name names.
#[derive(Clone, Copy, Debug, PartialEq, Eq)]
pub enum Callee {
    /// The function at this place among those that are declared.
    Function(u32),
    /// A function of the library.
    Library(LibCall),
    /// An object, which can't be called.
    Object,
}

/// The function of the library that has the name.
#[tactic(auto, unfolding(crate::specs::Expressions::in_library))]
pub fn in_library(name: &[u8]) -> Option<LibCall>
    ensures { result ≡ spec.in_library name.now }
{
    if name == b"putchar".as_slice() {
        Some(LibCall::Putchar)
    } else if name == b"getchar".as_slice() {
        Some(LibCall::Getchar)
    } else if name == b"exit".as_slice() {
        Some(LibCall::Exit)
    } else if name == b"malloc".as_slice() {
        Some(LibCall::Malloc)
    } else if name == b"calloc".as_slice() {
        Some(LibCall::Calloc)
    } else if name == b"free".as_slice() {
        Some(LibCall::Free)
    } else if name == b"memcpy".as_slice() {
        Some(LibCall::Memcpy)
    } else if name == b"memset".as_slice() {
        Some(LibCall::Memset)
    } else {
        None
    }
}

/// The object that a name names.
#[tactic(auto, unfolding(crate::specs::Expressions::object))]
pub fn object(alloc: Global, scene: &Scene, at: At, name: &[u8]) -> Result<TypedExpr, TypeError>
    ensures { Gives expr_of result (spec.object (scene_of scene.now) at name.now) }
{
    if let Some(found) = local(scene.scopes.as_slice(), name) {
        return Ok(TypedExpr {
            at,
            ty: found.ty.copied(alloc)?,
            form: TypedForm::Local(found.number),
        });
    }
    match at_file_scope(scene, name) {
        Some(Entry::Object(number, ty)) => Ok(TypedExpr {
            at,
            ty: ty.copied(alloc)?,
            form: TypedForm::Global(*number),
        }),
        Some(Entry::Function(_)) => Err(TypeError::BadType {
            line: at.line,
            rule: 16,
        }),
        None => match in_library(name) {
            Some(_) => Err(TypeError::BadType {
                line: at.line,
                rule: 16,
            }),
            None => Err(TypeError::Unknown {
                line: at.line,
                name: List::copy_of(alloc, name)?,
            }),
        },
    }
}

/// What a called name names.
#[tactic(auto, unfolding(crate::specs::Expressions::callee_named))]
fn callee_named(alloc: Global, scene: &Scene, at: At, name: &[u8]) -> Result<Callee, TypeError>
    ensures { Gives (λ c. c) result (spec.callee_named (scene_of scene.now) at name.now) }
{
    if local(scene.scopes.as_slice(), name).is_some() {
        return Ok(Callee::Object);
    }
    match at_file_scope(scene, name) {
        Some(Entry::Object(_, _)) => Ok(Callee::Object),
        Some(Entry::Function(place)) => Ok(Callee::Function(*place)),
        None => match in_library(name) {
            Some(function) => Ok(Callee::Library(function)),
            None => Err(TypeError::Unknown {
                line: at.line,
                name: List::copy_of(alloc, name)?,
            }),
        },
    }
}

/// What the called name names, if it is a name that is called.
#[tactic(auto, using(syntax_tree::proofs::SyntaxViews::expression_views))]
pub fn callee_of(
    alloc: Global,
    scene: &Scene,
    called: &Expression,
) -> Result<Option<Callee>, TypeError>
    ensures { Gives (λ c. c) result (spec.callee_of (scene_of scene.now) (expression_tree called.now)) }
{
    match called {
        Expression::Name { at, name } => {
            Ok(Some(callee_named(alloc, scene, *at, name.as_slice())?))
        }
        Expression::Number { .. } | Expression::Character { .. } => Ok(None),
        Expression::Text { .. } | Expression::Null { .. } => Ok(None),
        Expression::Eof { .. } | Expression::Parenthesized { .. } => Ok(None),
        Expression::Index { .. } | Expression::Call { .. } => Ok(None),
        Expression::Member { .. } | Expression::Arrow { .. } => Ok(None),
        Expression::StepAfter { .. } | Expression::StepBefore { .. } => Ok(None),
        Expression::Unary { .. } | Expression::SizeofType { .. } => Ok(None),
        Expression::SizeofExpression { .. } | Expression::Cast { .. } => Ok(None),
        Expression::Binary { .. } | Expression::Conditional { .. } => Ok(None),
        Expression::Assign { .. } | Expression::Comma { .. } => Ok(None),
    }
}

/// The arguments, each given to its parameter's type.
fn passed(
    alloc: Global,
    line: u32,
    params: &[Ty],
    arguments: Vec<TypedExpr>,
) -> Result<Vec<TypedExpr>, TypeError>
    ensures { Gives (λ es. exprs_of es.items) result (rules.passed line (map ty_of params.now) (exprs_of arguments.items)) }
{
    let mut given_to = Vec::new(alloc);
    let mut rest = arguments.into_iter();
    for ty in params {
        match rest.next() {
            None => return Err(TypeError::BadType { line, rule: 16 }),
            Some(argument) => {
                let value = given(alloc, line, ty, argument)?;
                given_to.push(value)?;
            }
        }
    }
    match rest.next() {
        None => Ok(given_to),
        Some(_) => Err(TypeError::BadType { line, rule: 16 }),
    }
}

/// A call with a prototype.
#[tactic(auto, unfolding(typing_operators::specs::Operators::call_rule))]
fn call(
    alloc: Global,
    at: At,
    called: Called,
    result_type: Ty,
    params: &[Ty],
    arguments: Vec<TypedExpr>,
) -> Result<TypedExpr, TypeError>
    ensures { Gives expr_of result (rules.call_rule at called (ty_of result_type) (map ty_of params.now) (exprs_of arguments.items)) }
{
    let arguments = passed(alloc, at.line, params, arguments)?;
    Ok(TypedExpr {
        at,
        ty: result_type,
        form: TypedForm::Call(called, arguments),
    })
}

/// The parameters of a function of the library.
fn params_in_library(alloc: Global, function: LibCall) -> Result<Vec<Ty>, TypeError>
    ensures { Gives (λ ts. map ty_of ts.items) result (Ok (prototype_in_library function).params) }
{
    let any = Ty::pointer(alloc, Ty::Void)?;
    match function {
        LibCall::Getchar => Ok(Vec::new(alloc)),
        LibCall::Putchar | LibCall::Exit => Ok(Vec::from_array(alloc, [Ty::Int])?),
        LibCall::Malloc => Ok(Vec::from_array(alloc, [Ty::Unsigned])?),
        LibCall::Calloc => Ok(Vec::from_array(alloc, [Ty::Unsigned, Ty::Unsigned])?),
        LibCall::Free => Ok(Vec::from_array(alloc, [any])?),
        LibCall::Memcpy => {
            let from = any.copied(alloc)?;
            Ok(Vec::from_array(alloc, [any, from, Ty::Unsigned])?)
        }
        LibCall::Memset => Ok(Vec::from_array(alloc, [any, Ty::Int, Ty::Unsigned])?),
    }
}

/// The result of a function of the library.
fn result_in_library(alloc: Global, function: LibCall) -> Result<Ty, AllocError>
    ensures { IfOk result (λ t. ty_of t ≡ (prototype_in_library function).result) }
{
    match function {
        LibCall::Putchar | LibCall::Getchar => Ok(Ty::Int),
        LibCall::Exit | LibCall::Free => Ok(Ty::Void),
        LibCall::Malloc | LibCall::Calloc | LibCall::Memcpy | LibCall::Memset => {
            Ty::pointer(alloc, Ty::Void)
        }
    }
}

/// A call of a declared function.
fn function_called(
    alloc: Global,
    scene: &mut Scene,
    at: At,
    place: u32,
    arguments: Vec<TypedExpr>,
) -> Result<TypedExpr, TypeError>
    ensures { Runs expr_of (scene_of scene.new) result (spec.called (scene_of scene.old) at (Function place) (map expr_of arguments.items)) }
{
    let Some(function) = scene.functions.get(place as usize) else {
        return Err(TypeError::BadType {
            line: at.line,
            rule: 16,
        });
    };
    let result_type = function.result.copied(alloc)?;
    let called = Called::Defined(function.number);
    let e = call(
        alloc,
        at,
        called,
        result_type,
        function.params.as_slice(),
        arguments,
    )?;
    mark(&mut scene.called, place);
    Ok(e)
}

/// Marks the function as called.
pub fn mark(called: &mut Vec<bool>, place: u32)
    ensures { called.new.items ≡ slice_set called.old.items place true }
{
    if (place as usize) < called.len() {
        called[place as usize] = true;
    }
}

/// A call of a function of the library.
fn library_called(
    alloc: Global,
    at: At,
    function: LibCall,
    arguments: Vec<TypedExpr>,
) -> Result<TypedExpr, TypeError>
    ensures { Gives expr_of result
        (rules.call_rule at (Library function) (prototype_in_library function).result (prototype_in_library function).params (exprs_of arguments.items)) }
{
    let params = params_in_library(alloc, function)?;
    let result_type = result_in_library(alloc, function)?;
    call(
        alloc,
        at,
        Called::Library(function),
        result_type,
        params.as_slice(),
        arguments,
    )
}

/// A call of what is called, with its arguments.
pub fn called(
    alloc: Global,
    scene: &mut Scene,
    at: At,
    callee: Callee,
    arguments: Vec<TypedExpr>,
) -> Result<TypedExpr, TypeError>
    ensures { Runs expr_of (scene_of scene.new) result (spec.called (scene_of scene.old) at callee (map expr_of arguments.items)) }
{
    match callee {
        Callee::Function(place) => function_called(alloc, scene, at, place, arguments),
        Callee::Library(function) => Ok(library_called(alloc, at, function, arguments)?),
        Callee::Object => Err(TypeError::BadType {
            line: at.line,
            rule: 16,
        }),
    }
}
