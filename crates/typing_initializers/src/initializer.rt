//! Initializers (C11 6.7.9). All failures have the line of the declared name.
ghost use Rattle.std.specs.Prelude.{◌≡◌, [], map, Ok, IfOk};
ghost use Rattle.std.specs.Option.{option_map};
ghost use Rattle.syntax_tree.specs.SyntaxViews.{expression_tree, initializer_tree, initializer_trees};
ghost use Rattle.typed_tree.specs.TypedRules as rules;
ghost use Rattle.typed_tree.specs.TypesViewed.{ty_of};
ghost use Rattle.typed_tree.specs.TypedViews.{struct_of, expr_of, initial_of};
ghost use Rattle.typing_operators.specs.Rule.{Gives, Runs};
ghost use Rattle.typing_expressions.specs.Names.{option_at};
ghost use Rattle.typing_expressions.specs.Scene.{scene_of};
ghost use Rattle.typing_expressions.specs.Initializers as spec;
ghost use Rattle.typing_initializers.specs.InitializerSteps as steps;

use crate::initial_bytes::{is_allowed, is_constant};
use c_words::place::At;
use std::alloc::{AllocError, Global};
use syntax_tree::syntax::{Expression, Initializer};
use typed_tree::typed_expr::TypedExpr;
use typed_tree::typed_stmt::TypedInitial;
use typed_tree::types::{StructType, Ty};
use typing_expressions::expression::{expression, joined};
use typing_expressions::scene::Scene;
use typing_operators::assignments::copied_from;
use typing_operators::conversions::{given, is_array, is_struct, is_void};
use typing_operators::error::TypeError;

/// A value in the initializer of a global, which is constant, or of a local.
fn allowed(
    is_global: bool,
    structs: &[StructType],
    line: u32,
    e: TypedExpr,
) -> Result<TypedExpr, TypeError>
    ensures { Gives expr_of result (spec.allowed is_global (map struct_of structs.now) line (expr_of e)) }
{
    if is_global && !is_constant(structs, &e) {
        return Err(TypeError::BadType { line, rule: 21 });
    }
    Ok(e)
}

/// Types the expressions of an initializer whose shape does not fit. A void value is refused before the shape is.
#[cycle(looked_at)]
#[tactic(auto, using(syntax_tree::proofs::SyntaxViews::declaration_views))]
fn looked_at(
    alloc: Global,
    scene: &mut Scene,
    initializer: &Initializer,
    line: u32,
) -> Result<(), TypeError>
    ensures { Gives (λ u. scene_of scene.new) result (spec.looked_at (scene_of scene.old) line (initializer_tree initializer.now)) }
{
    match initializer {
        Initializer::Expression(e) => {
            let value = expression(alloc, scene, e)?;
            if is_void(&value.ty) {
                return Err(TypeError::BadType { line, rule: 19 });
            }
            Ok(())
        }
        Initializer::Braced { parts, .. } => all_looked_at(alloc, scene, parts, line),
    }
}

/// Types the expressions of such initializers.
#[cycle(looked_at)]
fn all_looked_at(
    alloc: Global,
    scene: &mut Scene,
    parts: &[Initializer],
    line: u32,
) -> Result<(), TypeError>
    ensures { Gives (λ u. scene_of scene.new) result (spec.all_looked_at (scene_of scene.old) line (initializer_trees parts.now)) }
{
    for part in parts {
        looked_at(alloc, scene, part, line)?;
    }
    Ok(())
}

/// Whether the type is that of arrays of `char`.
fn is_text_array(ty: &Ty) -> bool
    ensures { result ≡ steps.is_text_array (ty_of ty.now) }
{
    match ty {
        Ty::Array(element, _) => match &**element {
            Ty::Char => true,
            Ty::Void | Ty::Int | Ty::Unsigned | Ty::Struct(_) | Ty::Pointer(_) | Ty::Array(_, _) =>
                { false }
        },
        Ty::Void | Ty::Char | Ty::Int | Ty::Unsigned | Ty::Struct(_) | Ty::Pointer(_) => false,
    }
}

/// The bytes of a string, if the expression is one without brackets.
#[tactic(auto, using(syntax_tree::proofs::SyntaxViews::expression_views))]
fn text_of(alloc: Global, e: &Expression) -> Result<Option<(At, Vec<u8>)>, AllocError>
    ensures { IfOk result (λ text. option_map steps.seen text ≡ steps.text_of (expression_tree e.now)) }
{
    match e {
        Expression::Text { at, pieces } => {
            let bytes = joined(alloc, pieces)?;
            Ok(Some((*at, Vec::from_slice(alloc, bytes.as_slice())?)))
        }
        Expression::Name { .. } | Expression::Number { .. } => Ok(None),
        Expression::Character { .. } | Expression::Null { .. } => Ok(None),
        Expression::Eof { .. } | Expression::Parenthesized { .. } => Ok(None),
        Expression::Index { .. } | Expression::Call { .. } => Ok(None),
        Expression::Member { .. } | Expression::Arrow { .. } => Ok(None),
        Expression::StepAfter { .. } | Expression::StepBefore { .. } => Ok(None),
        Expression::Unary { .. } | Expression::SizeofType { .. } => Ok(None),
        Expression::SizeofExpression { .. } | Expression::Cast { .. } => Ok(None),
        Expression::Binary { .. } | Expression::Conditional { .. } => Ok(None),
        Expression::Assign { .. } | Expression::Comma { .. } => Ok(None),
    }
}

/// How many elements an array has.
fn room_of(ty: &Ty) -> u32
    ensures { result ≡ spec.room_of (ty_of ty.now) }
{
    match ty {
        Ty::Array(_, count) => *count,
        Ty::Void | Ty::Char | Ty::Int | Ty::Unsigned | Ty::Struct(_) | Ty::Pointer(_) => 0,
    }
}

/// A value that is given to a scalar.
fn value_from(
    alloc: Global,
    scene: &Scene,
    is_global: bool,
    line: u32,
    ty: &Ty,
    e: TypedExpr,
) -> Result<TypedInitial, TypeError>
    ensures { Runs initial_of (scene_of scene.now) result (spec.value_from is_global line (ty_of ty.now) (expr_of e, scene_of scene.now)) }
{
    let value = given(alloc, line, ty, e)?;
    let value = allowed(is_global, scene.structs.as_slice(), line, value)?;
    Ok(TypedInitial::Value(value))
}

/// A part from an expression that is typed. An array or a struct takes none.
fn part_from_value(
    alloc: Global,
    scene: &Scene,
    is_global: bool,
    line: u32,
    ty: &Ty,
    e: TypedExpr,
) -> Result<TypedInitial, TypeError>
    ensures { Runs initial_of (scene_of scene.now) result (steps.part_from_value is_global line (ty_of ty.now) (expr_of e, scene_of scene.now)) }
{
    if is_array(ty) || is_struct(ty) {
        if is_void(&e.ty) {
            return Err(TypeError::BadType { line, rule: 19 });
        }
        return Err(TypeError::BadType { line, rule: 20 });
    }
    value_from(alloc, scene, is_global, line, ty, e)
}

/// One part, from an expression. An array of `char` takes a string.
fn part_from(
    alloc: Global,
    scene: &mut Scene,
    e: &Expression,
    is_global: bool,
    line: u32,
    ty: &Ty,
) -> Result<TypedInitial, TypeError>
    ensures { Runs initial_of (scene_of scene.new) result
        (spec.part_from is_global (scene_of scene.old) line (ty_of ty.now) (expression_tree e.now) (spec.string_of (ty_of ty.now) (expression_tree e.now))) }
{
    if is_text_array(ty) {
        if let Some((at, bytes)) = text_of(alloc, e)? {
            if bytes.len() > room_of(ty) as usize {
                return Err(TypeError::BadType { line, rule: 20 });
            }
            return Ok(TypedInitial::Text(at, bytes));
        }
    }
    let value = expression(alloc, scene, e)?;
    part_from_value(alloc, scene, is_global, line, ty, value)
}

/// The type of a part of an object.
pub fn part_type<'a>(structs: &'a [StructType], ty: &'a Ty, part: usize) -> Option<&'a Ty>
    ensures { option_at ty_of result ≡ rules.part_type (map struct_of structs.now) (ty_of ty.now) part }
{
    match ty {
        Ty::Array(element, count) => {
            if part < *count as usize {
                Some(&**element)
            } else {
                None
            }
        }
        Ty::Struct(k) => match structs.get(*k as usize) {
            None => None,
            Some(found) => match found.members.as_slice().get(part) {
                None => None,
                Some(member) => Some(&member.ty),
            },
        },
        Ty::Void | Ty::Char | Ty::Int | Ty::Unsigned | Ty::Pointer(_) => None,
    }
}

/// The type of a part of an object, as a type of its own.
fn own_part_type(
    alloc: Global,
    structs: &[StructType],
    ty: &Ty,
    part: usize,
) -> Result<Option<Ty>, AllocError>
    ensures { IfOk result (λ t. option_map ty_of t ≡ rules.part_type (map struct_of structs.now) (ty_of ty.now) part) }
{
    match part_type(structs, ty, part) {
        None => Ok(None),
        Some(found) => Ok(Some(found.copied(alloc)?)),
    }
}

/// Types parts that are too many, which are refused.
fn excess(
    alloc: Global,
    scene: &mut Scene,
    line: u32,
    parts: &[Initializer],
) -> Result<Vec<TypedInitial>, TypeError>
    ensures { Runs (λ ps. map initial_of ps.items) (scene_of scene.new) result (steps.excess (scene_of scene.old) line (initializer_trees parts.now)) }
{
    all_looked_at(alloc, scene, parts, line)?;
    Err(TypeError::BadType { line, rule: 20 })
}

/// What an initializer gives an object of the type, or a part of one.
#[cycle(initializers)]
#[tactic(auto, using(syntax_tree::proofs::SyntaxViews::declaration_views, typed_tree::proofs::TypedViewed::typed_views))]
fn initial(
    alloc: Global,
    scene: &mut Scene,
    initializer: &Initializer,
    is_global: bool,
    line: u32,
    ty: &Ty,
) -> Result<TypedInitial, TypeError>
    ensures { Runs initial_of (scene_of scene.new) result (spec.initial is_global (scene_of scene.old) line (ty_of ty.now) (initializer_tree initializer.now)) }
{
    match initializer {
        Initializer::Expression(e) => part_from(alloc, scene, e, is_global, line, ty),
        Initializer::Braced { at, parts } => {
            if is_array(ty) || is_struct(ty) {
                let given = initials(alloc, scene, parts, is_global, line, ty)?;
                return Ok(TypedInitial::Braces(*at, given));
            }
            all_looked_at(alloc, scene, parts, line)?;
            Err(TypeError::BadType { line, rule: 20 })
        }
    }
}

/// What the parts between braces give.
#[cycle(initializers)]
#[tactic(auto, using(typing_expressions::proofs::Pushed::initials_pushed))]
fn initials(
    alloc: Global,
    scene: &mut Scene,
    parts: &[Initializer],
    is_global: bool,
    line: u32,
    ty: &Ty,
) -> Result<Vec<TypedInitial>, TypeError>
    ensures { Runs (λ ps. map initial_of ps.items) (scene_of scene.new) result
        (spec.initials is_global [] (scene_of scene.old) line (ty_of ty.now) 0 (initializer_trees parts.now)) }
{
    let mut done = Vec::new(alloc);
    for i in 0..parts.len() {
        match own_part_type(alloc, scene.structs.as_slice(), ty, i)? {
            None => return excess(alloc, scene, line, &parts[i..]),
            Some(part) => {
                let value = initial(alloc, scene, &parts[i], is_global, line, &part)?;
                done.push(value)?;
            }
        }
    }
    Ok(done)
}

/// A whole declared struct that is copied from a place.
fn copied(
    scene: &Scene,
    is_global: bool,
    line: u32,
    ty: &Ty,
    e: TypedExpr,
) -> Result<TypedInitial, TypeError>
    ensures { Runs initial_of (scene_of scene.now) result (spec.copied is_global line (ty_of ty.now) (expr_of e, scene_of scene.now)) }
{
    if is_void(&e.ty) {
        return Err(TypeError::BadType { line, rule: 19 });
    }
    if is_global && !is_allowed(scene.structs.as_slice(), &e) {
        return Err(TypeError::BadType { line, rule: 21 });
    }
    let value = copied_from(line, ty, e)?;
    Ok(TypedInitial::Value(value))
}

/// The initializer of a declared object.
#[tactic(auto, using(syntax_tree::proofs::SyntaxViews::declaration_views))]
pub fn initialized(
    alloc: Global,
    scene: &mut Scene,
    initializer: &Initializer,
    is_global: bool,
    line: u32,
    ty: &Ty,
) -> Result<TypedInitial, TypeError>
    ensures { Runs initial_of (scene_of scene.new) result
        (spec.initialized is_global (scene_of scene.old) line (ty_of ty.now) (initializer_tree initializer.now)) }
{
    if !is_struct(ty) {
        return initial(alloc, scene, initializer, is_global, line, ty);
    }
    match initializer {
        Initializer::Expression(e) => {
            let value = expression(alloc, scene, e)?;
            copied(scene, is_global, line, ty, value)
        }
        Initializer::Braced { .. } => initial(alloc, scene, initializer, is_global, line, ty),
    }
}
