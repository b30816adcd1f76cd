//! The typing of expressions, and of the type names in them.
ghost use Rattle.std.specs.Prelude.{◌≡◌, ◌++◌, ◌∷◌, [], map, Ok, OnOk, IfOk};
ghost use Rattle.syntax_tree.specs.SyntaxViews.{expression_tree, expression_trees, type_name_tree, type_declarator_tree};
ghost use Rattle.typed_tree.specs.TypedViews.{expr_of};
ghost use Rattle.typed_tree.specs.TypesViewed.{ty_of};
ghost use Rattle.typing_operators.specs.Rule.{Gives, Runs};
ghost use Rattle.typing_expressions.specs.Scene.{scene_of};
ghost use Rattle.typing_expressions.specs.Parts.{parts_of};
ghost use Rattle.typing_expressions.specs.Expressions as spec;

use crate::calls::{called, callee_of, object};
use crate::parts::{Part, count_of, formed};
use crate::scene::Scene;
use bb_words::list::{Bytes, List};
use c_words::place::At;
use std::alloc::{AllocError, Global};
use std::mem;
use syntax_tree::syntax::{Expression, Specifier, TypeDeclarator, TypeName};
use typed_tree::typed_expr::{TypedExpr, TypedForm};
use typed_tree::types::{StructType, Ty};
use typing_operators::assignments::assign;
use typing_operators::binary::{binary, comma, conditional};
use typing_operators::error::TypeError;
use typing_operators::places::{arrow, index, member};
use typing_operators::unary::{cast, measured, measured_type, step_after, step_before, unary};

/// Strings that stand side by side, as one.
pub fn joined(alloc: Global, pieces: &[Bytes]) -> Result<Bytes, AllocError>
    ensures { IfOk result (λ bytes. bytes ≡ spec.joined pieces.now) }
{
    let mut bytes = Vec::new(alloc);
    for piece in pieces {
        bytes.extend_from_slice(piece.as_slice())?;
    }
    Ok(List::from_vec(bytes))
}

/// A string, which becomes an object.
#[tactic(auto, unfolding(crate::specs::Expressions::text))]
fn text(alloc: Global, scene: &mut Scene, at: At, bytes: Bytes) -> Result<TypedExpr, TypeError>
    ensures { Runs expr_of (scene_of scene.new) result (spec.text (scene_of scene.old) at bytes) }
{
    let size = bytes.len() as u64 + 1;
    if size > 1_048_576 {
        return Err(TypeError::TooLarge {
            line: at.line,
            size,
        });
    }
    let Ok(number) = u32::try_from(scene.texts.len()) else {
        return Err(TypeError::Memory);
    };
    let ty = Ty::array(alloc, Ty::Char, size as u32)?;
    scene.texts.push(bytes)?;
    Ok(TypedExpr {
        at,
        ty,
        form: TypedForm::Text(number),
    })
}

/// The number of the struct of a tag, whose first mention declares it.
#[tactic(auto, using(crate::proofs::Steps::structs_pushed))]
pub fn tagged(alloc: Global, scene: &mut Scene, tag: &[u8]) -> Result<u32, TypeError>
    ensures { Runs (λ k. k) (scene_of scene.new) result (Ok (spec.tagged (scene_of scene.old) tag.now)) }
{
    if let Some(number) = scene.tags.get(tag) {
        return Ok(*number);
    }
    let Ok(number) = u32::try_from(scene.structs.len()) else {
        return Err(TypeError::Memory);
    };
    scene.structs.push(StructType {
        tag: List::copy_of(alloc, tag)?,
        members: List::new(alloc),
        size: 0,
        align: 1,
    })?;
    scene.tags.insert(alloc, tag, number)?;
    Ok(number)
}

/// The type that a specifier names.
pub fn based(alloc: Global, scene: &mut Scene, specifier: &Specifier) -> Result<Ty, TypeError>
    ensures { Runs ty_of (scene_of scene.new) result (Ok (spec.based (scene_of scene.old) specifier.now)) }
{
    match specifier {
        Specifier::Void { .. } => Ok(Ty::Void),
        Specifier::Char { .. } | Specifier::UnsignedChar { .. } => Ok(Ty::Char),
        Specifier::Int { .. } | Specifier::Signed { .. } | Specifier::SignedInt { .. } => {
            Ok(Ty::Int)
        }
        Specifier::Unsigned { .. } | Specifier::UnsignedInt { .. } => Ok(Ty::Unsigned),
        Specifier::Struct { tag, .. } => Ok(Ty::Struct(tagged(alloc, scene, tag.as_slice())?)),
    }
}

/// Adds so many pointers.
#[tactic(auto, using(crate::proofs::Steps::parts_pushed))]
pub fn pointed(parts: &mut Vec<Part>, stars: u32) -> Result<(), AllocError>
    ensures { OnOk result (parts_of parts.new.items ≡ spec.pointed (parts_of parts.old.items) stars) }
{
    for _star in 0..stars {
        parts.push(Part::Pointer)?;
    }
    Ok(())
}

/// What stays as it is while the size of an array is typed.
#[derive(Drop)]
struct Kept {
    texts: Vec<Bytes>,
    called: Vec<bool>,
}

/// Puts the strings and the calls aside: those in the size of an array do not count.
fn set_aside(alloc: Global, scene: &mut Scene) -> Kept
    ensures scene { scene_of scene.new ≡ spec.aside (scene_of scene.old) }
    ensures texts { result.texts.items ≡ (scene_of scene.old).texts }
    ensures called { result.called.items ≡ (scene_of scene.old).called }
{
    let texts = mem::replace(&mut scene.texts, Vec::new(alloc));
    let called = mem::replace(&mut scene.called, Vec::new(alloc));
    Kept { texts, called }
}

/// Brings them back.
fn bring_back(scene: &mut Scene, kept: Kept)
    ensures { scene_of scene.new ≡ record (scene_of scene.old) { texts = kept.texts.items; called = kept.called.items } }
{
    scene.texts = kept.texts;
    scene.called = kept.called;
}

/// An expression with its type.
#[cycle(expressions)]
#[tactic(auto, using(syntax_tree::proofs::SyntaxViews::expression_views))]
pub fn expression(alloc: Global, scene: &mut Scene, e: &Expression) -> Result<TypedExpr, TypeError>
    ensures { Runs expr_of (scene_of scene.new) result (spec.typed (scene_of scene.old) (expression_tree e.now)) }
{
    match e {
        Expression::Name { at, name } => Ok(object(alloc, scene, *at, name.as_slice())?),
        Expression::Number {
            at,
            value,
            is_unsigned,
        } => Ok(TypedExpr {
            at: *at,
            ty: if *is_unsigned { Ty::Unsigned } else { Ty::Int },
            form: TypedForm::Number(*value),
        }),
        Expression::Character { at, value } => Ok(TypedExpr {
            at: *at,
            ty: Ty::Int,
            form: TypedForm::Character(*value),
        }),
        Expression::Text { at, pieces } => {
            let bytes = joined(alloc, pieces)?;
            text(alloc, scene, *at, bytes)
        }
        Expression::Null { at } => Ok(TypedExpr {
            at: *at,
            ty: Ty::pointer(alloc, Ty::Void)?,
            form: TypedForm::Null,
        }),
        Expression::Eof { at } => Ok(TypedExpr {
            at: *at,
            ty: Ty::Int,
            form: TypedForm::Eof,
        }),
        Expression::Parenthesized { inner, .. } => expression(alloc, scene, inner),
        Expression::Index {
            at,
            array,
            index: place,
        } => {
            let x = expression(alloc, scene, array)?;
            let y = expression(alloc, scene, place)?;
            Ok(index(alloc, scene.structs.as_slice(), *at, x, y)?)
        }
        Expression::Call {
            at,
            called: function,
            arguments: es,
        } => {
            match callee_of(alloc, scene, function)? {
                None => {
                    let _operand = expression(alloc, scene, function)?;
                    let _values = arguments(alloc, scene, es)?;
                    Err(TypeError::BadType {
                        line: at.line,
                        rule: 16,
                    })
                }
                Some(callee) => {
                    let values = arguments(alloc, scene, es)?;
                    called(alloc, scene, *at, callee, values)
                }
            }
        }
        Expression::Member {
            at,
            object: of,
            member: name,
        } => {
            let x = expression(alloc, scene, of)?;
            Ok(member(alloc, scene.structs.as_slice(), *at, x, name.as_slice())?)
        }
        Expression::Arrow {
            at,
            pointer,
            member: name,
        } => {
            let x = expression(alloc, scene, pointer)?;
            Ok(arrow(alloc, scene.structs.as_slice(), *at, x, name.as_slice())?)
        }
        Expression::StepAfter {
            at,
            operand,
            operator,
        } => {
            let x = expression(alloc, scene, operand)?;
            Ok(step_after(alloc, scene.structs.as_slice(), *at, *operator, x)?)
        }
        Expression::StepBefore {
            at,
            operator,
            operand,
        } => {
            let x = expression(alloc, scene, operand)?;
            Ok(step_before(alloc, scene.structs.as_slice(), *at, *operator, x)?)
        }
        Expression::Unary {
            at,
            operator,
            operand,
        } => {
            let x = expression(alloc, scene, operand)?;
            Ok(unary(alloc, scene.structs.as_slice(), *at, *operator, x)?)
        }
        Expression::SizeofType { at, type_name } => {
            let ty = type_named(alloc, scene, type_name)?;
            Ok(measured_type(scene.structs.as_slice(), *at, ty)?)
        }
        Expression::SizeofExpression { at, operand } => {
            let x = expression(alloc, scene, operand)?;
            Ok(measured(alloc, scene.structs.as_slice(), *at, x)?)
        }
        Expression::Cast {
            at,
            type_name,
            operand,
        } => {
            let ty = type_named(alloc, scene, type_name)?;
            let x = expression(alloc, scene, operand)?;
            Ok(cast(alloc, *at, ty, x)?)
        }
        Expression::Binary {
            at,
            left,
            operator,
            right,
        } => {
            let x = expression(alloc, scene, left)?;
            let y = expression(alloc, scene, right)?;
            Ok(binary(alloc, scene.structs.as_slice(), *at, *operator, x, y)?)
        }
        Expression::Conditional {
            at,
            condition,
            then,
            otherwise,
        } => {
            let x = expression(alloc, scene, condition)?;
            let y = expression(alloc, scene, then)?;
            let z = expression(alloc, scene, otherwise)?;
            Ok(conditional(alloc, *at, x, y, z)?)
        }
        Expression::Assign {
            at,
            left,
            operator,
            right,
        } => {
            let x = expression(alloc, scene, left)?;
            let y = expression(alloc, scene, right)?;
            Ok(assign(alloc, scene.structs.as_slice(), *at, *operator, x, y)?)
        }
        Expression::Comma { at, left, right } => {
            let x = expression(alloc, scene, left)?;
            let y = expression(alloc, scene, right)?;
            Ok(comma(alloc, *at, x, y)?)
        }
    }
}

/// Expressions from left to right.
#[cycle(expressions)]
#[tactic(auto, using(crate::proofs::Steps::exprs_pushed))]
fn arguments(
    alloc: Global,
    scene: &mut Scene,
    es: &[Expression],
) -> Result<Vec<TypedExpr>, TypeError>
    ensures { Runs (λ v. map expr_of v.items) (scene_of scene.new) result (spec.typed_all [] (scene_of scene.old) (expression_trees es.now)) }
{
    let mut values = Vec::new(alloc);
    for e in es {
        let value = expression(alloc, scene, e)?;
        values.push(value)?;
    }
    Ok(values)
}

/// The type that a type name names.
#[cycle(expressions)]
#[tactic(auto, using(syntax_tree::proofs::SyntaxViews::expression_views))]
fn type_named(alloc: Global, scene: &mut Scene, name: &TypeName) -> Result<Ty, TypeError>
    ensures { Runs ty_of (scene_of scene.new) result (spec.type_named (scene_of scene.old) (type_name_tree name.now)) }
{
    let base = based(alloc, scene, &name.specifier)?;
    let mut parts = Vec::new(alloc);
    steps_of(alloc, scene, &name.declarator, &mut parts)?;
    Ok(formed(
        alloc,
        scene.structs.as_slice(),
        name.at.line,
        false,
        base,
        parts,
    )?)
}

/// Adds the steps of a type name.
#[cycle(expressions)]
#[tactic(auto, using(syntax_tree::proofs::SyntaxViews::expression_views))]
fn steps_of(
    alloc: Global,
    scene: &mut Scene,
    declarator: &TypeDeclarator,
    parts: &mut Vec<Part>,
) -> Result<(), TypeError>
    ensures { Runs (λ u. parts_of parts.new.items) (scene_of scene.new) result
        (spec.steps_of (parts_of parts.old.items) (scene_of scene.old) (type_declarator_tree declarator.now)) }
{
    match declarator {
        TypeDeclarator::Direct { stars, sizes, .. } => {
            sized(alloc, scene, sizes, parts)?;
            Ok(pointed(parts, *stars)?)
        }
        TypeDeclarator::Nested {
            stars,
            inner,
            sizes,
            ..
        } => {
            steps_of(alloc, scene, inner, parts)?;
            sized(alloc, scene, sizes, parts)?;
            Ok(pointed(parts, *stars)?)
        }
    }
}

/// Adds the arrays of these sizes.
#[cycle(expressions)]
#[tactic(auto, using(crate::proofs::Steps::parts_pushed))]
fn sized(
    alloc: Global,
    scene: &mut Scene,
    sizes: &[Expression],
    parts: &mut Vec<Part>,
) -> Result<(), TypeError>
    ensures { Runs (λ u. parts_of parts.new.items) (scene_of scene.new) result
        (spec.sized (parts_of parts.old.items) (scene_of scene.old) (expression_trees sizes.now)) }
{
    for e in sizes {
        let kept = set_aside(alloc, scene);
        let size = expression(alloc, scene, e)?;
        bring_back(scene, kept);
        let count = count_of(scene.structs.as_slice(), &size);
        parts.push(Part::Array(count))?;
    }
    Ok(())
}

/// The size that an expression gives an array.
pub fn counted(alloc: Global, scene: &mut Scene, e: &Expression) -> Result<Option<u32>, TypeError>
    ensures { Runs (λ n. n) (scene_of scene.new) result (spec.counted (scene_of scene.old) (expression_tree e.now)) }
{
    let kept = set_aside(alloc, scene);
    let size = expression(alloc, scene, e)?;
    bring_back(scene, kept);
    Ok(count_of(scene.structs.as_slice(), &size))
}
