//! What a declarator declares, and the type that it gives its name (C11 6.7.6).
ghost use Rattle.std.specs.Prelude.{◌≡◌, [], map, Ok, IfOk, false};
ghost use Rattle.std.specs.Option.{option_map};
ghost use Rattle.syntax_tree.specs.SyntaxViews.{expression_tree, array_tree, parameter_declarator_tree, parameter_tree};
ghost use Rattle.syntax_tree.specs.SyntaxViews.{parameters_tree, suffix_tree, declarator_tree, initializer_tree, initializer_trees};
ghost use Rattle.typed_tree.specs.TypesViewed.{ty_of};
ghost use Rattle.typed_tree.specs.TypedViews.{struct_of};
ghost use Rattle.typing_operators.specs.Rule.{Gives, Runs};
ghost use Rattle.typing_expressions.specs.Scene.{scene_of};
ghost use Rattle.typing_expressions.specs.Parts.{param_of, parts_of};
ghost use Rattle.typing_declarations.specs.Declarators as spec;
ghost use Rattle.typing_declarations.specs.DeclaratorSteps as steps;

use crate::scopes::{add_name, close, is_taken, open};
use bb_words::list::List;
use c_words::place::Name;
use std::alloc::{AllocError, Global};
use syntax_tree::syntax::{
    Array, Declarator, Expression, Initializer, Parameter, ParameterDeclarator, Parameters, Suffix,
};
use typed_tree::types::{StructType, Ty};
use typing_expressions::expression::{based, counted, joined, pointed};
use typing_expressions::parts::{Param, Part, formed};
use typing_expressions::scene::{LocalName, Scene};
use typing_operators::error::TypeError;

/// Adds an array.
#[tactic(auto, using(typing_expressions::proofs::Steps::parts_pushed))]
fn array_step(
    alloc: Global,
    scene: &mut Scene,
    array: &Array,
    parts: &mut Vec<Part>,
) -> Result<(), TypeError>
    ensures { Runs (λ u. parts_of parts.new.items) (scene_of scene.new) result
        (spec.array_step (parts_of parts.old.items) (scene_of scene.old) (array_tree array.now)) }
{
    match &array.size {
        None => Ok(parts.push(Part::Unsized)?),
        Some(size) => {
            let count = counted(alloc, scene, size)?;
            Ok(parts.push(Part::Array(count))?)
        }
    }
}

/// Adds arrays from left to right.
fn array_steps(
    alloc: Global,
    scene: &mut Scene,
    arrays: &[Array],
    parts: &mut Vec<Part>,
) -> Result<(), TypeError>
    ensures { Runs (λ u. parts_of parts.new.items) (scene_of scene.new) result
        (spec.array_steps (parts_of parts.old.items) (scene_of scene.old) (map array_tree arrays.now)) }
{
    for array in arrays {
        array_step(alloc, scene, array, parts)?;
    }
    Ok(())
}

/// Adds arrays, and behind them pointers.
fn pointed_arrays(
    alloc: Global,
    scene: &mut Scene,
    arrays: &[Array],
    stars: u32,
    parts: &mut Vec<Part>,
) -> Result<(), TypeError>
    ensures { Runs (λ u. parts_of parts.new.items) (scene_of scene.new) result
        (steps.pointed_arrays (parts_of parts.old.items) (scene_of scene.old) (map array_tree arrays.now) stars) }
{
    array_steps(alloc, scene, arrays, parts)?;
    Ok(pointed(parts, stars)?)
}

/// Adds the steps of a parameter's declarator.
#[tactic(auto, using(syntax_tree::proofs::SyntaxViews::declaration_views))]
fn parameter_steps(
    alloc: Global,
    scene: &mut Scene,
    declarator: &ParameterDeclarator,
    parts: &mut Vec<Part>,
) -> Result<(), TypeError>
    ensures { Runs (λ u. parts_of parts.new.items) (scene_of scene.new) result
        (spec.parameter_steps (parts_of parts.old.items) (scene_of scene.old) (parameter_declarator_tree declarator.now)) }
{
    match declarator {
        ParameterDeclarator::Unnamed { stars, arrays, .. } => {
            pointed_arrays(alloc, scene, arrays, *stars, parts)
        }
        ParameterDeclarator::Named { stars, arrays, .. } => {
            pointed_arrays(alloc, scene, arrays, *stars, parts)
        }
        ParameterDeclarator::Nested {
            stars,
            inner,
            arrays,
            ..
        } => {
            parameter_steps(alloc, scene, inner, parts)?;
            pointed_arrays(alloc, scene, arrays, *stars, parts)
        }
    }
}

/// The name of a parameter, if it has one.
#[tactic(auto, using(syntax_tree::proofs::SyntaxViews::declaration_views))]
fn parameter_name(
    alloc: Global,
    declarator: &ParameterDeclarator,
) -> Result<Option<Name>, AllocError>
    ensures { IfOk result (λ x. x ≡ spec.parameter_name (parameter_declarator_tree declarator.now)) }
{
    match declarator {
        ParameterDeclarator::Unnamed { .. } => Ok(None),
        ParameterDeclarator::Named { name, .. } => Ok(Some(List::copy_of(alloc, name.as_slice())?)),
        ParameterDeclarator::Nested { inner, .. } => parameter_name(alloc, inner),
    }
}

/// The type of a parameter: an array is a pointer to an element.
fn adjusted(alloc: Global, ty: Ty) -> Result<Ty, AllocError>
    ensures { IfOk result (λ t. ty_of t ≡ spec.adjusted (ty_of ty)) }
{
    match &ty {
        Ty::Array(element, _) => {
            let to = element.copied(alloc)?;
            Ty::pointer(alloc, to)
        }
        Ty::Void | Ty::Char | Ty::Int | Ty::Unsigned | Ty::Struct(_) | Ty::Pointer(_) => Ok(ty),
    }
}

/// The type that a declarator gives a parameter, whose outermost size may be missing.
fn parameter_type(
    alloc: Global,
    structs: &[StructType],
    line: u32,
    base: Ty,
    parts: Vec<Part>,
) -> Result<Ty, TypeError>
    ensures { Gives ty_of result (spec.parameter_type (map struct_of structs.now) line (ty_of base) (parts_of parts.items)) }
{
    match parts.first() {
        Some(Part::Unsized) => {
            let mut rest = parts;
            let _ = rest.remove(0);
            let element = formed(alloc, structs, line, true, base, rest)?;
            Ok(Ty::pointer(alloc, element)?)
        }
        Some(Part::Array(_)) => {
            let ty = formed(alloc, structs, line, true, base, parts)?;
            Ok(adjusted(alloc, ty)?)
        }
        Some(Part::Pointer) => formed(alloc, structs, line, true, base, parts),
        Some(Part::Function(_)) => formed(alloc, structs, line, true, base, parts),
        None => formed(alloc, structs, line, true, base, parts),
    }
}

/// The lines of a parameter.
#[derive(Clone, Copy)]
struct Lines {
    /// That of its declarator.
    declarator: u32,
    /// That of its specifier.
    specifier: u32,
}

/// Adds a parameter that has a name, which the ones behind it know.
#[tactic(auto, using(typing_expressions::proofs::Pushed::params_pushed))]
fn named_parameter(
    alloc: Global,
    scene: &mut Scene,
    params: &mut Vec<Param>,
    declared: Name,
    lines: Lines,
    base: Ty,
    parts: Vec<Part>,
) -> Result<(), TypeError>
    ensures { Runs (λ u. map param_of params.new.items) (scene_of scene.new) result
        (steps.named_parameter (map param_of params.old.items) (scene_of scene.old) declared lines.declarator lines.specifier (ty_of base)
        (parts_of parts.items)) }
{
    if is_taken(scene, declared.as_slice()) {
        return Err(TypeError::Twice {
            line: lines.declarator,
            name: declared,
        });
    }
    let ty = parameter_type(
        alloc,
        scene.structs.as_slice(),
        lines.declarator,
        base,
        parts,
    )?;
    let Ok(number) = u32::try_from(params.len()) else {
        return Err(TypeError::Memory);
    };
    let local = LocalName {
        number,
        ty: ty.copied(alloc)?,
    };
    add_name(alloc, scene, declared.as_slice(), local)?;
    params.push(Param {
        name: Some(declared),
        ty,
        line: lines.specifier,
    })?;
    Ok(())
}

/// Adds a parameter that has no name.
#[tactic(auto, using(typing_expressions::proofs::Pushed::params_pushed))]
fn unnamed_parameter(
    alloc: Global,
    structs: &[StructType],
    params: &mut Vec<Param>,
    lines: Lines,
    base: Ty,
    parts: Vec<Part>,
) -> Result<(), TypeError>
    ensures { Gives (λ u. map param_of params.new.items) result
        (steps.unnamed_parameter (map param_of params.old.items) (map struct_of structs.now) lines.declarator lines.specifier (ty_of base)
        (parts_of parts.items)) }
{
    let ty = parameter_type(alloc, structs, lines.declarator, base, parts)?;
    params.push(Param {
        name: None,
        ty,
        line: lines.specifier,
    })?;
    Ok(())
}

/// Adds a parameter.
fn parameter(
    alloc: Global,
    scene: &mut Scene,
    tree: &Parameter,
    params: &mut Vec<Param>,
) -> Result<(), TypeError>
    ensures { Runs (λ u. map param_of params.new.items) (scene_of scene.new) result
        (spec.parameter (map param_of params.old.items) (scene_of scene.old) (parameter_tree tree.now)) }
{
    let base = based(alloc, scene, &tree.specifier)?;
    let mut parts = Vec::new(alloc);
    parameter_steps(alloc, scene, &tree.declarator, &mut parts)?;
    let lines = Lines {
        declarator: tree.declarator.at().line,
        specifier: tree.at.line,
    };
    match parameter_name(alloc, &tree.declarator)? {
        None => {
            Ok(unnamed_parameter(alloc, scene.structs.as_slice(), params, lines, base, parts)?)
        }
        Some(declared) => named_parameter(alloc, scene, params, declared, lines, base, parts),
    }
}

/// Adds parameters from left to right.
fn listed_parameters(
    alloc: Global,
    scene: &mut Scene,
    listed: &[Parameter],
    params: &mut Vec<Param>,
) -> Result<(), TypeError>
    ensures { Runs (λ u. map param_of params.new.items) (scene_of scene.new) result
        (spec.parameters (map param_of params.old.items) (scene_of scene.old) (map parameter_tree listed.now)) }
{
    for one in listed {
        parameter(alloc, scene, one, params)?;
    }
    Ok(())
}

/// The parameters of a function's declarator.
fn parameters_of(
    alloc: Global,
    scene: &mut Scene,
    parameters: &Option<Parameters>,
) -> Result<Vec<Param>, TypeError>
    ensures { Runs (λ ps. map param_of ps.items) (scene_of scene.new) result
        (spec.parameters_of (scene_of scene.old) (option_map parameters_tree parameters.now)) }
{
    match parameters {
        None => Ok(Vec::new(alloc)),
        Some(Parameters::Void { .. }) => Ok(Vec::new(alloc)),
        Some(
            Parameters::Listed {
                parameters: listed,
                ..
            },
        ) => {
            open(alloc, scene)?;
            let mut params = Vec::new(alloc);
            listed_parameters(alloc, scene, listed, &mut params)?;
            close(scene);
            Ok(params)
        }
    }
}

/// Adds a suffix: an array or a function.
#[tactic(auto, using(typing_expressions::proofs::Steps::parts_pushed))]
fn suffix_step(
    alloc: Global,
    scene: &mut Scene,
    suffix: &Suffix,
    parts: &mut Vec<Part>,
) -> Result<(), TypeError>
    ensures { Runs (λ u. parts_of parts.new.items) (scene_of scene.new) result
        (spec.suffix_step (parts_of parts.old.items) (scene_of scene.old) (suffix_tree suffix.now)) }
{
    match suffix {
        Suffix::Array(array) => array_step(alloc, scene, array, parts),
        Suffix::Function { parameters, .. } => {
            let params = parameters_of(alloc, scene, parameters)?;
            Ok(parts.push(Part::Function(params))?)
        }
    }
}

/// Adds suffixes from left to right.
fn suffix_steps(
    alloc: Global,
    scene: &mut Scene,
    suffixes: &[Suffix],
    parts: &mut Vec<Part>,
) -> Result<(), TypeError>
    ensures { Runs (λ u. parts_of parts.new.items) (scene_of scene.new) result
        (spec.suffix_steps (parts_of parts.old.items) (scene_of scene.old) (map suffix_tree suffixes.now)) }
{
    for suffix in suffixes {
        suffix_step(alloc, scene, suffix, parts)?;
    }
    Ok(())
}

/// Adds suffixes, and behind them pointers.
fn pointed_suffixes(
    alloc: Global,
    scene: &mut Scene,
    suffixes: &[Suffix],
    stars: u32,
    parts: &mut Vec<Part>,
) -> Result<(), TypeError>
    ensures { Runs (λ u. parts_of parts.new.items) (scene_of scene.new) result
        (steps.pointed_suffixes (parts_of parts.old.items) (scene_of scene.old) (map suffix_tree suffixes.now) stars) }
{
    suffix_steps(alloc, scene, suffixes, parts)?;
    Ok(pointed(parts, stars)?)
}

/// Adds the steps of a declarator.
#[tactic(auto, using(syntax_tree::proofs::SyntaxViews::declaration_views))]
pub fn declarator_steps(
    alloc: Global,
    scene: &mut Scene,
    declarator: &Declarator,
    parts: &mut Vec<Part>,
) -> Result<(), TypeError>
    ensures { Runs (λ u. parts_of parts.new.items) (scene_of scene.new) result
        (spec.declarator_steps (parts_of parts.old.items) (scene_of scene.old) (declarator_tree declarator.now)) }
{
    match declarator {
        Declarator::Named {
            stars,
            suffixes,
            ..
        } => pointed_suffixes(alloc, scene, suffixes, *stars, parts),
        Declarator::Nested {
            stars,
            inner,
            suffixes,
            ..
        } => {
            declarator_steps(alloc, scene, inner, parts)?;
            pointed_suffixes(alloc, scene, suffixes, *stars, parts)
        }
    }
}

/// The steps of a declarator alone.
pub fn steps(
    alloc: Global,
    scene: &mut Scene,
    declarator: &Declarator,
) -> Result<Vec<Part>, TypeError>
    ensures { Runs (λ ps. parts_of ps.items) (scene_of scene.new) result (spec.declarator_steps [] (scene_of scene.old) (declarator_tree declarator.now)) }
{
    let mut parts = Vec::new(alloc);
    declarator_steps(alloc, scene, declarator, &mut parts)?;
    Ok(parts)
}

/// The name that a declarator declares.
#[tactic(auto, using(syntax_tree::proofs::SyntaxViews::declaration_views))]
pub fn declared_name(declarator: &Declarator) -> &[u8]
    ensures { result.now ≡ spec.declared_name (declarator_tree declarator.now) }
{
    match declarator {
        Declarator::Named { name, .. } => name.as_slice(),
        Declarator::Nested { inner, .. } => declared_name(inner),
    }
}

/// Whether a function has more than 8 parameters.
pub fn has_many_params(parts: &[Part]) -> bool
    ensures { result ≡ spec.has_many_params (parts_of parts.now) }
{
    for part in parts {
        match part {
            Part::Function(params) => {
                if params.len() > 8 {
                    return true;
                }
            }
            Part::Pointer | Part::Array(_) | Part::Unsized => {}
        }
    }
    false
}

/// The number of elements that a string gives an array of `char`.
#[tactic(auto, using(syntax_tree::proofs::SyntaxViews::expression_views))]
fn text_count(alloc: Global, e: &Expression) -> Result<Option<u32>, TypeError>
    ensures { Gives (λ n. n) result (Ok (steps.text_count (expression_tree e.now))) }
{
    match e {
        Expression::Text { pieces, .. } => {
            let bytes = joined(alloc, pieces)?;
            let Ok(count) = u32::try_from(bytes.len() as u64 + 1) else {
                return Err(TypeError::Memory);
            };
            Ok(Some(count))
        }
        Expression::Name { .. } | Expression::Number { .. } => Ok(None),
        Expression::Character { .. } | Expression::Null { .. } => Ok(None),
        Expression::Eof { .. } | Expression::Parenthesized { .. } => Ok(None),
        Expression::Index { .. } | Expression::Call { .. } => Ok(None),
        Expression::Member { .. } | Expression::Arrow { .. } => Ok(None),
        Expression::StepAfter { .. } | Expression::StepBefore { .. } => Ok(None),
        Expression::Unary { .. } | Expression::SizeofType { .. } => Ok(None),
        Expression::SizeofExpression { .. } | Expression::Cast { .. } => Ok(None),
        Expression::Binary { .. } | Expression::Conditional { .. } => Ok(None),
        Expression::Assign { .. } | Expression::Comma { .. } => Ok(None),
    }
}

/// Whether the elements of an array are of type `char`, where these steps follow it.
fn is_text(base: &Ty, rest: &[Part]) -> bool
    ensures { result ≡ steps.is_text (ty_of base.now) (parts_of rest.now) }
{
    match base {
        Ty::Char => rest.is_empty(),
        Ty::Void | Ty::Int | Ty::Unsigned | Ty::Struct(_) | Ty::Pointer(_) | Ty::Array(_, _) =>
            false,
    }
}

/// How many parts are between braces.
#[tactic(auto, using(crate::proofs::GivenCounts::parts_counted))]
fn counted_parts(parts: &[Initializer]) -> Result<Option<u32>, TypeError>
    ensures { Gives (λ n. n) result (Ok (steps.counted_parts (initializer_trees parts.now))) }
{
    let Ok(count) = u32::try_from(parts.len()) else {
        return Err(TypeError::Memory);
    };
    Ok(Some(count))
}

/// The size that an expression gives an array of an unknown size, which these steps follow.
fn count_given_by(
    alloc: Global,
    base: &Ty,
    rest: &[Part],
    e: &Expression,
) -> Result<Option<u32>, TypeError>
    ensures { Gives (λ n. n) result (Ok (steps.count_given_by (ty_of base.now) (parts_of rest.now) (expression_tree e.now))) }
{
    if is_text(base, rest) {
        text_count(alloc, e)
    } else {
        Ok(None)
    }
}

/// The size that an initializer gives an array of an unknown size, which these steps follow.
#[tactic(auto, using(syntax_tree::proofs::SyntaxViews::declaration_views))]
fn count_given(
    alloc: Global,
    base: &Ty,
    rest: &[Part],
    initializer: &Initializer,
) -> Result<Option<u32>, TypeError>
    ensures { Gives (λ n. n) result (Ok (steps.count_given (ty_of base.now) (parts_of rest.now) (initializer_tree initializer.now))) }
{
    match initializer {
        Initializer::Braced { parts, .. } => counted_parts(parts),
        Initializer::Expression(e) => count_given_by(alloc, base, rest, e),
    }
}

/// The size that an initializer, if there is one, gives an array of an unknown size.
fn given_count(
    alloc: Global,
    base: &Ty,
    rest: &[Part],
    init: &Option<Initializer>,
) -> Result<Option<u32>, TypeError>
    ensures { Gives (λ n. n) result (Ok (spec.given_count (ty_of base.now) (parts_of rest.now) (option_map initializer_tree init.now))) }
{
    match init {
        None => Ok(None),
        Some(found) => count_given(alloc, base, rest, found),
    }
}

/// The steps, where the initializer gives an array its missing size.
#[tactic(auto, using(typing_expressions::proofs::Steps::parts_pushed))]
pub fn completed(
    alloc: Global,
    base: &Ty,
    init: &Option<Initializer>,
    parts: Vec<Part>,
) -> Result<Vec<Part>, TypeError>
    ensures { Gives (λ ps. parts_of ps.items) result (Ok (spec.completed (ty_of base.now) (option_map initializer_tree init.now) (parts_of parts.items))) }
{
    match parts.first() {
        Some(Part::Unsized) => {
            let mut parts = parts;
            let first = parts.remove(0);
            match given_count(alloc, base, parts.as_slice(), init)? {
                None => {
                    parts.insert(0, first)?;
                    Ok(parts)
                }
                Some(count) => {
                    parts.insert(0, Part::Array(Some(count)))?;
                    Ok(parts)
                }
            }
        }
        Some(Part::Array(_)) => Ok(parts),
        Some(Part::Pointer) => Ok(parts),
        Some(Part::Function(_)) => Ok(parts),
        None => Ok(parts),
    }
}

/// The type of an object or a member, once its name is known to be free.
pub fn object_type(
    alloc: Global,
    structs: &[StructType],
    line: u32,
    base: Ty,
    parts: Vec<Part>,
) -> Result<Ty, TypeError>
    ensures { Gives ty_of result (spec.object_type (map struct_of structs.now) line (ty_of base) (parts_of parts.items)) }
{
    if has_many_params(parts.as_slice()) {
        return Err(TypeError::TooManyParams { line });
    }
    formed(alloc, structs, line, true, base, parts)
}
