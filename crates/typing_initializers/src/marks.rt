//! Which locals `&` is applied to, found in one walk over a function's body.
ghost use Rattle.std.specs.Prelude.{◌≡◌, map};
ghost use Rattle.std.specs.Option.{option_map};
ghost use Rattle.typed_tree.specs.TypedViews.{expr_of, exprs_of, initial_of, initials_of, initializer_of, declaration_of, start_of, stmt_of, stmts_of};
ghost use Rattle.typed_tree.specs.Walk.{walked_all, over_initial, over_initials, over_initializer, over_declaration};
ghost use Rattle.typed_tree.specs.Walk.{over_declarations, over_start, over_expr_if_any, over_stmts};
ghost use Rattle.typing_initializers.specs.Marks.{mark_local, mark_expr, mark_step, mark_stmt, in_turn, marking};

use c_words::operators::UnaryOperator;
use typed_tree::typed_expr::{TypedExpr, TypedForm};
use typed_tree::typed_stmt::{TypedDeclaration, TypedInitial, TypedStart, TypedStmt};
use typing_expressions::calls::mark;

/// Marks the local that the expression is.
fn mark_local(e: &TypedExpr, marks: &mut Vec<bool>)
    ensures { marks.new.items ≡ mark_local (expr_of e.now) marks.old.items }
{
    match &e.form {
        TypedForm::Local(number) => mark(marks, *number),
        TypedForm::Global(_) | TypedForm::Text(_) => {}
        TypedForm::Number(_) | TypedForm::Character(_) => {}
        TypedForm::Null | TypedForm::Eof => {}
        TypedForm::Convert(_, _) => {}
        TypedForm::Index(_, _) => {}
        TypedForm::Call(_, _) => {}
        TypedForm::Member(_, _) => {}
        TypedForm::Arrow(_, _) => {}
        TypedForm::StepBefore(_, _) => {}
        TypedForm::StepAfter(_, _) => {}
        TypedForm::Unary(_, _) => {}
        TypedForm::Binary(_, _, _) => {}
        TypedForm::Conditional(_, _, _) => {}
        TypedForm::Assign(_, _, _) => {}
        TypedForm::Comma(_, _) => {}
        TypedForm::Cast(_) => {}
        TypedForm::SizeofExpression(_) => {}
        TypedForm::SizeofType(_) => {}
    }
}

/// Marks the locals that an expression applies `&` to.
#[cycle(marks)]
#[tactic(auto, using(typed_tree::proofs::TypedViewed::typed_views))]
fn mark_expr(e: &TypedExpr, marks: &mut Vec<bool>)
    ensures { marks.new.items ≡ mark_expr (expr_of e.now) marks.old.items }
{
    match &e.form {
        TypedForm::Unary(operator, operand) => {
            match operator {
                UnaryOperator::Address => mark_local(operand, marks),
                UnaryOperator::Plus | UnaryOperator::Minus | UnaryOperator::Complement => {}
                UnaryOperator::Not | UnaryOperator::Dereference => {}
            }
            mark_expr(operand, marks)
        }
        TypedForm::Local(_) | TypedForm::Global(_) | TypedForm::Text(_) => {}
        TypedForm::Number(_) | TypedForm::Character(_) => {}
        TypedForm::Null | TypedForm::Eof => {}
        TypedForm::SizeofType(_) => {}
        TypedForm::Convert(_, operand) => mark_expr(operand, marks),
        TypedForm::Index(a, b) => {
            mark_expr(a, marks);
            mark_expr(b, marks)
        }
        TypedForm::Call(_, arguments) => mark_exprs(arguments, marks),
        TypedForm::Member(operand, _) => mark_expr(operand, marks),
        TypedForm::Arrow(operand, _) => mark_expr(operand, marks),
        TypedForm::StepBefore(_, operand) => mark_expr(operand, marks),
        TypedForm::StepAfter(_, operand) => mark_expr(operand, marks),
        TypedForm::Binary(_, a, b) => {
            mark_expr(a, marks);
            mark_expr(b, marks)
        }
        TypedForm::Conditional(c, a, b) => {
            mark_expr(c, marks);
            mark_expr(a, marks);
            mark_expr(b, marks)
        }
        TypedForm::Assign(_, a, b) => {
            mark_expr(a, marks);
            mark_expr(b, marks)
        }
        TypedForm::Comma(a, b) => {
            mark_expr(a, marks);
            mark_expr(b, marks)
        }
        TypedForm::Cast(operand) => mark_expr(operand, marks),
        TypedForm::SizeofExpression(operand) => mark_expr(operand, marks),
    }
}

/// Marks the locals that expressions apply `&` to.
#[cycle(marks)]
fn mark_exprs(es: &[TypedExpr], marks: &mut Vec<bool>)
    ensures { marks.new.items ≡ in_turn (walked_all mark_step (exprs_of es.now)) marks.old.items }
{
    for e in es {
        mark_expr(e, marks);
    }
}

/// Marks the locals that an initializer applies `&` to.
#[cycle(initial_marks)]
#[tactic(auto, using(typed_tree::proofs::TypedViewed::typed_views))]
fn mark_initial(initial: &TypedInitial, marks: &mut Vec<bool>)
    ensures { marks.new.items ≡ over_initial marking (initial_of initial.now) marks.old.items }
{
    match initial {
        TypedInitial::Value(e) => mark_expr(e, marks),
        TypedInitial::Text(_, _) => {}
        TypedInitial::Braces(_, parts) => mark_initials(parts, marks),
    }
}

/// Marks those of the parts between braces.
#[cycle(initial_marks)]
fn mark_initials(parts: &[TypedInitial], marks: &mut Vec<bool>)
    ensures { marks.new.items ≡ over_initials marking (initials_of parts.now) marks.old.items }
{
    for part in parts {
        mark_initial(part, marks);
    }
}

/// Marks those of a declaration's initializer.
fn mark_declaration(declaration: &TypedDeclaration, marks: &mut Vec<bool>)
    ensures { marks.new.items ≡ over_declaration marking (declaration_of declaration.now) marks.old.items }
{
    match &declaration.initializer {
        None => {}
        Some(initializer) => mark_initial(&initializer.value, marks),
    }
}

/// Marks those of declarations.
fn mark_declarations(declarations: &[TypedDeclaration], marks: &mut Vec<bool>)
    ensures { marks.new.items ≡ over_declarations marking (map declaration_of declarations.now) marks.old.items }
{
    for declaration in declarations {
        mark_declaration(declaration, marks);
    }
}

/// Marks those of what a `for` begins with.
fn mark_start(start: &TypedStart, marks: &mut Vec<bool>)
    ensures { marks.new.items ≡ over_start marking (start_of start.now) marks.old.items }
{
    match start {
        TypedStart::Nothing => {}
        TypedStart::Eval(e) => mark_expr(e, marks),
        TypedStart::Declare(declarations) => mark_declarations(declarations, marks),
    }
}

/// Marks those of an expression that may be missing.
fn mark_if_any(e: &Option<TypedExpr>, marks: &mut Vec<bool>)
    ensures { marks.new.items ≡ over_expr_if_any marking (option_map expr_of e.now) marks.old.items }
{
    match e {
        None => {}
        Some(found) => mark_expr(found, marks),
    }
}

/// Marks the locals that a statement applies `&` to.
#[cycle(statement_marks)]
#[tactic(auto, using(typed_tree::proofs::TypedViewed::typed_views))]
pub fn mark_stmt(statement: &TypedStmt, marks: &mut Vec<bool>)
    ensures { marks.new.items ≡ mark_stmt (stmt_of statement.now) marks.old.items }
{
    match statement {
        TypedStmt::Block(_, statements) => mark_stmts(statements, marks),
        TypedStmt::Declare(declaration) => mark_declaration(declaration, marks),
        TypedStmt::Empty(_) => {}
        TypedStmt::Eval(_, e) => mark_expr(e, marks),
        TypedStmt::If {
            condition,
            body,
            otherwise,
            ..
        } => match otherwise {
            None => {
                mark_expr(condition, marks);
                mark_stmt(body, marks)
            }
            Some(other) => {
                mark_expr(condition, marks);
                mark_stmt(body, marks);
                mark_stmt(other, marks)
            }
        },
        TypedStmt::While {
            condition,
            body,
            ..
        } => {
            mark_expr(condition, marks);
            mark_stmt(body, marks)
        }
        TypedStmt::Do {
            body,
            condition,
            ..
        } => {
            mark_stmt(body, marks);
            mark_expr(condition, marks)
        }
        TypedStmt::For {
            start,
            condition,
            step,
            body,
            ..
        } => {
            mark_start(start, marks);
            mark_if_any(condition, marks);
            mark_if_any(step, marks);
            mark_stmt(body, marks)
        }
        TypedStmt::Break(_) => {}
        TypedStmt::Continue(_) => {}
        TypedStmt::Return(_, e) => mark_if_any(e, marks),
    }
}

/// Marks the locals that statements apply `&` to.
#[cycle(statement_marks)]
fn mark_stmts(statements: &[TypedStmt], marks: &mut Vec<bool>)
    ensures { marks.new.items ≡ over_stmts marking (stmts_of statements.now) marks.old.items }
{
    for statement in statements {
        mark_stmt(statement, marks);
    }
}
