//! Texts of C and their trees. What each has to give is read from C11 6.5 to 6.9, and from the limits on nesting: 200
//! levels, and left operands of height 199.
ghost use Rattle.std.specs.Prelude.{◌<◌, ◌^◌, length};

use c_lexer::{LexError, lex};
use c_parser::{ParseError, parse};
use c_words::operators::{AssignOperator, BinaryOperator, StepOperator, UnaryOperator};
use std::alloc::{AllocError, Global};
use std::test::Fail;
use syntax_tree::syntax::{
    BlockItem, Declarator, Expression, External, InitDeclarator, Initializer, Statement, Unit,
};

/// An expression without its parts.
#[derive(Clone, Copy, Debug, PartialEq, Eq)]
enum Form {
    Nothing,
    Primary,
    Parenthesized,
    Index,
    Call,
    Member,
    Arrow,
    StepAfter(StepOperator),
    StepBefore(StepOperator),
    Unary(UnaryOperator),
    Sizeof,
    Cast,
    Binary(BinaryOperator),
    Conditional,
    Assign(AssignOperator),
    Comma,
}

fn form_of(expression: &Expression) -> Form {
    match expression {
        Expression::Name { .. }
        | Expression::Number { .. }
        | Expression::Character { .. }
        | Expression::Text { .. }
        | Expression::Null { .. }
        | Expression::Eof { .. } => Form::Primary,
        Expression::Parenthesized { .. } => Form::Parenthesized,
        Expression::Index { .. } => Form::Index,
        Expression::Call { .. } => Form::Call,
        Expression::Member { .. } => Form::Member,
        Expression::Arrow { .. } => Form::Arrow,
        Expression::StepAfter { operator, .. } => Form::StepAfter(*operator),
        Expression::StepBefore { operator, .. } => Form::StepBefore(*operator),
        Expression::Unary { operator, .. } => Form::Unary(*operator),
        Expression::SizeofType { .. } | Expression::SizeofExpression { .. } => Form::Sizeof,
        Expression::Cast { .. } => Form::Cast,
        Expression::Binary { operator, .. } => Form::Binary(*operator),
        Expression::Conditional { .. } => Form::Conditional,
        Expression::Assign { operator, .. } => Form::Assign(*operator),
        Expression::Comma { .. } => Form::Comma,
    }
}

// The first and the last operand.
fn operands(expression: &Expression) -> (Form, Form) {
    match expression {
        Expression::Parenthesized { inner, .. } => (form_of(inner), Form::Nothing),
        Expression::Index { array, index, .. } => (form_of(array), form_of(index)),
        Expression::Call { called, .. } => (form_of(called), Form::Nothing),
        Expression::Member { object, .. } => (form_of(object), Form::Nothing),
        Expression::Arrow { pointer, .. } => (form_of(pointer), Form::Nothing),
        Expression::StepAfter { operand, .. } => (form_of(operand), Form::Nothing),
        Expression::StepBefore { operand, .. } => (form_of(operand), Form::Nothing),
        Expression::Unary { operand, .. } => (form_of(operand), Form::Nothing),
        Expression::SizeofExpression { operand, .. } => (form_of(operand), Form::Nothing),
        Expression::Cast { operand, .. } => (form_of(operand), Form::Nothing),
        Expression::Binary { left, right, .. } => (form_of(left), form_of(right)),
        Expression::Conditional {
            condition,
            otherwise,
            ..
        } => (form_of(condition), form_of(otherwise)),
        Expression::Assign { left, right, .. } => (form_of(left), form_of(right)),
        Expression::Comma { left, right, .. } => (form_of(left), form_of(right)),
        _ => (Form::Nothing, Form::Nothing),
    }
}

// The value of the first name of a file, and its operands.
fn value_of(unit: &Unit) -> (Form, (Form, Form)) {
    match unit.externals.first() {
        Some(External::Declaration { declarators, .. }) => match declarators.first() {
            Some(
                InitDeclarator {
                    initializer: Some(Initializer::Expression(value)),
                    ..
                },
            ) => (form_of(value), operands(value)),
            _ => (Form::Nothing, (Form::Nothing, Form::Nothing)),
        },
        _ => (Form::Nothing, (Form::Nothing, Form::Nothing)),
    }
}

// A declarator without its parts: whether it has another one in brackets, its stars, and how many suffixes it has.
type Outline = (bool, u32, usize);

fn outline_of(declarator: &Declarator) -> Outline {
    match declarator {
        Declarator::Named {
            stars,
            suffixes,
            ..
        } => (false, *stars, suffixes.len()),
        Declarator::Nested {
            stars,
            suffixes,
            ..
        } => (true, *stars, suffixes.len()),
    }
}

// The declarator of the first name of a file, and the one in its brackets, or itself.
fn outlines_of(unit: &Unit) -> (Outline, Outline) {
    match unit.externals.first() {
        Some(External::Declaration { declarators, .. }) => match declarators.first() {
            None => ((false, 0, 0), (false, 0, 0)),
            Some(first) => match &first.declarator {
                Declarator::Named { .. } => {
                    (outline_of(&first.declarator), outline_of(&first.declarator))
                }
                Declarator::Nested { inner, .. } => (
                    outline_of(&first.declarator),
                    outline_of(inner),
                ),
            },
        },
        _ => ((false, 0, 0), (false, 0, 0)),
    }
}

// Whether a statement is an `if` with an `else`.
fn has_else(statement: &Statement) -> bool {
    match statement {
        Statement::If { otherwise, .. } => otherwise.is_some(),
        _ => false,
    }
}

// Whether the `if` that a file's first function begins with has an `else`, and whether what it decides over has one.
fn elses_of(unit: &Unit) -> (bool, bool) {
    match unit.externals.first() {
        Some(External::Function { body, .. }) => match body.items.first() {
            Some(BlockItem::Statement(statement)) => match statement {
                Statement::If { then, .. } => (has_else(statement), has_else(then)),
                _ => (false, false),
            },
            _ => (false, false),
        },
        _ => (false, false),
    }
}

// The tree of a file.
fn read(alloc: Global, text: &[u8]) -> Result<Unit, Fail>
    requires { length text.now < 2 ^ 32 }
{
    let tokens = lex(alloc, text)?;
    Ok(parse(alloc, &tokens)?)
}

// Values, each with its operands: what binds tighter is the operand.
const VALUES: [(&[u8], Form, (Form, Form)); 30] = [
    (
        b"int x = 1 + 2 * 3;",
        Form::Binary(BinaryOperator::Add),
        (Form::Primary, Form::Binary(BinaryOperator::Multiply)),
    ),
    (
        b"int x = 1 * 2 + 3;",
        Form::Binary(BinaryOperator::Add),
        (Form::Binary(BinaryOperator::Multiply), Form::Primary),
    ),
    (
        b"int x = a - b - c;",
        Form::Binary(BinaryOperator::Subtract),
        (Form::Binary(BinaryOperator::Subtract), Form::Primary),
    ),
    (
        b"int x = a << b + c;",
        Form::Binary(BinaryOperator::ShiftLeft),
        (Form::Primary, Form::Binary(BinaryOperator::Add)),
    ),
    (
        b"int x = a < b >> c;",
        Form::Binary(BinaryOperator::Less),
        (Form::Primary, Form::Binary(BinaryOperator::ShiftRight)),
    ),
    (
        b"int x = a == b < c;",
        Form::Binary(BinaryOperator::Equal),
        (Form::Primary, Form::Binary(BinaryOperator::Less)),
    ),
    (
        b"int x = a & b == c;",
        Form::Binary(BinaryOperator::BitAnd),
        (Form::Primary, Form::Binary(BinaryOperator::Equal)),
    ),
    (
        b"int x = a ^ b & c;",
        Form::Binary(BinaryOperator::BitXor),
        (Form::Primary, Form::Binary(BinaryOperator::BitAnd)),
    ),
    (
        b"int x = a | b ^ c;",
        Form::Binary(BinaryOperator::BitOr),
        (Form::Primary, Form::Binary(BinaryOperator::BitXor)),
    ),
    (
        b"int x = a && b | c;",
        Form::Binary(BinaryOperator::LogicalAnd),
        (Form::Primary, Form::Binary(BinaryOperator::BitOr)),
    ),
    (
        b"int x = a || b && c;",
        Form::Binary(BinaryOperator::LogicalOr),
        (Form::Primary, Form::Binary(BinaryOperator::LogicalAnd)),
    ),
    (
        b"int x = a || b ? c : d ? e : f;",
        Form::Conditional,
        (Form::Binary(BinaryOperator::LogicalOr), Form::Conditional),
    ),
    (
        b"int x = a = b -= c;",
        Form::Assign(AssignOperator::Assign),
        (Form::Primary, Form::Assign(AssignOperator::Subtract)),
    ),
    (
        b"int x = a += b ? c : d;",
        Form::Assign(AssignOperator::Add),
        (Form::Primary, Form::Conditional),
    ),
    (
        b"int x = (a, b);",
        Form::Parenthesized,
        (Form::Comma, Form::Nothing),
    ),
    (
        b"int x = (int) a + b;",
        Form::Binary(BinaryOperator::Add),
        (Form::Cast, Form::Primary),
    ),
    (
        b"int x = (int) -a;",
        Form::Cast,
        (Form::Unary(UnaryOperator::Minus), Form::Nothing),
    ),
    (
        b"int x = (a) - b;",
        Form::Binary(BinaryOperator::Subtract),
        (Form::Parenthesized, Form::Primary),
    ),
    (
        b"int x = (char *) a[1];",
        Form::Cast,
        (Form::Index, Form::Nothing),
    ),
    (
        b"int x = (a)[1];",
        Form::Index,
        (Form::Parenthesized, Form::Primary),
    ),
    (
        b"int x = sizeof (int) + a;",
        Form::Binary(BinaryOperator::Add),
        (Form::Sizeof, Form::Primary),
    ),
    (
        b"int x = sizeof (a)[1];",
        Form::Sizeof,
        (Form::Index, Form::Nothing),
    ),
    (
        b"int x = sizeof (int) * 2;",
        Form::Binary(BinaryOperator::Multiply),
        (Form::Sizeof, Form::Primary),
    ),
    (
        b"int x = *p++;",
        Form::Unary(UnaryOperator::Dereference),
        (Form::StepAfter(StepOperator::Increment), Form::Nothing),
    ),
    (
        b"int x = --*p;",
        Form::StepBefore(StepOperator::Decrement),
        (Form::Unary(UnaryOperator::Dereference), Form::Nothing),
    ),
    (
        b"int x = &a->b.c;",
        Form::Unary(UnaryOperator::Address),
        (Form::Member, Form::Nothing),
    ),
    (
        b"int x = a.b->c;",
        Form::Arrow,
        (Form::Member, Form::Nothing),
    ),
    (
        b"int x = f(a, b)(c);",
        Form::Call,
        (Form::Call, Form::Nothing),
    ),
    (
        b"int x = !~+a;",
        Form::Unary(UnaryOperator::Not),
        (Form::Unary(UnaryOperator::Complement), Form::Nothing),
    ),
    (
        b"int x = \"a\" \"b\";",
        Form::Primary,
        (Form::Nothing, Form::Nothing),
    ),
];

#[test]
fn values(rt: HostRuntime) -> Result<(), Fail> {
    for (text, value, parts) in VALUES {
        assert!(rt; text.len() < 2000);
        let unit = read(rt.alloc(), text)?;
        assert_eq!(rt; value_of(&unit), (value, parts));
    }
    Ok(())
}

const DECLARATORS: [(&[u8], Outline, Outline); 6] = [
    (b"int **a;", (false, 2, 0), (false, 2, 0)),
    (b"char a[2][3];", (false, 0, 2), (false, 0, 2)),
    (b"int *f(int, char *p);", (false, 1, 1), (false, 1, 1)),
    (b"int (*a)[2];", (true, 0, 1), (false, 1, 0)),
    (b"int *(*f)(void), g;", (true, 1, 1), (false, 1, 0)),
    (
        b"unsigned char (*a[3])(int (*q)[2]);",
        (true, 0, 1),
        (false, 1, 1),
    ),
];

#[test]
fn declarators(rt: HostRuntime) -> Result<(), Fail> {
    for (text, outer, inner) in DECLARATORS {
        assert!(rt; text.len() < 2000);
        let unit = read(rt.alloc(), text)?;
        assert_eq!(rt; outlines_of(&unit), (outer, inner));
    }
    Ok(())
}

// An `else` belongs to the nearest `if` that may have it.
const ELSES: [(&[u8], (bool, bool)); 6] = [
    (b"int f(void) { if (1) if (2) ; else ; }", (false, true)),
    (
        b"int f(void) { if (1) if (2) ; else ; else ; }",
        (true, true),
    ),
    (b"int f(void) { if (1) { if (2) ; } else ; }", (true, false)),
    (
        b"int f(void) { if (1) while (2) if (3) ; else ; }",
        (false, false),
    ),
    (
        b"int f(void) { if (1) for (;;) if (3) ; else ; else ; }",
        (true, false),
    ),
    (
        b"int f(void) { if (1) do if (2) ; while (3); else ; }",
        (true, false),
    ),
];

#[test]
fn elses(rt: HostRuntime) -> Result<(), Fail> {
    for (text, which) in ELSES {
        assert!(rt; text.len() < 2000);
        let unit = read(rt.alloc(), text)?;
        assert_eq!(rt; elses_of(&unit), which);
    }
    Ok(())
}

// Files, and how many declarations each has.
const FILES: [(&[u8], usize); 8] = [
    (b"", 0),
    (b"int main(void) { return 1; }", 1),
    (b"int;struct s;", 2),
    (b"struct s { int a, *b; char c[3]; } x, y;", 1),
    (b"int a, b = 1, c[] = { 1, { 2 }, };", 1),
    (b"int f(), g(void), h(int, char *p, int (*q)[2]);", 1),
    (
        b"int f(void) { for (int i = 0; i < 3; i++) continue; for (;;) break; } int x;",
        2,
    ),
    (
        b"int f(void) { int a; { char b = 'b', c; } do x(); while (1); return; }",
        1,
    ),
];

#[test]
fn files(rt: HostRuntime) -> Result<(), Fail> {
    for (text, count) in FILES {
        assert!(rt; text.len() < 2000);
        let unit = read(rt.alloc(), text)?;
        assert_eq!(rt; unit.externals.len(), count);
    }
    Ok(())
}

// Why a text is no file, if it is none.
fn refusal_of(alloc: Global, text: &[u8]) -> Result<Option<ParseError>, LexError> {
    if text.len() > 2000 {
        return Ok(None);
    }
    let tokens = lex(alloc, text)?;
    Ok(parse(alloc, &tokens).err())
}

// Texts that are no files, and the token and the line at which that is known.
const NO_FILES: [(&[u8], u32, u32); 20] = [
    (b"int main(void) { return 1 }", 8, 1),
    (b"int\nmain(void)\n{ return 1\n}", 8, 4),
    (b"int", 1, 1),
    (b"\n\nint x\n\n", 2, 3),
    (b"1;", 0, 1),
    (b"int x,\n;", 3, 2),
    (b"int x = { };", 4, 1),
    (b"int x = (1 2);", 5, 1),
    (b"int x = (int);", 6, 1),
    (b"int f(void) { else ; }", 6, 1),
    (b"int f(void) { if (1) ; else ; else ; }", 13, 1),
    (b"int f(void) { do x while (1); }", 8, 1),
    (b"int f(int ());", 5, 1),
    (b"struct s { };", 3, 1),
    (b"int f(void) { int a; } }", 10, 1),
    (b"int f(void) {\n", 6, 1),
    (b"int f(void) { if (1) int x; }", 10, 1),
    (b"int f(void) { a = sizeof int; }", 9, 1),
    (b"int f(void) { return (int) { 1 }; }", 10, 1),
    (b"struct s { int m; }", 7, 1),
];

#[test]
fn refusals(rt: HostRuntime) -> Result<(), Fail> {
    for (text, token, line) in NO_FILES {
        assert_eq!(rt;
            refusal_of(rt.alloc(), text)?,
            Some(ParseError::Syntax { token, line })
        );
    }
    Ok(())
}

// A text with so many of one part in its middle.
fn with_many(
    alloc: Global,
    before: &[u8],
    part: &[u8],
    count: u32,
    after: &[u8],
) -> Result<Vec<u8>, AllocError> {
    let mut text = Vec::new(alloc);
    text.extend_from_slice(before)?;
    for _ in 0..count {
        text.extend_from_slice(part)?;
    }
    text.extend_from_slice(after)?;
    Ok(text)
}

/// What becomes of a text of one line: it is read, or refused at a token.
#[derive(Clone, Copy, Debug, PartialEq, Eq)]
enum Outcome {
    Read,
    Syntax(u32),
    TooDeep(u32),
}

fn refusal(outcome: Outcome) -> Option<ParseError> {
    match outcome {
        Outcome::Read => None,
        Outcome::Syntax(token) => Some(ParseError::Syntax { token, line: 1 }),
        Outcome::TooDeep(token) => Some(ParseError::TooDeep { token, line: 1 }),
    }
}

type Nest = (&'static [u8], &'static [u8], u32, &'static [u8], Outcome);

// Texts as deep as a file may be, and deeper ones: what opens level 201, or has a left operand of height 200, is refused.
const NESTS: [Nest; 23] = [
    (b"int x = ", b"- ", 200, b"1;", Outcome::Read),
    (b"int x = ", b"- ", 201, b"1;", Outcome::TooDeep(203)),
    (b"int x = ", b"(int)", 200, b"1;", Outcome::Read),
    (b"int x = ", b"(int)", 201, b"1;", Outcome::TooDeep(603)),
    (b"int x = 1", b" + 1", 199, b";", Outcome::Read),
    (b"int x = 1", b" + 1", 200, b";", Outcome::TooDeep(402)),
    (b"int main(void) { 1", b",1", 199, b"; }", Outcome::Read),
    (
        b"int main(void) { 1",
        b",1",
        200,
        b"; }",
        Outcome::TooDeep(405),
    ),
    (b"int ", b"*", 200, b"x;", Outcome::Read),
    (b"int ", b"*", 201, b"x;", Outcome::TooDeep(201)),
    (b"int ", b"*", 199, b"x[1];", Outcome::Read),
    (b"int ", b"*", 200, b"x[1];", Outcome::TooDeep(202)),
    (b"int x = ", b"a = ", 200, b"1;", Outcome::Read),
    (b"int x = ", b"a = ", 201, b"1;", Outcome::TooDeep(404)),
    (
        b"int main(void) { return ",
        b"- ",
        200,
        b"1; }",
        Outcome::TooDeep(206),
    ),
    (b"int f(void) { ", b"if (1) ", 199, b"; }", Outcome::Read),
    (
        b"int f(void) { ",
        b"if (1) ",
        200,
        b"; }",
        Outcome::TooDeep(803),
    ),
    (b"int f(void) { ", b"do ", 199, b";", Outcome::Syntax(206)),
    (b"int f(void) { ", b"do ", 200, b";", Outcome::TooDeep(206)),
    (b"int f(void) { ", b"do ", 200, b"}", Outcome::Syntax(206)),
    (b"int f(void) ", b"{", 200, b"", Outcome::Syntax(205)),
    (b"int f(void) ", b"{", 201, b"", Outcome::TooDeep(205)),
    (b"int x = ", b"(", 201, b"", Outcome::TooDeep(203)),
];

#[test]
fn nesting(rt: HostRuntime) -> Result<(), Fail> {
    for (before, part, count, after, outcome) in NESTS {
        let text = with_many(rt.alloc(), before, part, count, after)?;
        assert_eq!(rt; refusal_of(rt.alloc(), &text)?, refusal(outcome));
    }
    Ok(())
}
