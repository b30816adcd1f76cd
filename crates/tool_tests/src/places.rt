//! Files that are refused for causes at two places: the one that is told.
use crate::bodies::{AFTER, BEFORE};
use crate::refused::unrefused;
use std::test::Fail;

// What is told, and statements that are refused so.
const STATEMENTS: [(&str, &[&str]); 6] = [
    // What stands first in the text is told: the left operand, the called name, the first declarator, the first clause,
    (
        "Unknown x at line 1",
        &[
            "x + y",
            "x = y",
            "x[y]",
            "x, y",
            "x(y)",
            "x(-p)",
            "g(x, y)",
            "x ? y : 1",
            "i ? x : y",
            "int z[x] = { y }",
            "int z[2] = { x, y }",
            "int z = x, w = y",
            "if (i) x; else y",
            "do x; while (y)",
            "for (x; y; ) ;",
            "for (; x; y) ;",
            "for (; ; x) y",
            // and an operand before its operator, an argument before its call.
            "p * x",
            "1 = x",
            "s ? x : 1",
            "g(p, x)",
            "f(x)",
            "p(x)",
        ],
    ),
    // So it is where the second cause would come first at one place.
    (
        "BadType rule 7 at line 1",
        &[
            "-p + x",
            "-p = x",
            "g(-p, x)",
            "-p ? x : 1",
            "int z[-p] = { x }",
        ],
    ),
    // So it is of two operands that both break a rule,
    ("BadType rule 12 at line 1", &["*1 + s.b", "*1 + -p"]),
    // and of an operand and its operator.
    (
        "BadType rule 13 at line 1",
        &[
            "s.b + *1",
            "p * s.b",
            "1 = s.b",
            "s ? s.b : 1",
            "s && s.b",
            "g(p, s.b)",
            "f(s.b)",
            "p(s.b)",
        ],
    ),
    // A condition comes before what it rules.
    (
        "BadType rule 14 at line 1",
        &["if (s) x", "while (s) x", "for (; s; x) ;", "for (; s; ) x"],
    ),
    // A type is judged where it stands, and that of a name before its initializer.
    (
        "TooLarge size 1048577 at line 1",
        &["sizeof(char[1048577]) + x", "char x[1048577] = y"],
    ),
];

#[test]
fn statements_are_read_in_order(rt: HostRuntime) -> Result<(), Fail> {
    for (told, texts) in &STATEMENTS {
        let other = unrefused(rt.alloc(), BEFORE, texts, AFTER, told)?;
        assert_eq!(rt; other, None, "{told}");
    }
    Ok(())
}

// What is told, and files that are refused so.
const FILES: [(&str, &[&str]); 18] = [
    // A size comes before the declared name, a parameter before its function, and a value before its `return`.
    (
        "Unknown y at line 1",
        &[
            "int x; int x[y];",
            "void x[y];",
            "int f(int a[y], void);",
            "int f(int a[y])[2];",
            "void f(void) { return y; }",
        ],
    ),
    // A parameter comes before its function,
    (
        "Twice x at line 1",
        &[
            "int f(int x, int x, int, int, int, int, int, int, int);",
            // a declarator before its initializer, and before the next one,
            "int x; int x = y;",
            "int x; int *x = 1;",
            "int x; int x = { 1 };",
            "int x; int x, z[y];",
            // a tag before its members,
            "struct x { int a; }; struct x { int a[y]; };",
            // and a line before the next.
            "int x; int x;\nint z = y;",
        ],
    ),
    // So does a line.
    (
        "TooManyParams at line 1",
        &["int f(int, int, int, int, int, int, int, int, int);\nint x; int x;"],
    ),
    // A parameter comes before its function,
    (
        "BadType rule 1 at line 1",
        &[
            "int x; int x(void a);",
            "int f(void a, int, int, int, int, int, int, int, int);",
            // a declarator before its initializer,
            "void x = y;",
            "void x = 1;",
            "void x[2] = 1;",
            "struct s x = 1;",
            // and a declarator, a member and a line before the next.
            "void x, z[y];",
            "struct s { void x; int z[y]; };",
            "void x;\nint z = y;",
            "void x;\nint z; int z;",
        ],
    ),
    // A declarator comes before its initializer,
    (
        "BadType rule 3 at line 1",
        &["int a[0] = { x };", "int a[0] = 1;", "int a[] = x;"],
    ),
    // also before one that it may not have.
    ("BadType rule 4 at line 1", &["int f(void) = x;"]),
    // A size comes before the declared name.
    ("BadType rule 12 at line 1", &["int x; int x[*1];"]),
    // A function comes before its body.
    ("BadType rule 22 at line 1", &["int f(int) { return x; }"]),
    // A parameter comes before the next and before its function,
    (
        "TooLarge size 1048577 at line 1",
        &[
            "int f(char a[2][1048577], void);",
            "int f(char a[2][1048577])[2];",
            // a declarator before its initializer,
            "char a[1048577] = x;",
            "char a[1048577] = 1;",
            "char a[1048577] = { { 1 } };",
            // and a declarator and a line before the next.
            "char a[1048577], b[x];",
            "char a[1048577];\nvoid x;",
        ],
    ),
    // The size that an initializer gives is known before its parts are judged.
    (
        "TooLarge size 2097152 at line 1",
        &["char a[][1048576] = { { 1 }, x };"],
    ),
    // Of two equal causes the first is told.
    (
        "BadType rule 12 at line 2",
        &["int f(void) { return 1 +\n*1 +\n*1; }"],
    ),
    (
        "Unknown x at line 2",
        &["int f(void) {\nreturn x; }\nint x = y;"],
    ),
    // What is found in the text comes before what is found after it,
    (
        "BadType rule 1 at line 2",
        &["int g(void); int f(void) { return g(); }\nvoid x;"],
    ),
    // where a called function without a body is told by its first declaration,
    (
        "Unknown g at line 1",
        &[
            "int g(void);\nint f(void) { return g(); }",
            "int g(void);\nint g(void); int main(void) { return g(); }",
            "int g(void);\nint main(void) { return sizeof g(); }",
        ],
    ),
    (
        "Unknown main at line 1",
        &["int main(void);\nint f(void) { return main(); }"],
    ),
    // of several such the one that is declared first,
    (
        "Unknown g at line 2",
        &["\nint g(void);\nint h(void); int main(void) { return h() + g(); }"],
    ),
    (
        "Unknown h at line 3",
        &["\nint g(void);\nint h(void);\nint k(void); int main(void) { return k() + h(); }"],
    ),
    // and the want of a `main` comes last.
    (
        "NoMain",
        &[
            "",
            "int main(void);",
            "int g(void); int f(void) { return 0; }",
        ],
    ),
];

#[test]
fn files_are_read_in_order(rt: HostRuntime) -> Result<(), Fail> {
    for (told, texts) in &FILES {
        let other = unrefused(rt.alloc(), "", texts, "", told)?;
        assert_eq!(rt; other, None, "{told}");
    }
    Ok(())
}
