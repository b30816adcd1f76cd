//! Statements and declarations in a body that break the rules of typing: for each rule, each of its parts.
use crate::refused::unrefused;
use std::test::Fail;

/// A function up to its first statement, with objects and functions of each kind of type.
pub(crate) const BEFORE: &str = "struct s { int a; }; struct t { struct s m; }; \
     void f(void); int g(int n); int h(int *p); \
     int main(void) { int i; int a[2]; int *p; char *c; void *v; \
     struct s s; struct t t; struct s *q; struct u *u; ";

/// The rest of the function.
pub(crate) const AFTER: &str = "; return 0; }";

// What is told, and statements that are refused so.
const BODIES: [(&str, &[&str]); 7] = [
    // The size of `void` or of a struct that is not defined, and elements of such a type.
    (
        "BadType rule 1 at line 1",
        &[
            "sizeof(void)",
            "sizeof(struct u)",
            "sizeof(void[2])",
            "(struct u (*)[2])p",
        ],
    ),
    // The size of an array in the name of a type.
    (
        "BadType rule 3 at line 1",
        &["sizeof(int[0])", "sizeof(int[2][i])", "(int (*)[0])p"],
    ),
    // Values for an object, for a parameter and as a result, of another kind than these.
    (
        "BadType rule 10 at line 1",
        &[
            "i = p",
            "i = s",
            "i = NULL",
            "p = 1",
            "p = c",
            "p = s",
            "p = '\\0'",
            "p = 1 - 1",
            "p = (int)0",
            "p = (0, 0)",
            "*p = p",
            "s.a = p",
            "int x = p",
            "int x = s",
            "int *x = 1",
            "int *x[1] = { 1 }",
            "struct s x = { p }",
            "g(p)",
            "g(s)",
            "h(1)",
            "h(c)",
            "h(s)",
            "return p",
            "return s",
        ],
    ),
    // A struct as a condition.
    (
        "BadType rule 14 at line 1",
        &[
            "!s",
            "s && 1",
            "1 && s",
            "s || 1",
            "1 || s",
            "s ? 1 : 2",
            "if (s) ;",
            "while (s) ;",
            "do ; while (s)",
            "for (; s; ) ;",
        ],
    ),
    // The void value of a call, a cast, a comma and a choice that is given to a struct or an array.
    (
        "BadType rule 19 at line 1",
        &[
            "s = f()",
            "*q = f()",
            "t.m = f()",
            "s = (void)1",
            "s = (1, f())",
            "s = 1 ? f() : f()",
            "s = s = s",
            "struct s x = f()",
            "struct s x = (void)s",
            "int x[1] = f()",
            "char x[2] = f()",
            "int x[1][1] = { f() }",
            "struct t x = { f() }",
        ],
    ),
    // Initializers in braces, or without them, of what takes no such ones.
    (
        "BadType rule 20 at line 1",
        &[
            "int x = { 1 }",
            "int *x = { 0 }",
            "int x[1][1] = { { 1, 2 } }",
            "int x[2] = a",
            "char x[3] = \"abcd\"",
            "struct s x = { { 1 } }",
            "struct t x = { s }",
            "struct t x = { { 1 }, 2 }",
        ],
    ),
    // What is given to a struct, but is another struct, no struct or no place.
    (
        "BadType rule 23 at line 1",
        &[
            "s = t",
            "s = 0",
            "s = q",
            "s = NULL",
            "s = (1, s)",
            "t = s",
            "struct s x = t",
            "struct s x = 0",
            "struct s x = q",
            "struct s x = (1, s)",
        ],
    ),
];

#[test]
fn bodies_are_refused(rt: HostRuntime) -> Result<(), Fail> {
    for (told, texts) in &BODIES {
        let other = unrefused(rt.alloc(), BEFORE, texts, AFTER, told)?;
        assert_eq!(rt; other, None, "{told}");
    }
    Ok(())
}
