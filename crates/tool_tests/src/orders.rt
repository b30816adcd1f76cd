//! Declarations that are refused for two causes at one place: the one that is told.
use crate::refused::unrefused;
use std::test::Fail;

// What is told, and files that are refused so.
const FILES: [(&str, &[&str]); 16] = [
    // A called name that is not declared comes before all that is wrong with the call.
    (
        "Unknown x at line 1",
        &[
            "int f(void) { return x(); }",
            "void g(void); int f(void) { return x(g()); }",
        ],
    ),
    // A second declaration of a name in its scope comes before
    (
        "Twice x at line 1",
        &[
            // more than eight parameters,
            "int x; int x(int, int, int, int, int, int, int, int, int);",
            "struct s { int x; int x(int, int, int, int, int, int, int, int, int); };",
            "int f(void) { int x; int x(int, int, int, int, int, int, int, int, int); }",
            "void x(void) { } void x(int, int, int, int, int, int, int, int, int) { }",
            // an incomplete type,
            "int x; void x;",
            "struct s { int x; void x; };",
            "int f(int x, void x);",
            "int f(void) { int x; struct s x; return 0; }",
            // a function that may not stand there, or that gives an array,
            "int x; int (*x)(void);",
            "struct s { int x; int x(void); };",
            "int f(void) { int x; int x(void); return 0; }",
            "int x; int x(void)[2];",
            // an array of no elements, or without a size,
            "int x; int x[0];",
            "int x; int x[];",
            "struct s { int x; int x[0]; };",
            "int f(int x, int x[0]);",
            "int f(void) { int x; int x[]; return 0; }",
            // a body of an object, or an initializer of a function,
            "int x; int x { }",
            "int x; int x(void) = 1;",
            // another type than before,
            "int x(void) { return 0; } char x(void) { return 0; }",
            // a parameter without a name in a definition,
            "int x(int a) { return 0; } int x(int) { return 0; }",
            // and a type that is too large.
            "int x; char x[1048577];",
            "struct s { int x; char x[1048577]; };",
            "int f(int x, char x[2][1048577]);",
            "int f(void) { int x; char x[1048577]; return 0; }",
            "int x; char (*x(void))[1048577];",
            "struct x { int a; }; struct x { char a[1048576]; char b; };",
        ],
    ),
    // So it is where `main` has a type that it may not have,
    (
        "Twice main at line 1",
        &[
            "int main(void) { return 0; } char main(void) { return 0; }",
            "int main(void); int main;",
        ],
    ),
    // and for the functions of the library, which are declared before the text.
    (
        "Twice putchar at line 1",
        &[
            "int putchar(int, int, int, int, int, int, int, int, int);",
            "void putchar;",
            "char putchar(int c);",
            "char putchar[1048577];",
        ],
    ),
    // More than eight parameters come before
    (
        "TooManyParams at line 1",
        &[
            // an incomplete type,
            "void (*f(int, int, int, int, int, int, int, int, int))[2];",
            // a function that may not stand there, that gives an array or a struct, or that takes a struct,
            "int (*f)(int, int, int, int, int, int, int, int, int);",
            "struct s { int f(int, int, int, int, int, int, int, int, int); };",
            "int f(int, int, int, int, int, int, int, int, int)[2];",
            "struct s f(int, int, int, int, int, int, int, int, int);",
            "struct s { int a; }; int f(struct s, int, int, int, int, int, int, int, int);",
            // an array of no elements,
            "int (*f(int, int, int, int, int, int, int, int, int))[0];",
            // a body of what is no function, or an initializer of a function,
            "int (*f)(int, int, int, int, int, int, int, int, int) { }",
            "int f(int, int, int, int, int, int, int, int, int) = 1;",
            // another type than before, or than that of `main`,
            "int f(int); int f(int, int, int, int, int, int, int, int, int);",
            "int main(int, int, int, int, int, int, int, int, int);",
            // parameters without names in a definition,
            "void f(int, int, int, int, int, int, int, int, int) { }",
            // and a type that is too large.
            "char (*f(int, int, int, int, int, int, int, int, int))[1048577];",
        ],
    ),
    // An incomplete type comes before
    (
        "BadType rule 1 at line 1",
        &[
            // a function that gives an array,
            "void f(void)[2];",
            // an array of no elements, or without a size,
            "void a[0];",
            "void a[];",
            "struct s { void a[0]; };",
            "int f(void a[0]);",
            // a body of an object, or an initializer of a function,
            "void a[2] { }",
            "void (*f(void))[2] = 1;",
            // another type than before, or than that of `main`,
            "int f(void); void (*f(void))[2];",
            "void main[2];",
            // a parameter without a name in a definition,
            "void (*f(int))[2] { return 0; }",
            // and a type that is too large.
            "void (*a[1048577])[2];",
        ],
    ),
    // A function that may not stand there, or that gives an array or a struct, comes before
    (
        "BadType rule 2 at line 1",
        &[
            // an array of no elements,
            "int f(void)[0];",
            "int (*f[0])(void);",
            // a body of what is no function, or an initializer of a function,
            "int (*f)(void) { }",
            "struct s f(void) = 1;",
            // another type than before, or than that of `main`,
            "int f(void); int f(void)[2];",
            "int (*main)(void);",
            // a parameter without a name in a definition,
            "struct s f(int) { }",
            // and a type that is too large.
            "char f(void)[1048577];",
            "int (*f[1048577])(void);",
        ],
    ),
    // An array of no elements, or without a size, comes before
    (
        "BadType rule 3 at line 1",
        &[
            // a body of an object, or an initializer of a function,
            "int a[0] { }",
            "int a[] { }",
            "int (*f(void))[0] = 1;",
            // another type than before, or than that of `main`,
            "int f(void); int (*f(void))[0];",
            "int main[0];",
            // a parameter without a name in a definition,
            "int (*f(int))[0] { return 0; }",
            // and a type that is too large.
            "char a[0][1048577];",
        ],
    ),
    // A body of an object, or an initializer of a function, comes before
    (
        "BadType rule 4 at line 1",
        &[
            // another type than before, or than that of `main`,
            "int f(void); char f(void) = 1;",
            "char main(void) = 1;",
            "int main { }",
            // and a type that is too large.
            "char a[1048577] { }",
            "char (*f(void))[1048577] = 1;",
        ],
    ),
    // Another type than before, or than that of `main`, comes before
    (
        "BadType rule 5 at line 1",
        &[
            // a parameter without a name in a definition,
            "int f(void); int f(int) { return 0; }",
            "int main(int) { return 0; }",
            // and a type that is too large.
            "int f(void); char (*f(void))[1048577];",
            "char main[1048577];",
        ],
    ),
    // A value of another kind than the global comes before one that is void, is no constant, or is one too many.
    (
        "BadType rule 10 at line 1",
        &[
            "void f(void); int x = f();",
            "int *a[1] = { 1, 2 };",
            "int x; int *p = x;",
            "int x; int *a[1] = { x };",
        ],
    ),
    // A value for `return` in a function that gives none comes before the use of what is void.
    (
        "BadType rule 18 at line 1",
        &["void f(void) { return f(); }"],
    ),
    // The use of what is void comes before the want of braces, of a constant and of a struct.
    (
        "BadType rule 19 at line 1",
        &[
            "void f(void); int a[1] = f();",
            "struct s { int a; }; void f(void); struct s x = f();",
        ],
    ),
    // The want of braces comes before that of a constant,
    ("BadType rule 20 at line 1", &["int x; int a[1] = x;"]),
    // and the want of a constant before that of a struct.
    (
        "BadType rule 21 at line 1",
        &["struct s { int a; }; int x; struct s y = x;"],
    ),
    // A parameter without a name in a definition comes before a type that is too large.
    (
        "BadType rule 22 at line 1",
        &["char (*f(int))[1048577] { return 0; }"],
    ),
];

#[test]
fn declarations_have_an_order(rt: HostRuntime) -> Result<(), Fail> {
    for (told, texts) in &FILES {
        let other = unrefused(rt.alloc(), "", texts, "", told)?;
        assert_eq!(rt; other, None, "{told}");
    }
    Ok(())
}
