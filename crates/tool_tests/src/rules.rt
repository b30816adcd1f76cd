//! Files that break the rules of typing: for each rule, each of its parts.
use crate::refused::unrefused;
use std::test::Fail;

// What is told, and files that are refused so.
const FILES: [(&str, &[&str]); 12] = [
    // Objects, members, parameters and elements of `void`, or of a struct that is not defined yet.
    (
        "BadType rule 1 at line 1",
        &[
            "void x;",
            "struct s x;",
            "struct s x; struct s { int a; };",
            "int f(void) { void x; return 0; }",
            "int f(void) { struct s x; return 0; }",
            "struct s { void a; };",
            "struct s { struct t a; };",
            "struct s { struct s a; };",
            "int f(void a);",
            "int f(int a, void);",
            "int f(struct s a);",
            "void a[2];",
            "struct s a[2];",
            "void (*p)[2];",
            "struct s { struct s a[2]; };",
            "int f(struct s a[2]);",
            "int f(void) { void a[2]; return 0; }",
        ],
    ),
    // Functions within other types, in structs and in bodies; functions that give arrays or structs, or take structs.
    (
        "BadType rule 2 at line 1",
        &[
            "int (*f)(void);",
            "int f[2](void);",
            "int f(void)(void);",
            "int (*f(void))(void);",
            "int (*f[2])(void);",
            "struct s { int f(void); };",
            "struct s { int (*f)(void); };",
            "int f(void) { int g(void); return 0; }",
            "int f(void)[2];",
            "struct s f(void);",
            "struct s { int a; }; struct s f(void);",
            "struct s { int a; }; int f(struct s a);",
            "struct s { int a; }; int f(int a, struct s);",
        ],
    ),
    // Sizes of arrays below 1, sizes that are not constant, and sizes that are left out where nothing gives them.
    (
        "BadType rule 3 at line 1",
        &[
            "int a[0];",
            "int a[-1];",
            "int a[2 - 2];",
            "int a[2][0];",
            "struct s { int a[0]; };",
            "int f(int a[0]);",
            "int f(void) { int a[0]; return 0; }",
            "int n; int a[n];",
            "int f(int n) { int a[n]; return 0; }",
            "int a[(1, 2)];",
            "int a[1 / 0];",
            "int a[1 || 1 % 0];",
            "int a[];",
            "int a[] = 5;",
            "int a[] = \"x\";",
            "int a[2][] = { { 1 }, { 2 } };",
            "int (*p)[];",
            "struct s { int a[]; };",
            "int f(int a[][]);",
            "int f(int (*a)[]);",
            "int f(void) { int a[]; return 0; }",
        ],
    ),
    // A body of what is no function, and an initializer of a function.
    (
        "BadType rule 4 at line 1",
        &[
            "int x { }",
            "int *x { }",
            "int x[2] { }",
            "int f(void) = 1;",
            "int f(void) = { 1 };",
            "int f(void), g(void) = 0;",
        ],
    ),
    // Functions declared again with another result, or other parameters, and a `main` of another type.
    (
        "BadType rule 5 at line 1",
        &[
            "int f(void); void f(void);",
            "int f(void); int f(int a);",
            "int f(int a); int f(unsigned a);",
            "int f(int *a); int f(char *a);",
            "int f(int a[]) { return 0; } int f(int *a, int b);",
            "int f(void); int *f(void) { return 0; }",
            "char main(void) { return 0; }",
            "int *main(void);",
            "int main(int a) { return 0; }",
            "int main;",
        ],
    ),
    // A pointer given to a number and the other way round, at the start of an object and as a result.
    (
        "BadType rule 10 at line 1",
        &[
            "int *p = 1;",
            "int *p = 1 - 1;",
            "int *p = \"a\";",
            "int x = \"a\";",
            "char a[2] = { \"a\" };",
            "int f(int *p) { return p; }",
            "int *f(void) { return 1; }",
            "char *f(int *p) { return p; }",
        ],
    ),
    // `break` and `continue` outside of loops.
    (
        "BadType rule 17 at line 1",
        &[
            "void f(void) { break; }",
            "void f(void) { continue; }",
            "void f(void) { if (1) break; }",
            "void f(void) { while (0) ; continue; }",
        ],
    ),
    // `return` with a value where there is no result, and without one where there is.
    (
        "BadType rule 18 at line 1",
        &[
            "void f(void) { return 1; }",
            "void f(int *p) { return p; }",
            "int f(void) { return; }",
            "int *f(void) { return; }",
        ],
    ),
    // Parts that are too many, strings that are too long, and braces that are missing or stand where none may.
    (
        "BadType rule 20 at line 1",
        &[
            "int a[1] = { 1, 2 };",
            "struct s { int a; }; struct s x = { 1, 2 };",
            "char a[1] = \"ab\";",
            "int x = { 1 };",
            "int a[1] = { { 1 } };",
            "int a[1] = 1;",
            "int a[1][1] = { 1 };",
            "int a[2] = \"a\";",
            "char a[2] = (\"a\");",
            "struct s { int a; }; struct t { struct s m; }; struct t x = { 1 };",
        ],
    ),
    // Initializers of globals that are neither constants nor names of arrays, strings or addresses of whole globals.
    (
        "BadType rule 21 at line 1",
        &[
            "int x; int y = x;",
            "int x; int y = x++;",
            "int y; int x = y = 1;",
            "int f(void); int x = f();",
            "int x = (1, 2);",
            "int x = 1 / 0;",
            "int x = 0 && 1 / 0;",
            "int x = !\"a\";",
            "int *p; int *q = p;",
            "int *p = (int *)0;",
            "int x; int *p = 1 ? &x : 0;",
            "int a[2]; int *p = a + 1;",
            "int a[2]; int *p = &a[1];",
            "char *p = \"a\" + 1;",
            "int x; int a[1] = { x };",
            "struct s { int a; }; struct s x; int y = x.a;",
            "struct s { int a; }; struct s x; struct s y = x;",
        ],
    ),
    // Parameters without a name where the function has its body.
    (
        "BadType rule 22 at line 1",
        &[
            "int f(int) { return 0; }",
            "int f(int a, int) { return 0; }",
            "int f(int *) { return 0; }",
            "int f(int[]) { return 0; }",
            "int f(int (*)[2]) { return 0; }",
        ],
    ),
    // A struct that is initialized by what is no struct.
    (
        "BadType rule 23 at line 1",
        &[
            "struct s { int a; }; struct s x = 1;",
            "struct s { int a; }; struct s x = NULL;",
        ],
    ),
];

#[test]
fn files_are_refused(rt: HostRuntime) -> Result<(), Fail> {
    for (told, texts) in &FILES {
        let other = unrefused(rt.alloc(), "", texts, "", told)?;
        assert_eq!(rt; other, None, "{told}");
    }
    Ok(())
}
