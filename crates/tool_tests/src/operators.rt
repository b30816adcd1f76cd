//! Operators and calls that break two rules of typing: the one that is told.
use crate::bodies::{AFTER, BEFORE};
use crate::refused::unrefused;
use std::test::Fail;

// What is told, and statements that are refused so.
const OPERATORS: [(&str, &[&str]); 14] = [
    // An incomplete type comes before
    (
        "BadType rule 1 at line 1",
        &[
            // an array of no elements,
            "sizeof(void[0])",
            // a cast that is not allowed,
            "(void (*)[2])1",
            // the use of what is void,
            "sizeof f()",
            "sizeof(1, f())",
            "(void (*)[2])f()",
            // and a type that is too large.
            "sizeof(void (*[1048577])[2])",
        ],
    ),
    // An array of no elements comes before
    (
        "BadType rule 3 at line 1",
        &[
            // a cast that is not allowed,
            "(int (*)[0])1",
            // the use of what is void,
            "(int (*)[0])f()",
            // and a type that is too large.
            "sizeof(char[0][1048577])",
        ],
    ),
    // What is no place, or an array, comes before
    (
        "BadType rule 6 at line 1",
        &[
            // an operand that is no number,
            "++(1, s)",
            "(1, s)--",
            "1 *= p",
            "a *= 2",
            "1 += s",
            // a sum or difference with a pointer that is not allowed,
            "++(1, v)",
            "(1, v)--",
            "1 += p",
            "a -= p",
            // a value of another kind,
            "1 = p",
            "a = 1",
            // the use of what is void,
            "&f()",
            "++f()",
            "f()--",
            "1 = f()",
            "(1, s) = f()",
            "f() = 1",
            "1 *= f()",
            "1 += f()",
            // and what is no struct.
            "(1, s) = 1",
        ],
    ),
    // An operand that is no number comes before the use of what is void.
    (
        "BadType rule 7 at line 1",
        &[
            "-f()", "~f()", "f() * 2", "2 << f()", "p & f()", "f() + 1", "1 - f()", "i *= f()",
            "i += f()", "s += f()",
        ],
    ),
    // So does a sum or difference with a pointer that is not allowed,
    (
        "BadType rule 8 at line 1",
        &["p + f()", "f() + p", "p - f()", "f() - p", "p += f()"],
    ),
    // and a comparison.
    (
        "BadType rule 9 at line 1",
        &["p == f()", "f() != f()", "1 < f()", "f() >= p"],
    ),
    // A value of another kind comes before
    (
        "BadType rule 10 at line 1",
        &[
            // another number of arguments,
            "g(p, 1)",
            "h(1, p)",
            // the use of what is void,
            "i = f()",
            "p = f()",
            "int x = f()",
            "int x[1] = { f() }",
            "g(f())",
            "return f()",
            // and parts that are too many.
            "int *x[1] = { 1, 2 }",
            "struct s x = { p, 2 }",
        ],
    ),
    // A cast that is not allowed comes before the use of what is void.
    (
        "BadType rule 11 at line 1",
        &["(int)f()", "(int *)f()", "(struct s)f()"],
    ),
    // What is no pointer to a complete type comes before
    (
        "BadType rule 12 at line 1",
        &[
            // what is no member,
            "1->b", "s->b", "u->b",
            // and the use of what is void.
            "*f()", "f()[1]", "p[f()]", "f()->a",
        ],
    ),
    // What is no member comes before the use of what is void.
    ("BadType rule 13 at line 1", &["f().a"]),
    // A condition that is none comes before
    (
        "BadType rule 14 at line 1",
        &[
            // a choice that is not allowed,
            "s ? 1 : p",
            "s ? s : s",
            // and the use of what is void.
            "!f()",
            "f() && 1",
            "1 && f()",
            "f() || 1",
            "1 || f()",
            "f() ? 1 : 2",
            "if (f()) ;",
            "while (f()) ;",
            "do ; while (f())",
            "for (; f(); ) ;",
        ],
    ),
    // A choice that is not allowed comes before the use of what is void,
    (
        "BadType rule 15 at line 1",
        &["1 ? f() : 1", "1 ? 1 : f()", "1 ? p : f()", "1 ? s : f()"],
    ),
    // and so does another number of arguments, or a call of what is no function.
    (
        "BadType rule 16 at line 1",
        &["f(f())", "g(1, f())", "p(f())"],
    ),
    // The use of what is void comes before the want of a struct and before braces that do not fit.
    (
        "BadType rule 19 at line 1",
        &[
            "s = f()",
            "struct s x = f()",
            "int x[1] = f()",
            "int x = { f() }",
            "int x[1] = { 1, f() }",
            "struct s x = { 1, f() }",
        ],
    ),
];

#[test]
fn operators_have_an_order(rt: HostRuntime) -> Result<(), Fail> {
    for (told, texts) in &OPERATORS {
        let other = unrefused(rt.alloc(), BEFORE, texts, AFTER, told)?;
        assert_eq!(rt; other, None, "{told}");
    }
    Ok(())
}
