//! Expressions that break the rules of typing: for each rule, each of its parts.
use crate::bodies::{AFTER, BEFORE};
use crate::refused::unrefused;
use std::test::Fail;

// What is told, and expressions that are refused so.
const EXPRESSIONS: [(&str, &[&str]); 9] = [
    // Operators that want a place, on what is none, and on whole arrays.
    (
        "BadType rule 6 at line 1",
        &[
            "&1",
            "& &i",
            "&i++",
            "&(1, i)",
            "&(i = 1)",
            "&(int)i",
            "&g(1)",
            "++1",
            "1++",
            "--1",
            "1--",
            "++i++",
            "++a",
            "a++",
            "--a",
            "a--",
            "1 = 2",
            "1 *= 2",
            "1 /= 2",
            "1 %= 2",
            "1 += 2",
            "1 -= 2",
            "1 <<= 2",
            "1 >>= 2",
            "1 &= 2",
            "1 ^= 2",
            "1 |= 2",
            "i + 1 = 2",
            "(1, i) = 2",
            "(1 ? i : i) = 2",
            "(1, s) = s",
            "a += 1",
            "a -= 1",
            "a = a",
        ],
    ),
    // Arithmetic on pointers and structs.
    (
        "BadType rule 7 at line 1",
        &[
            "-p", "+p", "~p", "-s", "++s", "s--", "p * 2", "2 * p", "p / 2", "2 / p", "p % 2",
            "2 % p", "p << 1", "1 << p", "p >> 1", "1 >> p", "p & 1", "1 & p", "p ^ 1", "1 ^ p",
            "p | 1", "1 | p", "s + 1", "1 + s", "s - s", "i *= p", "i /= p", "i %= p", "i <<= p",
            "i >>= p", "i &= p", "i ^= p", "i |= p", "p *= 2", "i += s", "i -= s", "s += 1",
        ],
    ),
    // Sums and differences with a pointer that are none of pointer and number, or are of a pointer to no complete type.
    (
        "BadType rule 8 at line 1",
        &[
            "p + p", "1 - p", "p - c", "p + s", "s + p", "p - s", "s - p", "p += p", "p += s",
            "s += p", "p -= p", "i += p", "i -= p", "v + 1", "1 + v", "v - 1", "v - v", "u + 1",
            "u - u", "++v", "v++", "--v", "u--", "v += 1", "v -= 1",
        ],
    ),
    // Comparisons of a pointer with a number or with another pointer, and of structs.
    (
        "BadType rule 9 at line 1",
        &[
            "p < 1",
            "1 > p",
            "p <= 0",
            "0 >= p",
            "p < NULL",
            "p > v",
            "p <= c",
            "p == 1",
            "1 != p",
            "p == '\\0'",
            "p == c",
            "p != &p",
            "s < 1",
            "1 >= s",
            "s == s",
            "s != p",
        ],
    ),
    // Casts between numbers and pointers, and those of structs and to structs and arrays.
    (
        "BadType rule 11 at line 1",
        &[
            "(int *)1",
            "(int *)'\\0'",
            "(int *)(1 - 1)",
            "(int)p",
            "(char)p",
            "(unsigned)a",
            "(int)NULL",
            "(int)s",
            "(int *)s",
            "(struct s)1",
            "(struct s)s",
            "(int[2])a",
        ],
    ),
    // Places behind what is no pointer, or a pointer to no complete type, and indexes that are no numbers.
    (
        "BadType rule 12 at line 1",
        &[
            "*1", "*s", "*v", "*u", "1[1]", "s[1]", "v[1]", "u[1]", "1[p]", "p[p]", "p[s]", "s->a",
            "i->a", "v->a",
        ],
    ),
    // Members that the struct has not, and members of what is no struct.
    (
        "BadType rule 13 at line 1",
        &[
            "s.b", "t.a", "(1, s).m", "i.a", "q.a", "q->b", "p->a", "(&q)->a",
        ],
    ),
    // Choices between values of two kinds, and between structs.
    (
        "BadType rule 15 at line 1",
        &[
            "1 ? 2 : p",
            "1 ? p : 2",
            "1 ? p : '\\0'",
            "1 ? p : c",
            "1 ? &t : q",
            "1 ? s : 1",
            "1 ? p : s",
            "1 ? s : s",
        ],
    ),
    // Calls of what is no function, calls with other numbers of arguments, and functions that are not called.
    (
        "BadType rule 16 at line 1",
        &[
            "i()",
            "p(1)",
            "1()",
            "a[0]()",
            "f()()",
            "f(1)",
            "g()",
            "g(1, 2)",
            "putchar()",
            "f",
            "f, 1",
            "f + 1",
            "v = f",
            "g(f)",
            "&f",
            "*f",
            "sizeof f",
            "(f)()",
            "putchar",
        ],
    ),
];

#[test]
fn expressions_are_refused(rt: HostRuntime) -> Result<(), Fail> {
    for (told, texts) in &EXPRESSIONS {
        let other = unrefused(rt.alloc(), BEFORE, texts, AFTER, told)?;
        assert_eq!(rt; other, None, "{told}");
    }
    Ok(())
}
