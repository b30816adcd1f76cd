//! The function that is one too many.
use crate::refused::unrefused;
use std::alloc::{AllocError, Global};
use std::test::Fail;

// What is told, and what is refused so in the line after 1,000 functions, `faaa` the first.
const LAST: [(&str, &[&str]); 6] = [
    // A declaration without a body adds none.
    ("NoMain", &["", "int g(void);"]),
    // A second definition comes first,
    ("Twice faaa at line 2", &["void faaa(void) { }"]),
    // also of a function of the library,
    ("Twice exit at line 2", &["void exit(int s) { }"]),
    // then more than eight parameters,
    (
        "TooManyParams at line 2",
        &["void f(int, int, int, int, int, int, int, int, int) { }"],
    ),
    // then the function that is one too many,
    (
        "TooManyFunctions at line 2",
        &[
            "void f(void) { }",
            // whatever rule it breaks,
            "void (*f(void))[2] { }",
            "struct s f(void) { }",
            "int (*f(void))[0] { }",
            "char main(void) { }",
            "void f(int) { }",
            // and how large a type is.
            "char (*f(void))[1048577] { }",
            // Its body and what follows come after it,
            "void f(void) { x; }",
            "void f(void) { }\nint y = x;",
        ],
    ),
    // and its parameters before.
    ("BadType rule 1 at line 2", &["void f(void a) { }"]),
];

const DIGITS: [&str; 10] = ["a", "b", "c", "d", "e", "f", "g", "h", "i", "j"];

// A line of 1,000 functions.
fn functions(alloc: Global) -> Result<String, AllocError> {
    let mut text = String::new(alloc);
    for hundreds in &DIGITS {
        for tens in &DIGITS {
            for ones in &DIGITS {
                text.push_str("void f")?;
                text.push_str(hundreds)?;
                text.push_str(tens)?;
                text.push_str(ones)?;
                text.push_str("(void) { } ")?;
            }
        }
    }
    text.push_str("\n")?;
    Ok(text)
}

#[test]
fn functions_are_counted(rt: HostRuntime) -> Result<(), Fail> {
    let before = functions(rt.alloc())?;
    for (told, texts) in &LAST {
        let other = unrefused(rt.alloc(), before.as_str(), texts, "", told)?;
        assert_eq!(rt; other, None, "{told}");
    }
    Ok(())
}
