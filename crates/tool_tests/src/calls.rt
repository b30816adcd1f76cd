//! Calls of the tool on files, inputs, outputs and notes in memory.
use baggy_tool::ending::Ended;
use baggy_tool::run::baggy_run;
use bb_outside::mem_shelf::MemShelf;
use bb_outside::mem_sink::MemSink;
use bb_outside::mem_source::MemSource;
use std::alloc::{AllocError, Global};
use std::test::Fail;

fn words_of(alloc: Global, texts: &[&str]) -> Result<Vec<String>, AllocError> {
    let mut words = Vec::new(alloc);
    for text in texts {
        words.push(String::from_str(alloc, text)?)?;
    }
    Ok(words)
}

// The status of a call on a shelf, whose notes have so much room and fail at these puts, if it notes just this. The input is
// not read, and nothing is written to the output.
fn status_on(
    alloc: Global,
    shelf: &mut MemShelf,
    words: &[&str],
    room: u32,
    failing_puts: &[u32],
    noted: &str,
) -> Result<Option<u8>, AllocError> {
    let words = words_of(alloc, words)?;
    let mut input = MemSource::new(alloc, b"", &[0])?;
    let mut output = MemSink::new(alloc, 100, &[])?;
    let mut notes = MemSink::new(alloc, room, failing_puts)?;
    let Ended { status, .. } = baggy_run(alloc, &words, shelf, &mut input, &mut output, &mut notes);
    if notes.bytes() == noted.as_bytes() && output.bytes().is_empty() {
        Ok(Some(status))
    } else {
        Ok(None)
    }
}

// The status of a call, where `f.c` has this text, if it notes just this.
pub(crate) fn status(
    alloc: Global,
    words: &[&str],
    text: &[u8],
    noted: &str,
) -> Result<Option<u8>, AllocError> {
    let mut shelf = MemShelf::new(alloc, &[])?;
    shelf.add("f.c", text)?;
    status_on(alloc, &mut shelf, words, 200, &[], noted)
}

const USAGE: &str =
    "usage: baggy run|compile|exec|check FILE [--steps N] [--out PATH] [--profile]\n";

// The words of a call where `f.c` returns 42, its status, and its note.
const WORDS: [(&[&str], u8, &str); 28] = [
    (&["run", "f.c"], 42, ""),
    (
        &["run", "f.c", "--steps", "0"],
        123,
        "baggy: out of steps\n",
    ),
    (
        &["run", "f.c", "--steps", "4"],
        123,
        "baggy: out of steps\n",
    ),
    (&["run", "f.c", "--steps", "4096"], 42, ""),
    (&["--steps", "4096", "run", "f.c"], 42, ""),
    (&["run", "--steps", "4096", "f.c"], 42, ""),
    (&["run", "--steps=4096", "f.c"], 42, ""),
    (&["run", "--steps", "4096", "--", "f.c"], 42, ""),
    (&["compile", "--out=p", "f.c"], 0, ""),
    (&["run", "f.c", "--steps", "1000000000000"], 42, ""),
    (&["run", "f.c", "--steps", "1000000000001"], 125, USAGE),
    (&["run", "f.c", "--steps", "12x"], 125, USAGE),
    (&["run", "f.c", "--steps", ""], 125, USAGE),
    (&["run", "f.c", "--steps"], 125, USAGE),
    (&["run", "f.c", "--steps", "5", "--steps", "5"], 125, USAGE),
    (&["run", "f.c", "--out", "p"], 125, USAGE),
    (&["run", "f.c", "g.c"], 125, USAGE),
    (&["compile", "f.c"], 125, USAGE),
    (&["compile", "f.c", "--out", "p", "--out", "p"], 125, USAGE),
    (
        &["compile", "f.c", "--out", "p", "--steps", "5"],
        125,
        USAGE,
    ),
    (&["check", "f.c"], 0, ""),
    (&["check", "f.c", "--steps", "5"], 125, USAGE),
    (&["check", "f.c", "--out", "p"], 125, USAGE),
    (&["run"], 125, USAGE),
    (&["walk", "f.c"], 125, USAGE),
    (&[], 125, USAGE),
    (&["--help"], 125, USAGE),
    (&["run", "g.c"], 126, "baggy: no file\n"),
];

#[test]
fn words_are_read(rt: HostRuntime) -> Result<(), Fail> {
    for (words, ended, noted) in &WORDS {
        let got = status(rt.alloc(), words, b"int main(void){return 42;}", noted)?;
        assert_eq!(rt; got, Some(*ended), "{noted} of {} words", words.len());
    }
    Ok(())
}

const NOT_BUILT: &str = "baggy: refused NotBuilt\n";

// A text, the statuses of its run and of its check, and the notes of each. Nothing is read or written.
const TEXTS: [(&str, u8, &str, u8, &str); 28] = [
    (
        "int main(void) { return 1 - (2 - 3) - 300; }",
        214,
        "",
        0,
        "",
    ),
    (
        "int main(void){return 2147483647 + 2147483647 + 4;}",
        2,
        "",
        0,
        "",
    ),
    (
        "\nint\tmain ( void ) { return 2147483647 ; } \r\n",
        255,
        "",
        0,
        "",
    ),
    ("int main(void){return 010 + 0x10 + 'a';}", 121, "", 0, ""),
    (DEEP, 0, "", 0, ""),
    (DEEPER, 121, "baggy: report Depth at line 1\n", 0, ""),
    (LEAST, 1, "", 0, ""),
    (CONVERTED, 3, "", 0, ""),
    (
        "int main(void) { return (1 << 33) + (-8 >> 1) + 10; }",
        8,
        "",
        0,
        "",
    ),
    (
        "void f(void) { exit(300); } int main(void) { f(); return 1; }",
        44,
        "",
        0,
        "",
    ),
    (
        "int z(void) { return 0; }\nint main(void) {\n  return 7 / z(); }",
        121,
        "baggy: report DivZero at line 3\n",
        0,
        "",
    ),
    (
        "int main(void){return 1;} // one\nint x;",
        124,
        NOT_BUILT,
        0,
        "",
    ),
    (
        "int main(void) { int x; int *p; p = &x; return 0; }",
        124,
        NOT_BUILT,
        0,
        "",
    ),
    ("", 124, NO_MAIN, 124, NO_MAIN),
    ("int main(void) { return x; }", 124, UNKNOWN, 124, UNKNOWN),
    ("int x; int x;", 124, TWICE, 124, TWICE),
    (
        "int main(void) { int *p = 5; return 0; }",
        124,
        NOT_GIVEN,
        124,
        NOT_GIVEN,
    ),
    ("char a[1048577];", 124, TOO_MUCH, 124, TOO_MUCH),
    (MANY_PARAMS, 124, TOO_MANY, 124, TOO_MANY),
    (
        "int main(void) { return 1 }",
        124,
        NO_SEMICOLON,
        124,
        NO_SEMICOLON,
    ),
    ("return", 124, AT_START, 124, AT_START),
    (
        "int main(void){return (1;}",
        124,
        NO_BRACKET,
        124,
        NO_BRACKET,
    ),
    (
        "int main(void)\n{\nreturn 1);}",
        124,
        NO_OPERAND,
        124,
        NO_OPERAND,
    ),
    ("int\nx = 2147483648;", 124, LARGE_NUMBER, 124, LARGE_NUMBER),
    ("int x = 'ab';", 124, TWO_ELEMENTS, 124, TWO_ELEMENTS),
    ("/*", 124, NO_END, 124, NO_END),
    ("int x = 08;", 124, BAD_NUMBER, 124, BAD_NUMBER),
    ("#define N 3", 124, BAD_DIRECTIVE, 124, BAD_DIRECTIVE),
];

// 4,096 calls at once, and one more.
const DEEP: &str =
    "int f(int n) { if (n == 0) return 0; return f(n - 1); } int main(void) { return f(4094); }";

const DEEPER: &str =
    "int f(int n) { if (n == 0) return 0; return f(n - 1); } int main(void) { return f(4095); }";

// The least number by -1.
const LEAST: &str =
    "int main(void) { int m = -2147483647 - 1; int d = -1; return m / d == m && m % d == 0; }";

// A char keeps the lowest byte, an unsigned wraps around, and -1 is compared as the greatest unsigned.
const CONVERTED: &str =
    "int main(void) { char c = 300; unsigned u = 0; return (c == 44) + 2 * (u - 1 > 0) + 4 * (-1 < u); }";

const MANY_PARAMS: &str = "void f(int a, int b, int c, int d, int e, int f, int g, int h, int i);";

const NO_MAIN: &str = "baggy: refused NoMain\n";

const UNKNOWN: &str = "baggy: refused Unknown x at line 1\n";

const TWICE: &str = "baggy: refused Twice x at line 1\n";

const NOT_GIVEN: &str = "baggy: refused BadType rule 10 at line 1\n";

const TOO_MUCH: &str = "baggy: refused TooLarge size 1048577 at line 1\n";

const TOO_MANY: &str = "baggy: refused TooManyParams at line 1\n";

const NO_SEMICOLON: &str = "baggy: refused Syntax token 8 at line 1\n";

const AT_START: &str = "baggy: refused Syntax token 0 at line 1\n";

const NO_BRACKET: &str = "baggy: refused Syntax token 9 at line 1\n";

const NO_OPERAND: &str = "baggy: refused Syntax token 8 at line 3\n";

const LARGE_NUMBER: &str = "baggy: refused BadNumber at line 2\n";

const TWO_ELEMENTS: &str = "baggy: refused BadEscape at line 1\n";

const BAD_NUMBER: &str = "baggy: refused BadNumber at line 1\n";

const BAD_DIRECTIVE: &str = "baggy: refused BadDirective at line 1\n";

const NO_END: &str = "baggy: refused Unclosed at line 1\n";

#[test]
fn texts_are_run(rt: HostRuntime) -> Result<(), Fail> {
    for (text, run, noted, check, checked) in &TEXTS {
        let got = status(rt.alloc(), &["run", "f.c"], text.as_bytes(), noted)?;
        assert_eq!(rt; got, Some(*run), "{text}");
        let got = status(rt.alloc(), &["check", "f.c"], text.as_bytes(), checked)?;
        assert_eq!(rt; got, Some(*check), "{text}");
    }
    Ok(())
}

// The status of a text that is compiled and then run as an image, if the run notes just this.
fn status_of_image(alloc: Global, text: &str, noted: &str) -> Result<Option<u8>, AllocError> {
    let mut shelf = MemShelf::new(alloc, &[])?;
    shelf.add("f.c", text.as_bytes())?;
    let words = ["compile", "f.c", "--out", "p"];
    match status_on(alloc, &mut shelf, &words, 0, &[], "")? {
        Some(0) => status_on(alloc, &mut shelf, &["exec", "p"], 200, &[], noted),
        other => Ok(other),
    }
}

#[test]
fn images_of_texts_are_run(rt: HostRuntime) -> Result<(), Fail> {
    for (text, run, noted, _, _) in &TEXTS {
        if *run != 124 {
            let got = status_of_image(rt.alloc(), text, noted)?;
            assert_eq!(rt; got, Some(*run), "{text}");
        }
    }
    Ok(())
}

// Texts that are accepted and not built, one for each cause.
const OTHERS: [&str; 10] = [
    "int x; int main(void) { return 0; }",
    "int main(void) { int a[2]; return 0; }",
    "struct s { int a; }; int main(void) { struct s v; return 0; }",
    "int main(void) { int x; &x; return 0; }",
    "int main(void) { int *p; return 0; }",
    "int f(char *p) { return 0; } int main(void) { return 0; }",
    "struct s { int *p; }; int main(void) { return 0; }",
    "int main(void) { \"a\"; return 0; }",
    "int main(void) { malloc(4); return 0; }",
    "int main(void) { NULL; return 0; }",
];

#[test]
fn others_are_not_built(rt: HostRuntime) -> Result<(), Fail> {
    for text in &OTHERS {
        let got = status(rt.alloc(), &["run", "f.c"], text.as_bytes(), NOT_BUILT)?;
        assert_eq!(rt; got, Some(124), "{text}");
        let got = status(rt.alloc(), &["check", "f.c"], text.as_bytes(), "")?;
        assert_eq!(rt; got, Some(0), "{text}");
    }
    Ok(())
}

// The status of a run with this input, if it notes nothing and writes this.
fn status_of_run(
    alloc: Global,
    text: &str,
    input: &[u8],
    written: &[u8],
) -> Result<Option<u8>, AllocError> {
    let mut shelf = MemShelf::new(alloc, &[])?;
    shelf.add("f.c", text.as_bytes())?;
    let words = words_of(alloc, &["run", "f.c"])?;
    let mut input = MemSource::new(alloc, input, &[])?;
    let mut output = MemSink::new(alloc, 1000, &[])?;
    let mut notes = MemSink::new(alloc, 100, &[])?;
    let Ended { status, .. } = baggy_run(
        alloc,
        &words,
        &mut shelf,
        &mut input,
        &mut output,
        &mut notes,
    );
    if notes.bytes().is_empty() && output.bytes() == written {
        Ok(Some(status))
    } else {
        Ok(None)
    }
}

// A program that does not end is stopped after its instructions.
#[test]
fn endless_is_stopped(rt: HostRuntime) -> Result<(), Fail> {
    let words = ["run", "f.c", "--steps", "1000"];
    let text = b"int main(void) { while (1) ; }";
    let got = status(rt.alloc(), &words, text, "baggy: out of steps\n")?;
    assert_eq!(rt; got, Some(123));
    Ok(())
}

// The calls of the input and of the output that fail, the status, the output and the note of a program that copies its input
// of two bytes.
const COPIES: [(&[u32], &[u32], u8, &[u8], &str); 4] = [
    (&[], &[], 0, b"ab", ""),
    (&[0], &[], 126, b"", "baggy: read fault\n"),
    (&[1], &[], 126, b"a", "baggy: read fault\n"),
    (&[], &[1], 126, b"a", "baggy: write fault\n"),
];

#[test]
fn faults_of_streams_are_answered(rt: HostRuntime) -> Result<(), Fail> {
    let alloc = rt.alloc();
    for (takes, puts, ended, written, noted) in &COPIES {
        let mut shelf = MemShelf::new(alloc, &[])?;
        shelf.add("f.c", ECHO.as_bytes())?;
        let words = words_of(alloc, &["run", "f.c"])?;
        let mut input = MemSource::new(alloc, b"ab", takes)?;
        let mut output = MemSink::new(alloc, 100, puts)?;
        let mut notes = MemSink::new(alloc, 100, &[])?;
        let Ended { status, .. } = baggy_run(
            alloc,
            &words,
            &mut shelf,
            &mut input,
            &mut output,
            &mut notes,
        );
        assert_eq!(rt; status, *ended, "{noted}");
        assert_eq!(rt; output.bytes() == *written, true, "{noted}");
        assert_eq!(rt; notes.bytes() == noted.as_bytes(), true, "{noted}");
    }
    Ok(())
}

// All bytes come through as they are.
#[test]
fn all_bytes_are_copied(rt: HostRuntime) -> Result<(), Fail> {
    let mut bytes = Vec::new(rt.alloc());
    for byte in 0..=255u8 {
        bytes.push(byte)?;
    }
    let got = status_of_run(rt.alloc(), ECHO, &bytes, &bytes)?;
    assert_eq!(rt; got, Some(0));
    Ok(())
}

// A text, its input, its output and its status.
const TALKS: [(&str, &[u8], &[u8], u8); 4] = [
    (ECHO, b"", b"", 0),
    (ECHO, b"ab\n\x00\xff", b"ab\n\x00\xff", 0),
    (
        "int g(int c) { putchar(c); return c; } int main(void) { return g('a') - g('b') + 1; }",
        b"",
        b"ab",
        0,
    ),
    (GCD, b"84 30\n", b"6\n", 0),
];

const ECHO: &str = "int main(void) { int c; while ((c = getchar()) != EOF) putchar(c); return 0; }";

// The greatest common divisor of two numbers of the input.
const GCD: &str =
    "int read(void) { int n = 0; int c; while ((c = getchar()) >= '0' && c <= '9') n = n * 10 + c - '0'; return n; }
void print(int n) { if (n >= 10) print(n / 10); putchar('0' + n % 10); }
int main(void) { int a = read(); int b = read(); while (b != 0) { int r = a % b; a = b; b = r; } print(a); putchar('\\n'); return 0; }";

#[test]
fn programs_talk(rt: HostRuntime) -> Result<(), Fail> {
    for (text, input, written, ended) in &TALKS {
        let got = status_of_run(rt.alloc(), text, input, written)?;
        assert_eq!(rt; got, Some(*ended), "{text}");
    }
    Ok(())
}

// A file that declares this, and has a main of so many locals of this form, which returns this.
fn locals(
    alloc: Global,
    declared: &str,
    count: u32,
    local: &str,
    returned: &str,
) -> Result<String, AllocError> {
    let mut text = String::from_str(alloc, declared)?;
    text.push_str("int main(void) {")?;
    for _ in 0..count {
        text.push_str(local)?;
    }
    text.push_str("return ")?;
    text.push_str(returned)?;
    text.push_str("; }")?;
    Ok(text)
}

const FULL: &str = "baggy: refused TooManyValues main count 251\n";

const GLOBALS_FULL: &str = "baggy: refused GlobalsFull total 2097168\n";

// A byte more than the global objects may have.
const GLOBALS: &str = "char a[1048576], b[1048576], c; ";

// What is declared at file scope, what main returns besides having 247 locals, and the note: a layer that comes
// first refuses first.
const LAYERS: [(&str, &str, &str); 7] = [
    ("", "0", FULL),
    ("", "*(int *)0", FULL),
    (GLOBALS, "0", GLOBALS_FULL),
    (GLOBALS, "y", "baggy: refused Unknown y at line 1\n"),
    ("", "y", "baggy: refused Unknown y at line 1\n"),
    ("", "y +", "baggy: refused Syntax token 1244 at line 1\n"),
    ("", "y + @", "baggy: refused BadByte at line 1\n"),
];

#[test]
fn layers_refuse_in_order(rt: HostRuntime) -> Result<(), Fail> {
    let text = locals(rt.alloc(), "", 246, "{ int x; }", "0")?;
    let got = status(rt.alloc(), &["run", "f.c"], text.as_bytes(), "")?;
    assert_eq!(rt; got, Some(0));
    for (declared, returned, noted) in &LAYERS {
        let text = locals(rt.alloc(), declared, 247, "{ int x; }", returned)?;
        let got = status(rt.alloc(), &["run", "f.c"], text.as_bytes(), noted)?;
        assert_eq!(rt; got, Some(124), "{declared} {returned}");
    }
    Ok(())
}

// What is declared at file scope, how many arrays of 1 MiB main has, what it returns, the status of `check` and the note: the
// global objects may have 2 MiB with their padding, a string among them, and the locals of a function that lie in memory 4 MiB.
const OBJECTS: [(&str, u32, &str, u8, &str); 6] = [
    ("char a[1048576], b[1048576]; ", 4, "0", 0, ""),
    (GLOBALS, 0, "0", 124, GLOBALS_FULL),
    (
        "char a[1048576], b[524289]; ",
        0,
        "\"x\" == 0",
        124,
        GLOBALS_FULL,
    ),
    (
        "",
        5,
        "0",
        124,
        "baggy: refused FrameFull main total 5242880\n",
    ),
    (GLOBALS, 5, "0", 124, GLOBALS_FULL),
    (
        "int f(void) { char a[1048576], b[1048576], c[1048576], d[1048576], e[1]; return 0; } ",
        5,
        "0",
        124,
        "baggy: refused FrameFull f total 4194320\n",
    ),
];

#[test]
fn objects_have_room(rt: HostRuntime) -> Result<(), Fail> {
    for (declared, count, returned, ended, noted) in &OBJECTS {
        let text = locals(
            rt.alloc(),
            declared,
            *count,
            "{ char x[1048576]; }",
            returned,
        )?;
        let got = status(rt.alloc(), &["check", "f.c"], text.as_bytes(), noted)?;
        assert_eq!(rt; got, Some(*ended), "{declared} {count} {returned}");
    }
    Ok(())
}

// A file whose sum is 1 in brackets, and further ones.
fn ones(alloc: Global, brackets: u32, further: u32) -> Result<String, AllocError> {
    let mut text = String::from_str(alloc, "int main(void){return ")?;
    for _ in 0..brackets {
        text.push_str("(")?;
    }
    text.push_str("1")?;
    for _ in 0..brackets {
        text.push_str(")")?;
    }
    for _ in 0..further {
        text.push_str("+1")?;
    }
    text.push_str(";}")?;
    Ok(text)
}

#[test]
fn two_hundred(rt: HostRuntime) -> Result<(), Fail> {
    for (brackets, further, ended, noted) in [
        (0, 199, 200, ""),
        (0, 200, 124, "baggy: refused TooDeep token 406 at line 1\n"),
        (199, 0, 1, ""),
        (200, 0, 124, "baggy: refused TooDeep token 206 at line 1\n"),
    ] {
        let text = ones(rt.alloc(), brackets, further)?;
        let got = status(rt.alloc(), &["run", "f.c"], text.as_bytes(), noted)?;
        assert_eq!(rt; got, Some(ended), "{brackets} {further}");
    }
    Ok(())
}

// The calls of the shelf that fail, the room for the notes and their calls that fail, the status and the note, for a source
// that is too long by one byte.
const FAULTS: [(&[u32], u32, &[u32], u8, &str); 7] = [
    (
        &[],
        200,
        &[],
        124,
        "baggy: refused TooLong length 1048577\n",
    ),
    (&[0], 200, &[], 126, "baggy: file fault\n"),
    (&[256], 200, &[], 126, "baggy: file fault\n"),
    (&[], 200, &[0], 126, ""),
    (&[], 200, &[1], 126, "baggy: refused TooLong length "),
    (&[], 200, &[2], 126, "baggy: refused TooLong length 1048577"),
    (&[], 5, &[], 126, "baggy"),
];

#[test]
fn faults_are_answered(rt: HostRuntime) -> Result<(), Fail> {
    let alloc = rt.alloc();
    let long = vec![in alloc; b' '; 1_048_577]?;
    for (failing, room, failing_puts, ended, noted) in &FAULTS {
        let mut shelf = MemShelf::new(alloc, failing)?;
        shelf.add("f.c", &long)?;
        let words = ["run", "f.c"];
        let got = status_on(alloc, &mut shelf, &words, *room, failing_puts, noted)?;
        assert_eq!(rt; got, Some(*ended), "{noted}");
    }
    Ok(())
}

// The program of three instructions that exits with 42.
const WORKED: [u8; 40] = [
    0x42, 0x41, 0x47, 0x59, 1, 0, 0, 0, 0, 0x10, 0, 0, 0, 0, 0, 0, 0, 0, 0, 0, 0, 0, 0, 0, 12, 0,
    0, 0, 0x13, 0x05, 0xA0, 0x02, 0x93, 0x08, 0x10, 0x00, 0x73, 0x00, 0x00, 0x00,
];

// So many bytes of the worked image, zeros behind it, with one byte changed.
fn changed(alloc: Global, len: usize, place: usize, value: u8) -> Result<Vec<u8>, AllocError> {
    let mut bytes = Vec::from_slice(alloc, &WORKED)?;
    bytes.push(0)?;
    bytes.truncate(len);
    if place < bytes.len() {
        bytes[place] = value;
    }
    Ok(bytes)
}

// The length, the place of a byte and its value; the status and the note.
const IMAGES: [(usize, usize, u8, u8, &str); 9] = [
    (40, 0, 0x42, 42, ""),
    (30, 0, 0x42, 124, "baggy: refused Short need 40 have 30\n"),
    (24, 0, 0x42, 124, "baggy: refused Short need 28 have 24\n"),
    (0, 0, 0, 124, "baggy: refused Short need 4 have 0\n"),
    (41, 0, 0x42, 124, "baggy: refused Extra at 40\n"),
    (40, 3, 0, 124, "baggy: refused BadMagic\n"),
    (40, 4, 2, 124, "baggy: refused BadVersion 2\n"),
    (40, 8, 1, 124, "baggy: refused BadField at 8\n"),
    (40, 36, 0, 122, "baggy: trap Illegal\n"),
];

#[test]
fn images_are_run(rt: HostRuntime) -> Result<(), Fail> {
    for (len, place, value, ended, noted) in &IMAGES {
        let bytes = changed(rt.alloc(), *len, *place, *value)?;
        let got = status(rt.alloc(), &["exec", "f.c"], &bytes, noted)?;
        assert_eq!(rt; got, Some(*ended), "{noted}");
    }
    Ok(())
}

// The words of calls one after the other on a shelf of one source, whose write of the first call and a read of the second
// fail; their statuses and notes.
const CHAIN: [(&[&str], u8, &str); 6] = [
    (
        &["compile", "f.c", "--out", "p"],
        126,
        "baggy: file fault\n",
    ),
    (
        &["compile", "f.c", "--out", "p"],
        126,
        "baggy: file fault\n",
    ),
    (&["exec", "p"], 126, "baggy: no file\n"),
    (&["compile", "f.c", "--out", "p"], 0, ""),
    (&["exec", "p"], 213, ""),
    (&["run", "f.c"], 213, ""),
];

#[test]
fn compiles_and_runs(rt: HostRuntime) -> Result<(), Fail> {
    let alloc = rt.alloc();
    let mut shelf = MemShelf::new(alloc, &[2, 4])?;
    shelf.add("f.c", b"int main(void) { return 1 - 300; }")?;
    for (words, ended, noted) in &CHAIN {
        let got = status_on(alloc, &mut shelf, words, 200, &[], noted)?;
        assert_eq!(rt; got, Some(*ended), "{noted} of {} words", words.len());
    }
    Ok(())
}
