//! Texts and their logical lines, in two tables; begin with `lines_of_texts`.

use blif_lines::{Line, logical_lines};
use std::alloc::{AllocError, Global};
use std::process::Abort;
use std::test::Fail;

/// Texts, and the lines that are read from each: one a row, as its number and its words.
const LINES: &[(&[u8], &[u8])] = &[
    // Physical lines.
    (b"", b""),
    (b"\n", b""),
    (b"a", b"1: a\n"),
    (b"a\n", b"1: a\n"),
    (b"\n\na", b"3: a\n"),
    (b"a\n\nb\n", b"1: a\n3: b\n"),
    // Blanks and words.
    (b" \ta\t \tb  c\t", b"1: a b c\n"),
    (b" \t\r\n \n", b""),
    (b"a\r\nb\r\n", b"1: a\n2: b\n"),
    (b"a\rb", b"1: a b\n"),
    (b"a\x0bb\x0c c", b"1: a\x0bb\x0c c\n"),
    (b"\x00\xff \xff\x00\n", b"1: \x00\xff \xff\x00\n"),
    // Comments.
    (b"# a", b""),
    (b"##", b""),
    (b"a # b", b"1: a\n"),
    (b"a#b\r\n", b"1: a\n"),
    (b"a ## b # c\nd", b"1: a\n2: d\n"),
    (b"#a\n b", b"2: b\n"),
];

/// The same of continued lines.
const CONTINUED: &[(&[u8], &[u8])] = &[
    // Continuation.
    (b"a \\\nb", b"1: a b\n"),
    (b"a\\\nb", b"1: a b\n"),
    (b"a \\\n b \\\n c\nd", b"1: a b c\n4: d\n"),
    (b"\\\na", b"1: a\n"),
    (b"\\\n\\\n\n\na", b"5: a\n"),
    (b"a\\b", b"1: a\\b\n"),
    (b"a\\ b", b"1: a\\ b\n"),
    (b"a\\\\\nb", b"1: a\\ b\n"),
    (b"\\\\", b"1: \\\n"),
    // Continuation at the end of the text.
    (b"\\", b""),
    (b"\\\n", b""),
    (b"a \\", b"1: a\n"),
    (b"a \\\n", b"1: a\n"),
    (b"a \\\n\\", b"1: a\n"),
    // Continuation and blanks.
    (b"a \\ \t\nb", b"1: a b\n"),
    (b"a \\\r\nb\r\n", b"1: a b\n"),
    (b" \t\\\nb", b"1: b\n"),
    (b"a \\\n\nb", b"1: a\n3: b\n"),
    (b"a \\\n \t\nb", b"1: a\n3: b\n"),
    // Continuation and comments.
    (b"a \\ # b\nc", b"1: a c\n"),
    (b"a\\#\nb", b"1: a b\n"),
    (b"a # b \\\nc", b"1: a\n2: c\n"),
    (b"#\\\na", b"2: a\n"),
    (b"a\\\n# b\n# c\nd", b"1: a\n4: d\n"),
    (b"a\\\n# b \\\nc", b"1: a\n3: c\n"),
    (b"a\\\n\\ # b\n \\\r\nc", b"1: a c\n"),
    (b"a\\\nb#\\\nc", b"1: a b\n3: c\n"),
    // A netlist.
    (
        b"# head\n\n.model m\n.inputs a \\\n\tb\n\n.end",
        b"3: .model m\n4: .inputs a b\n7: .end\n",
    ),
];

/// The lines as the table writes them.
fn shown(alloc: Global, lines: &[Line]) -> Result<Vec<u8>, AllocError> {
    let mut out = Vec::new(alloc);
    for line in lines {
        out.extend_from_slice(format!(in alloc; "{}:", line.number)?.as_bytes())?;
        for word in line.words.as_slice() {
            out.push(b' ')?;
            out.extend_from_slice(word.bytes())?;
        }
        out.push(b'\n')?;
    }
    Ok(out)
}

/// Compares the lines of texts.
fn compare(rt: &impl Abort, alloc: Global, table: &[(&[u8], &[u8])]) -> Result<(), AllocError> {
    for (text, want) in table {
        assert!(rt; text.len() < 100);
        let lines = logical_lines(alloc, *text)?;
        let out = shown(alloc, lines.as_slice())?;
        assert_eq!(rt; out.as_slice(), *want, "at {text:?}");
    }
    Ok(())
}

#[test]
fn lines_of_texts(rt: HostRuntime) -> Result<(), Fail> {
    compare(&rt, rt.alloc(), LINES)?;
    Ok(())
}

#[test]
fn continued_lines_of_texts(rt: HostRuntime) -> Result<(), Fail> {
    compare(&rt, rt.alloc(), CONTINUED)?;
    Ok(())
}
