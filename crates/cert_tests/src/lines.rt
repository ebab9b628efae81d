//! Tests of single lines.

use arrayvec::ArrayVec;
use box_cert::{put_line, put_recipe, read_line, read_recipe};
use std::test::Fail;

// Reads a text as a line of a tree, if it is one. The result is whether the line, written again, is
// the same text.
fn is_line(text: &[u8]) -> Option<bool> {
    let line = read_line(text)?;
    let mut again = ArrayVec::new();
    put_line(&line, &mut again);
    Some(again.as_slice() == text)
}

// The same, for a recipe of two dyes.
fn is_recipe(text: &[u8]) -> Option<bool> {
    let steps = read_recipe(text, 2)?;
    let mut again = ArrayVec::new();
    put_recipe(&steps, &mut again);
    Some(again.as_slice() == text)
}

#[test]
fn reads_lines(rt: HostRuntime) -> Result<(), Fail> {
    for text in [
        "d",
        "u",
        "p",
        "x 1",
        "x 5",
        "f 1",
        "f 4",
        "s 1 0",
        "s 12 4000",
    ] {
        assert_eq!(rt; is_line(text.as_bytes()), Some(true), "{text}");
    }
    for text in [
        "",
        " ",
        "D",
        "d ",
        " d",
        "d\r",
        "dd",
        "q",
        "x",
        "x ",
        "x 0",
        "x 6",
        "x 05",
        "x  5",
        "x 4294967297",
        "f 0",
        "f 5",
        "f +1",
        "s 1",
        "s 1 ",
        "s 0 0",
        "s 13 0",
        "s 01 0",
        "s 1 00",
        "s 1 0 ",
        "s 1  0",
        "s 1 0 0",
        "s 1 4001",
        "s 1 -1",
        "s 1 18446744073709551616",
    ] {
        assert_eq!(rt; is_line(text.as_bytes()), None, "{text}");
    }
    assert_eq!(rt; is_line(b"d\xff".as_slice()), None);
    Ok(())
}

#[test]
fn reads_recipes(rt: HostRuntime) -> Result<(), Fail> {
    for text in ["0 0", "0 4000", "10 7"] {
        assert_eq!(rt; is_recipe(text.as_bytes()), Some(true), "{text}");
    }
    for text in [
        "",
        "0",
        "0 ",
        " 0",
        "0 0 0",
        "0  0",
        "0 0 ",
        " 0 0",
        "00 0",
        "0 01",
        "0 4001",
        "4001 0",
        "0\t0",
        "0,0",
        "0 18446744073709551616",
        "0 65536",
    ] {
        assert_eq!(rt; is_recipe(text.as_bytes()), None, "{text}");
    }
    Ok(())
}
