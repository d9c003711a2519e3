//! Lines that are answered.
use crate::dialogue::Dialogue;
use std::test::Fail;

#[test]
fn lines_that_are_passed_over(rt: HostRuntime) -> Result<(), Fail> {
    let mut dialogue = Dialogue::new(&rt);
    dialogue.expect(b"", "")?;
    dialogue.expect(b"   ", "")?;
    dialogue.expect(b"# a comment", "")?;
    dialogue.expect_since(b"#\xff", "", "a comment need not be text")
}

#[test]
fn levels_and_policies(rt: HostRuntime) -> Result<(), Fail> {
    let mut dialogue = Dialogue::new(&rt);
    dialogue.expect_since(b"keeps 0", "yes\n", "a new vault is at moment 0")?;
    dialogue.expect(b"keeps 1", "no\n")?;
    dialogue.expect(b"level solo 3", "ready\n")?;
    dialogue.expect(b"keeps 2 5", "yes\n")?;
    dialogue.expect(b"keeps 1 5", "no\n")?;
    dialogue.expect(b"level studio 2", "ready\n")?;
    dialogue.expect(b"first-kept 5 10", "moment 6\n")?;
    dialogue.expect(b"first-kept 11 10", "none\n")?;
    dialogue.expect(b"level archive", "ready\n")?;
    dialogue.expect(b"first-kept 5 10", "moment 5\n")?;
    dialogue.expect(b"new keep=halving:0", "ready\n")?;
    dialogue.expect(b"first-kept 1 1048575", "moment 1048575\n")?;
    dialogue.expect(b"new", "ready\n")?;
    dialogue.expect_since(b"  keeps   7  1048575 ", "yes\n", "any number of spaces")
}

#[test]
fn reasons(rt: HostRuntime) -> Result<(), Fail> {
    let mut dialogue = Dialogue::new(&rt);
    dialogue.expect(b"why 12 40", "12 is kept: every moment up to now is\n")?;
    dialogue.expect(b"why 50 40", "50 is not kept: it comes after now, 40\n")?;
    dialogue.expect(b"level solo 3", "ready\n")?;
    dialogue.expect(b"why 37 40", "37 is kept: 40 - 37 = 3 is at most 3\n")?;
    dialogue.expect(b"why 36 40", "36 is given up: 40 - 36 = 4 is above 3\n")?;
    dialogue.expect(b"level studio 2", "ready\n")?;
    dialogue.expect(
        b"why 12 40",
        "12 is given up: 40 - 12 = 28 is above 2 x 2^2 = 8\n",
    )?;
    dialogue.expect(b"why 0 40", "0 is kept: halving always keeps moment 0\n")
}

#[test]
fn a_picture(rt: HostRuntime) -> Result<(), Fail> {
    let mut dialogue = Dialogue::new(&rt);
    dialogue.expect(b"level solo 0", "ready\n")?;
    let picture = dialogue.said(b"kept 2")?;
    assert_eq!(rt;
        picture.as_str(),
        "keep=window:0 at now 2: 1 of 3 moments kept, 2 given up\n  0 ..# 2\n      aged               are kept         # kept  + some kept  . given up\n        0                   1 of       1  #\n        1                   0 of       1  .\n        2                   0 of       1  .\n"
    );
    Ok(())
}

// The length of the longest line, and how many lines there are.
fn shape(text: &str) -> (usize, usize) {
    let longest = text.lines().map(str::len).max();
    (longest.unwrap_or(0), text.lines().count())
}

#[test]
fn pictures_fit(rt: HostRuntime) -> Result<(), Fail> {
    let mut dialogue = Dialogue::new(&rt);
    let archive = dialogue.said(b"kept 1048575")?;
    let (longest, lines) = shape(archive.as_str());
    assert!(rt; longest <= 80);
    assert_eq!(rt; lines, 25);
    let help = dialogue.said(b"help")?;
    assert!(rt; shape(help.as_str()).0 <= 80);
    Ok(())
}
