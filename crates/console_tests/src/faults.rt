//! Lines that are no commands.
use crate::dialogue::Dialogue;
use std::test::Fail;

const UNKNOWN: &str = "error: unknown command (try: help)\n";

const TOO_FEW: &str = "error: a word is missing\n";

const TOO_MANY: &str = "error: too many words\n";

const NO_NUMBER: &str = "error: not a number\n";

const TOO_LARGE: &str = "error: number above 4294967295\n";

const NO_SETTING: &str = "error: unknown setting (try: new keep=all)\n";

const NO_POLICY: &str = "error: keep is all, window:N or halving:N\n";

const NO_LEVEL: &str = "error: a level is solo N, studio N or archive\n";

const NO_TEXT: &str = "error: the line is not UTF-8 text\n";

const TOO_LONG: &str = "error: the line is longer than 4096 bytes\n";

#[test]
fn words(rt: HostRuntime) -> Result<(), Fail> {
    let mut dialogue = Dialogue::new(&rt);
    dialogue.expect(b"keep 1", UNKNOWN)?;
    dialogue.expect_since(b"Keeps 1", UNKNOWN, "commands are in lower case")?;
    dialogue.expect_since(b"keeps\t1", UNKNOWN, "a tab is no space")?;
    dialogue.expect_since(b" # keeps", UNKNOWN, "a comment begins the line")?;
    dialogue.expect(b"keeps", TOO_FEW)?;
    dialogue.expect(b"keeps 1 2 3", TOO_MANY)?;
    dialogue.expect(b"first-kept", TOO_FEW)?;
    dialogue.expect(b"why 1 2 3 4", TOO_MANY)?;
    dialogue.expect(b"kept 1 2", TOO_MANY)?;
    dialogue.expect(b"help me", TOO_MANY)?;
    dialogue.expect(b"keeps \xff", NO_TEXT)?;
    dialogue.expect(b"\xc0\x80", NO_TEXT)
}

#[test]
fn numbers(rt: HostRuntime) -> Result<(), Fail> {
    let mut dialogue = Dialogue::new(&rt);
    dialogue.expect(b"keeps x", NO_NUMBER)?;
    dialogue.expect(b"keeps +1", NO_NUMBER)?;
    dialogue.expect(b"keeps -1", NO_NUMBER)?;
    dialogue.expect(b"keeps 1x", NO_NUMBER)?;
    dialogue.expect(b"keeps 1 :", NO_NUMBER)?;
    dialogue.expect(b"keeps 4294967296", TOO_LARGE)?;
    dialogue.expect(b"keeps 99999999999999999999999", TOO_LARGE)?;
    dialogue.expect(b"keeps 1 99999999999x", NO_NUMBER)?;
    dialogue.expect(b"kept 4294967296", TOO_LARGE)?;
    dialogue.expect(b"keeps 0000000000000000000000000", "yes\n")
}

#[test]
fn settings(rt: HostRuntime) -> Result<(), Fail> {
    let mut dialogue = Dialogue::new(&rt);
    dialogue.expect(b"new keep", NO_POLICY)?;
    dialogue.expect(b"new keep=", NO_POLICY)?;
    dialogue.expect(b"new keep=some", NO_POLICY)?;
    dialogue.expect(b"new keep=all:1", NO_POLICY)?;
    dialogue.expect(b"new keep=window", NO_NUMBER)?;
    dialogue.expect(b"new keep=window:x", NO_NUMBER)?;
    dialogue.expect(b"new colour=red", NO_SETTING)?;
    dialogue.expect(b"new keep=all keep=all", TOO_MANY)?;
    dialogue.expect(b"level", NO_LEVEL)?;
    dialogue.expect(b"level gold", NO_LEVEL)?;
    dialogue.expect(b"level solo", TOO_FEW)?;
    dialogue.expect(b"level studio 1 2", TOO_MANY)?;
    dialogue.expect(b"level archive 1", TOO_MANY)
}

#[test]
fn long_lines(rt: HostRuntime) -> Result<(), Fail> {
    let mut dialogue = Dialogue::new(&rt);
    let longest = vec![in rt.alloc(); b' '; 4096]?;
    dialogue.expect(longest.as_slice(), "")?;
    let longer = vec![in rt.alloc(); b' '; 4097]?;
    dialogue.expect(longer.as_slice(), TOO_LONG)?;
    let comment = vec![in rt.alloc(); b'#'; 4097]?;
    dialogue.expect(comment.as_slice(), "")
}
