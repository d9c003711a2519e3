//! Calls that are turned down, and that they alter nothing.
use crate::dialogue::Dialogue;
use std::test::Fail;

const BEYOND: &str = "refused 24 number beyond its limit\n";

#[test]
fn moments_and_settings(rt: HostRuntime) -> Result<(), Fail> {
    let mut dialogue = Dialogue::new(&rt);
    dialogue.expect(b"keeps 1048576", BEYOND)?;
    dialogue.expect(b"keeps 0 1048576", BEYOND)?;
    dialogue.expect(b"first-kept 4294967295", BEYOND)?;
    dialogue.expect(b"why 0 1048576", BEYOND)?;
    dialogue.expect(b"kept 1048576", BEYOND)?;
    dialogue.expect(b"new keep=window:1048576", BEYOND)?;
    dialogue.expect(b"new keep=halving:1025", BEYOND)?;
    dialogue.expect(b"level solo 1048576", BEYOND)?;
    dialogue.expect(b"level solo 1048575", "ready\n")?;
    dialogue.expect(b"level studio 1024", "ready\n")
}

#[test]
fn the_vault_before_stays(rt: HostRuntime) -> Result<(), Fail> {
    let mut dialogue = Dialogue::new(&rt);
    dialogue.expect(b"level solo 3", "ready\n")?;
    dialogue.expect(b"level studio 1025", BEYOND)?;
    dialogue.expect(b"keeps 1 5", "no\n")?;
    dialogue.expect(
        b"new keep=none",
        "error: keep is all, window:N or halving:N\n",
    )?;
    dialogue.expect(b"keeps 2 5", "yes\n")
}
