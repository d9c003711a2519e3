//! Settings and moments at their limits.
use crate::examples::{first, halving, window};
use policies::halving::Halving;
use policies::policy::Policy;
use policies::retention::Retention;
use policies::window::Window;
use std::test::Fail;
use values::moment::{LAST, Moment};
use values::refusal::Refusal;

#[test]
fn settings(rt: HostRuntime) {
    assert_eq!(rt; LAST, 1_048_575);
    assert_eq!(rt; Window::new(0).err(), None);
    assert_eq!(rt; Window::new(LAST).err(), None);
    assert_eq!(rt; Window::new(LAST + 1).err(), Some(Refusal::BeyondLimit));
    assert_eq!(rt; Halving::new(0).err(), None);
    assert_eq!(rt; Halving::new(1024).err(), None);
    assert_eq!(rt; Halving::new(1025).err(), Some(Refusal::BeyondLimit));
}

#[test]
fn the_last_moment(rt: HostRuntime) -> Result<(), Fail> {
    assert_eq!(rt; first(Retention::All, LAST, LAST)?, Some(LAST));
    assert_eq!(rt; first(window(0)?, 0, LAST)?, Some(LAST));
    assert_eq!(rt; first(window(LAST)?, 0, LAST)?, Some(0));
    assert_eq!(rt; first(halving(0)?, 0, LAST)?, Some(0));
    assert_eq!(rt; first(halving(0)?, 1, LAST)?, Some(LAST));
    assert_eq!(rt; first(halving(1)?, 1, LAST)?, Some(524_288));
    assert_eq!(rt; first(halving(1)?, 524_289, LAST)?, Some(786_432));
    assert_eq!(rt; first(halving(1024)?, 1, LAST)?, Some(1024));
    Ok(())
}

#[test]
fn above_the_present(rt: HostRuntime) -> Result<(), Fail> {
    assert_eq!(rt; first(Retention::All, 1, 0)?, None);
    assert_eq!(rt; first(window(3)?, 6, 5)?, None);
    assert_eq!(rt; first(halving(2)?, 11, 10)?, None);
    let last = Moment::try_from(LAST)?;
    assert!(rt; !halving(1024)?.keeps(last, Moment::ZERO));
    Ok(())
}
