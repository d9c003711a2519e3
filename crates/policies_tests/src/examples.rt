//! What small policies keep, moment by moment.
use policies::halving::Halving;
use policies::policy::Policy;
use policies::retention::Retention;
use policies::window::Window;
use std::alloc::{AllocError, Global};
use std::test::Fail;
use values::moment::Moment;
use values::refusal::Refusal;

/// The policy that keeps a window.
pub fn window(length: u32) -> Result<Retention, Refusal> {
    Window::new(length).map(Retention::Window)
}

/// The policy that halves.
pub fn halving(reach: u32) -> Result<Retention, Refusal> {
    Halving::new(reach).map(Retention::Halving)
}

/// The number of the first kept moment from `from` on, by the policy's own search.
pub fn first(policy: Retention, from: u32, present: u32) -> Result<Option<u32>, Refusal> {
    let from = Moment::try_from(from)?;
    let first = policy.first_kept(from, Moment::try_from(present)?);
    Ok(first.map(Moment::number))
}

// The kept moments up to `present`, and one above it.
fn kept(heap: Global, policy: Retention, present: Moment) -> Result<Vec<u32>, AllocError> {
    (0..=present.number() + 1)
        .filter_map(|t| Moment::try_from(t).ok())
        .filter(|t| policy.keeps(*t, present))
        .map(Moment::number)
        .collect(heap)
}

// Whether exactly these moments are kept.
fn keeps(heap: Global, policy: Retention, present: u32, moments: &[u32]) -> Result<bool, Fail> {
    let present = Moment::try_from(present)?;
    Ok(kept(heap, policy, present)?.as_slice() == moments)
}

#[test]
fn all_keeps_everything(rt: HostRuntime) -> Result<(), Fail> {
    assert!(rt; keeps(rt.alloc(), Retention::All, 3, &[0, 1, 2, 3])?);
    assert!(rt; keeps(rt.alloc(), Retention::All, 0, &[0])?);
    Ok(())
}

#[test]
fn a_window_keeps_the_newest(rt: HostRuntime) -> Result<(), Fail> {
    assert!(rt; keeps(rt.alloc(), window(3)?, 5, &[2, 3, 4, 5])?);
    assert!(rt; keeps(rt.alloc(), window(0)?, 5, &[5])?);
    assert!(rt; keeps(rt.alloc(), window(9)?, 3, &[0, 1, 2, 3])?);
    Ok(())
}

#[test]
fn halving_thins_with_age(rt: HostRuntime) -> Result<(), Fail> {
    assert!(rt; keeps(rt.alloc(), halving(2)?, 10, &[0, 4, 6, 8, 9, 10])?);
    assert!(rt; keeps(rt.alloc(), halving(0)?, 10, &[0, 10])?);
    assert!(rt; keeps(rt.alloc(), halving(1)?, 17, &[0, 16, 17])?);
    assert!(rt; keeps(rt.alloc(), halving(1)?, 12, &[0, 8, 10, 11, 12])?);
    Ok(())
}
