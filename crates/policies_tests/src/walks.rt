//! The fast search for the first kept moment, compared with a walk over the moments.
use crate::examples::{first, halving, window};
use policies::policy::Policy;
use policies::retention::Retention;
use std::test::Fail;
use values::moment::Moment;
use values::refusal::Refusal;

// The first kept moment from `from` to `present`, found by a walk.
fn walked(policy: Retention, from: u32, present: u32) -> Result<Option<u32>, Refusal> {
    let present = Moment::try_from(present)?;
    let first = (from..=present.number())
        .filter_map(|t| Moment::try_from(t).ok())
        .find(|t| policy.keeps(*t, present));
    Ok(first.map(Moment::number))
}

// Whether both searches agree on a moment, and neither number is beyond the limit.
fn agree_from(policy: Retention, from: u32, present: u32) -> bool {
    let found = first(policy, from, present);
    found.is_ok() && found == walked(policy, from, present)
}

// Whether both searches agree from every moment up to one above `present`.
fn agree(policy: Retention, present: u32) -> bool {
    (0..=present.saturating_add(1)).all(|from| agree_from(policy, from, present))
}

#[test]
fn halving_as_walked(rt: HostRuntime) -> Result<(), Fail> {
    for reach in 0..6u32 {
        for present in 0..70u32 {
            assert!(rt; agree(halving(reach)?, present));
        }
    }
    assert!(rt; agree(halving(16)?, 1000));
    assert!(rt; agree(halving(1024)?, 1500));
    Ok(())
}

#[test]
fn windows_as_walked(rt: HostRuntime) -> Result<(), Fail> {
    for length in 0..6u32 {
        for present in 0..12u32 {
            assert!(rt; agree(window(length)?, present));
        }
    }
    assert!(rt; agree(Retention::All, 12));
    Ok(())
}
