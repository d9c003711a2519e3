//! Moments, block numbers and refusals.
use std::alloc::{AllocError, Global};
use std::process::Abort;
use std::test::Fail;
use values::block::BlockNumber;
use values::moment::Moment;
use values::object::ROOT;
use values::refusal::Refusal;

fn moment(number: u32) -> Result<u32, Refusal> {
    Moment::try_from(number).map(Moment::number)
}

fn moment_after(number: u32) -> Option<u32> {
    let moment = Moment::try_from(number).ok()?;
    moment.next().map(Moment::number)
}

fn block(number: u32) -> Result<u8, Refusal> {
    BlockNumber::try_from(number).map(BlockNumber::number)
}

#[test]
fn moments(rt: HostRuntime) {
    assert_eq!(rt; moment(0), Ok(0));
    assert_eq!(rt; moment(1_048_575), Ok(1_048_575));
    assert_eq!(rt; moment(1_048_576), Err(Refusal::BeyondLimit));
    assert_eq!(rt; moment(u32::MAX), Err(Refusal::BeyondLimit));
    assert_eq!(rt; Moment::ZERO.number(), 0);
    assert_eq!(rt; moment_after(0), Some(1));
    assert_eq!(rt; moment_after(1_048_574), Some(1_048_575));
    assert_eq!(rt; moment_after(1_048_575), None);
}

#[test]
fn blocks(rt: HostRuntime) {
    assert_eq!(rt; block(0), Ok(0));
    assert_eq!(rt; block(63), Ok(63));
    assert_eq!(rt; block(64), Err(Refusal::BlockNumberTooLarge));
    assert_eq!(rt;
        block(256),
        Err(Refusal::BlockNumberTooLarge),
        "no byte is cut off"
    );
}

// Whether a refusal shows its number, a space and some words.
fn shows(heap: Global, refusal: Refusal, number: u8) -> Result<bool, AllocError> {
    let text = refusal.to_string(heap)?;
    let front = format!(in heap; "{number} ")?;
    Ok(text.as_str().starts_with(front.as_str()) && text.len() > front.len())
}

// Each refusal has the number beside it, and shows it.
fn numbered(rt: &impl Abort, heap: Global, refusals: &[(Refusal, u8)]) -> Result<(), Fail> {
    for (refusal, number) in refusals {
        assert_eq!(rt; refusal.number(), *number);
        assert!(rt; shows(heap, *refusal, *number)?);
    }
    Ok(())
}

#[test]
fn refusals_of_calls(rt: HostRuntime) -> Result<(), Fail> {
    let refusals = [
        (Refusal::InvalidName, 1),
        (Refusal::BlockNumberTooLarge, 2),
        (Refusal::InvalidLength, 3),
        (Refusal::BufferTooShort, 4),
        (Refusal::MomentNotKept, 5),
        (Refusal::NoSuchDirectory, 6),
        (Refusal::NoSuchName, 7),
        (Refusal::NoSuchFile, 8),
        (Refusal::NoSuchBlock, 9),
        (Refusal::DirectoryNotEmpty, 10),
    ];
    numbered(&rt, rt.alloc(), &refusals)
}

#[test]
fn refusals_of_changes(rt: HostRuntime) -> Result<(), Fail> {
    let refusals = [
        (Refusal::NameInUse, 11),
        (Refusal::DirectoryWouldMove, 12),
        (Refusal::FileElsewhere, 13),
        (Refusal::ObjectsExhausted, 14),
        (Refusal::MomentsExhausted, 15),
        (Refusal::NamesFull, 16),
        (Refusal::BlocksFull, 17),
    ];
    numbered(&rt, rt.alloc(), &refusals)
}

#[test]
fn refusals_of_parts(rt: HostRuntime) -> Result<(), Fail> {
    let refusals = [
        (Refusal::EntryNotAboveLast, 18),
        (Refusal::StoreFull, 19),
        (Refusal::NoSuchEntry, 20),
        (Refusal::MomentTaken, 21),
        (Refusal::HistoryFull, 22),
        (Refusal::NoSuchVersion, 23),
        (Refusal::BeyondLimit, 24),
    ];
    numbered(&rt, rt.alloc(), &refusals)?;
    let limit = Refusal::BeyondLimit.to_string(rt.alloc())?;
    assert_eq!(rt; limit.as_str(), "24 number beyond its limit");
    Ok(())
}

#[test]
fn the_root(rt: HostRuntime) {
    assert_eq!(rt; ROOT, 0);
}
