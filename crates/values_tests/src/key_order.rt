//! Keys and versions.
use keys::name_key::NameKey;
use keys::offset::Offset;
use keys::version::Version;
use names::name::Name;
use names::packed_name::PackedName;
use std::cmp::Ordering;
use std::test::Fail;
use values::refusal::Refusal;

fn key(directory: u16, bytes: &[u8]) -> Result<NameKey, Refusal> {
    Ok(NameKey::new(directory, Name::try_from(bytes)?))
}

#[test]
fn name_keys(rt: HostRuntime) -> Result<(), Fail> {
    assert_eq!(rt;
        key(1, b"b")?.cmp(&key(2, b"a")?),
        Ordering::Less,
        "by directory first"
    );
    assert_eq!(rt; key(1, b"b")?.cmp(&key(1, b"a.srt")?), Ordering::Greater);
    assert_eq!(rt; key(1, b"a")?.cmp(&key(1, b"a.srt")?), Ordering::Less);
    assert_eq!(rt; key(1, b"a")?.cmp(&key(1, b"a")?), Ordering::Equal);
    let held = key(7, b"a.srt")?;
    assert_eq!(rt; held.name(), Name::try_from(b"a.srt".as_slice()));
    assert_eq!(rt; key(7, b"a/b").err(), Some(Refusal::InvalidName));
    let nameless = NameKey {
        directory: 7,
        name: PackedName { high: 0, low: 0 },
    };
    assert_eq!(rt; nameless.name(), Err(Refusal::InvalidName));
    Ok(())
}

#[test]
fn offsets(rt: HostRuntime) {
    let late = Offset { file: 1, block: 63 };
    let next = Offset { file: 2, block: 0 };
    assert_eq!(rt; late.cmp(&next), Ordering::Less);
    assert_eq!(rt; next.cmp(&late), Ordering::Greater);
    assert_eq!(rt; late.cmp(&Offset { file: 1, block: 62 }), Ordering::Greater);
    assert_eq!(rt; late.cmp(&late), Ordering::Equal);
}

#[test]
fn versions(rt: HostRuntime) {
    let ended = Version {
        key: 0u8,
        value: 0u8,
        first: 2,
        end: Some(3),
    };
    assert!(rt; !ended.is_seen_at(1));
    assert!(rt; ended.is_seen_at(2));
    assert!(rt; !ended.is_seen_at(3));
    let open = Version {
        key: 0u8,
        value: 0u8,
        first: 2,
        end: None,
    };
    assert!(rt; !open.is_seen_at(1));
    assert!(rt; open.is_seen_at(1_048_575));
}
