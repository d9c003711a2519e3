//! Names: which bytes make one, how it is packed and unpacked, and the order of names.
use names::name::Name;
use names::packed_name::PackedName;
use std::cmp::Ordering;
use values::refusal::Refusal;

// Why bytes are no name, or none where they are one.
fn refusal(bytes: &[u8]) -> Option<Refusal> {
    Name::try_from(bytes).err()
}

fn packed_refusal(high: u64, low: u64) -> Option<Refusal> {
    Name::try_from(PackedName { high, low }).err()
}

fn packed(bytes: &[u8]) -> Result<(u64, u64), Refusal> {
    let packed = PackedName::from(Name::try_from(bytes)?);
    Ok((packed.high, packed.low))
}

fn compared(first: &[u8], second: &[u8]) -> Result<Ordering, Refusal> {
    Ok(Name::try_from(first)?.cmp(&Name::try_from(second)?))
}

// The length of a name that is unpacked into a buffer.
fn unpacked(bytes: &[u8], buffer: &mut [u8]) -> Result<usize, Refusal> {
    Name::try_from(bytes)?.unpack(buffer)
}

#[test]
fn lengths(rt: HostRuntime) {
    assert_eq!(rt; refusal(b""), Some(Refusal::InvalidName));
    assert_eq!(rt; refusal(b"a"), None);
    assert_eq!(rt; refusal(b"sixteen-byte-one"), None);
    assert_eq!(rt; refusal(b"seventeen-letters"), Some(Refusal::InvalidName));
}

#[test]
fn bytes(rt: HostRuntime) {
    assert_eq!(rt; refusal(b" "), Some(Refusal::InvalidName), "0x20, a space");
    assert_eq!(rt; refusal(b"!"), None, "0x21");
    assert_eq!(rt; refusal(b"."), None, "0x2E");
    assert_eq!(rt; refusal(b"/"), Some(Refusal::InvalidName), "0x2F, a slash");
    assert_eq!(rt; refusal(b"0"), None, "0x30");
    assert_eq!(rt; refusal(b"~"), None, "0x7E");
    assert_eq!(rt; refusal(b"\x7f"), Some(Refusal::InvalidName), "0x7F");
    assert_eq!(rt; refusal(b"\x00"), Some(Refusal::InvalidName), "0");
    assert_eq!(rt; refusal(b"\xff"), Some(Refusal::InvalidName), "0xFF");
    assert_eq!(rt; refusal(b"a/b"), Some(Refusal::InvalidName));
    assert_eq!(rt;
        refusal(b"last-byte-is-nul\x00"),
        Some(Refusal::InvalidName)
    );
    assert_eq!(rt; refusal(b"sixteenth-is-sp "), Some(Refusal::InvalidName));
}

#[test]
fn packing(rt: HostRuntime) {
    assert_eq!(rt; packed(b"a.srt"), Ok((0x612E_7372_7400_0000, 0)));
    assert_eq!(rt; packed(b"12345678"), Ok((0x3132_3334_3536_3738, 0)));
    assert_eq!(rt;
        packed(b"123456789"),
        Ok((0x3132_3334_3536_3738, 0x3900_0000_0000_0000))
    );
    assert_eq!(rt;
        packed(b"~~~~~~~~~~~~~~~~"),
        Ok((0x7E7E_7E7E_7E7E_7E7E, 0x7E7E_7E7E_7E7E_7E7E))
    );
}

#[test]
fn packed_pairs(rt: HostRuntime) {
    let none = Some(Refusal::InvalidName);
    assert_eq!(rt; packed_refusal(0x612E_7372_7400_0000, 0), None);
    assert_eq!(rt; packed_refusal(0, 0), none, "no bytes");
    assert_eq!(rt;
        packed_refusal(0x6100_6100_0000_0000, 0),
        none,
        "a byte behind a zero"
    );
    assert_eq!(rt;
        packed_refusal(0x6100_0000_0000_0000, 0x6100_0000_0000_0000),
        none,
        "a gap"
    );
    assert_eq!(rt; packed_refusal(0x612F_6200_0000_0000, 0), none, "a slash");
    assert_eq!(rt; packed_refusal(u64::MAX, u64::MAX), none);
}

#[test]
fn unpacking(rt: HostRuntime) {
    let mut short = [7u8; 15];
    assert_eq!(rt;
        unpacked(b"a.srt", &mut short),
        Err(Refusal::BufferTooShort)
    );
    assert_eq!(rt; short, [7u8; 15], "a refusal writes nothing");
    let mut buffer = [7u8; 17];
    assert_eq!(rt; unpacked(b"a.srt", &mut buffer), Ok(5));
    assert_eq!(rt;
        &buffer,
        b"a.srt\x07\x07\x07\x07\x07\x07\x07\x07\x07\x07\x07\x07"
    );
    let mut exact = [7u8; 16];
    assert_eq!(rt; unpacked(b"sixteen-byte-one", &mut exact), Ok(16));
    assert_eq!(rt; &exact, b"sixteen-byte-one");
}

#[test]
fn order(rt: HostRuntime) {
    assert_eq!(rt; compared(b"a", b"a.srt"), Ok(Ordering::Less));
    assert_eq!(rt; compared(b"a.srt", b"b"), Ok(Ordering::Less));
    assert_eq!(rt; compared(b"b", b"a.srt"), Ok(Ordering::Greater));
    assert_eq!(rt; compared(b"reel", b"reel"), Ok(Ordering::Equal));
    assert_eq!(rt; compared(b"12345678", b"123456789"), Ok(Ordering::Less));
    assert_eq!(rt; compared(b"123456781", b"123456779"), Ok(Ordering::Greater));
}
