use nd_text::{are_digits, decode_hex, decode_hex_to_slice};
use std::test::*;

/// Twenty bytes in digits of either case.
const DIGITS: &[u8; 40] = b"00010203040506070809AaBbCcDdEeFf99a09F1e";

/// Those bytes.
const SPELLED: [u8; 20] = [
    0, 1, 2, 3, 4, 5, 6, 7, 8, 9, 0xaa, 0xbb, 0xcc, 0xdd, 0xee, 0xff, 0x99, 0xa0, 0x9f, 0x1e,
];

#[test]
fn digits_in_either_case_are_read(rt: HostRuntime) -> Result<(), Fail> {
    let mut bytes = [0; 20];
    assert!(rt; decode_hex_to_slice(DIGITS, &mut bytes) == Ok(()));
    assert!(rt; bytes == SPELLED);
    let read = decode_hex(rt.alloc(), DIGITS)?;
    assert!(rt; read.as_slice() == SPELLED.as_slice());
    let few = decode_hex(rt.alloc(), b"9F1e")?;
    assert!(rt; few.as_slice() == [0x9f, 0x1e].as_slice());
    Ok(())
}

#[test]
fn each_character_is_looked_at(rt: HostRuntime) -> Result<(), Fail> {
    assert!(rt; are_digits(DIGITS));
    for place in 0..40usize {
        let mut other = *DIGITS;
        other[place] = b'g';
        assert!(rt; !are_digits(&other));
        assert!(rt; decode_hex(rt.alloc(), &other).is_err());
    }
    Ok(())
}
