use nd_text::*;
use std::test::*;

fn text_of(rt: &HostRuntime, groups: [u16; 8]) -> Result<String, Fail> {
    let mut text = String::new(rt.alloc());
    write_groups(&mut text, &groups)?;
    Ok(text)
}

#[test]
fn the_longest_run_of_zeros_is_shortened(rt: HostRuntime) -> Result<(), Fail> {
    for (groups, text) in [
        ([0; 8], "::"),
        // RFC 5952, sections 4.2.2 and 4.2.3.
        ([0x2001, 0xdb8, 0, 1, 1, 1, 1, 1], "2001:db8:0:1:1:1:1:1"),
        ([0x2001, 0, 0, 1, 0, 0, 0, 1], "2001:0:0:1::1"),
        ([0x2001, 0xdb8, 0, 0, 1, 0, 0, 1], "2001:db8::1:0:0:1"),
    ] {
        assert_eq!(rt; text_of(&rt, groups)?.as_str(), text);
    }
    Ok(())
}

#[test]
fn texts_of_rfc_4291_are_read(rt: HostRuntime) -> Result<(), Fail> {
    // RFC 4291, section 2.2.
    let multicast = Some([0xff01, 0, 0, 0, 0, 0, 0, 0x101]);
    assert!(rt; parse_groups(b"FF01:0:0:0:0:0:0:101") == multicast);
    assert!(rt; parse_groups(b"FF01::101") == multicast);
    assert!(rt; parse_groups(b"FF01::101::") == None);
    Ok(())
}

#[test]
fn bytes_have_two_digits_each(rt: HostRuntime) -> Result<(), Fail> {
    let mut text = String::new(rt.alloc());
    write_hex(&mut text, &[0, 0x0f, 0xf0, 0xbc])?;
    assert!(rt; text.as_str() == "000ff0bc");
    push_byte(&mut text, 0x5e)?;
    assert!(rt; text.as_str() == "000ff0bc5e");
    Ok(())
}
