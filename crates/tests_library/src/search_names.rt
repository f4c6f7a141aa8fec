use nd_search_list::*;
use std::test::*;

/// A.example and its padding, as a DNS Search List of 24 bytes has them behind its lifetime.
const A_EXAMPLE: [u8; 16] = *b"\x01A\x07example\0\0\0\0\0\0";

/// Labels that have so many bytes each, all of them the same letter, and a zero byte.
fn name_of_labels(rt: &HostRuntime, lengths: &[u8]) -> Result<Vec<u8>, Fail> {
    let mut bytes = Vec::new(rt.alloc());
    for length in lengths {
        bytes.push(*length)?;
        for _ in 0..*length {
            bytes.push(b'x')?;
        }
    }
    bytes.push(0)?;
    Ok(bytes)
}

#[test]
fn reads_capital_letters_as_small(rt: HostRuntime) -> Result<(), Fail> {
    let mut names = Names::read(&A_EXAMPLE).ok_or("names")?;
    assert!(rt; names.len() == 1);
    let name = names.next().ok_or("name")?;
    assert!(rt; names.next().is_none());
    assert!(rt; name.as_bytes() == &b"\x01A\x07example"[..]);
    assert!(rt; name.is(b"\x01a\x07example"));
    assert!(rt; !name.is(b"\x01A\x07example"));
    assert!(rt; !name.is(b"\x01a\x07exampl"));
    assert!(rt; !name.is(b"\x01a\x07example\0"));
    assert!(rt; name.lowered(rt.alloc())?.as_slice() == &b"\x01a\x07example"[..]);
    let mut text = String::new(rt.alloc());
    name.write_text(&mut text)?;
    assert!(rt; text.as_str() == "a.example");
    Ok(())
}

#[test]
fn reads_names_in_order(rt: HostRuntime) -> Result<(), Fail> {
    let bytes = b"\x03lab\x04Test\0\x0bx-1_y-22-33\0\x03lab\0";
    let names = Names::read(bytes).ok_or("names")?;
    assert!(rt; names.len() == 3);
    let mut text = String::new(rt.alloc());
    for name in names {
        name.write_text(&mut text)?;
        text.push(' ')?;
    }
    assert!(rt; text.as_str() == "lab.test x-1_y-22-33 lab ");
    Ok(())
}

#[test]
fn refuses_label_of_64_bytes(rt: HostRuntime) -> Result<(), Fail> {
    assert!(rt; Names::read(&name_of_labels(&rt, &[63])?).is_some());
    assert!(rt; Names::read(&name_of_labels(&rt, &[64])?).is_none());
    Ok(())
}

#[test]
fn refuses_name_of_256_bytes(rt: HostRuntime) -> Result<(), Fail> {
    let longest = name_of_labels(&rt, &[63, 63, 63, 61])?;
    assert!(rt; longest.len() == 255);
    assert!(rt; Names::read(&longest).is_some());
    assert!(rt; is_name(longest.get(..254).ok_or("labels")?));
    let longer = name_of_labels(&rt, &[63, 63, 63, 62])?;
    assert!(rt; longer.len() == 256);
    assert!(rt; Names::read(&longer).is_none());
    assert!(rt; !is_name(longer.get(..255).ok_or("labels")?));
    Ok(())
}

#[test]
fn refuses_name_that_runs_out(rt: HostRuntime) {
    assert!(rt; Names::read(b"\x01a\x07example").is_none());
    assert!(rt; Names::read(b"\x01a\x07exampl").is_none());
    assert!(rt; Names::read(b"\x01a\0\x07example").is_none());
    assert!(rt; Names::read(b"\x01a\0\x07").is_none());
}

#[test]
fn refuses_padding_with_another_byte(rt: HostRuntime) {
    assert!(rt; Names::read(b"\x01a\0\0\0\0\0\x01").is_none());
    assert!(rt; Names::read(b"\x01a\0\0a\0\0\0").is_none());
    // Behind a zero byte where a name would begin there are no more names.
    assert!(rt; Names::read(b"\x01a\0\0\x01b\0\0").is_none());
}

#[test]
fn takes_padding_of_any_length(rt: HostRuntime) -> Result<(), Fail> {
    assert!(rt; Names::read(b"\x01a\0").ok_or("names")?.len() == 1);
    assert_eq!(rt;
        Names::read(b"\x01a\0\0\0\0\0\0\0\0\0\0\0\0\0\0\0\0")
            .ok_or("names")?
            .len(),
        1
    );
    Ok(())
}

#[test]
fn refuses_no_name(rt: HostRuntime) {
    assert!(rt; Names::read(b"").is_none());
    assert!(rt; Names::read(b"\0\0\0\0\0\0\0\0").is_none());
}

#[test]
fn refuses_bytes_that_a_shell_would_read(rt: HostRuntime) {
    assert!(rt; Names::read(b"\x03a b\0").is_none());
    assert!(rt; Names::read(b"\x09$(reboot)\0").is_none());
    assert!(rt; Names::read(b"\x03a;b\0").is_none());
    assert!(rt; Names::read(b"\x03a`b\0").is_none());
    assert!(rt; Names::read(b"\x03a\nb\0").is_none());
    assert!(rt; Names::read(b"\x03a.b\0").is_none());
    assert!(rt; Names::read(b"\x03a\xc3b\0").is_none());
}

#[test]
fn tells_names_in_small_letters(rt: HostRuntime) {
    assert!(rt; is_name(b"\x01a\x07example"));
    assert!(rt; !is_name(b"\x01A\x07example"));
    assert!(rt; !is_name(b"\x01a\x07example\0"));
    assert!(rt; !is_name(b"\x01a\x07exampl"));
    assert!(rt; !is_name(b"\0"));
    assert!(rt; !is_name(b""));
}
