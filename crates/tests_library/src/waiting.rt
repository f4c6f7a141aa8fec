use nd_addr::Mac;
use nd_packet::*;
use std::alloc::Global;
use std::test::*;

/// The least packet, an Ethernet header all of whose bytes are this one.
fn packet(alloc: Global, byte: u8) -> Result<Packet<Global>, Fail> {
    let mut frame = Vec::with_capacity(alloc, 14)?;
    frame.extend_from_slice(&[byte; 14])?;
    Ok(Packet::new(frame).ok_or("too short")?)
}

fn byte_of(packet: Option<Packet<Global>>) -> Option<u8> {
    packet.and_then(|packet| packet.as_bytes().first().copied())
}

#[test]
fn a_fourth_packet_takes_the_place_of_the_oldest(rt: HostRuntime) -> Result<(), Fail> {
    let mut waiting = Ring::new(rt.alloc(), 3)?.with(packet(rt.alloc(), 1)?);
    assert!(rt; byte_of(waiting.put(packet(rt.alloc(), 2)?)) == None);
    assert!(rt; byte_of(waiting.put(packet(rt.alloc(), 3)?)) == None);
    assert!(rt; byte_of(waiting.put(packet(rt.alloc(), 4)?)) == Some(1));
    assert!(rt; waiting.len() == 3);
    let mut packets = Packets::of(waiting);
    assert!(rt; packets.len() == 3);
    assert!(rt; byte_of(packets.take()) == Some(2));
    assert!(rt; byte_of(packets.take()) == Some(3));
    assert!(rt; byte_of(packets.take()) == Some(4));
    assert!(rt; packets.is_empty());
    assert!(rt; byte_of(packets.take()) == None);
    Ok(())
}

#[test]
fn one_packet_more_than_the_room_takes_the_place_of_the_oldest(
    rt: HostRuntime,
) -> Result<(), Fail> {
    for room in 1..9usize {
        let mut waiting = Ring::new(rt.alloc(), room)?.with(packet(rt.alloc(), 1)?);
        for number in 2..=room {
            assert!(rt; byte_of(waiting.put(packet(rt.alloc(), number as u8)?)) == None);
        }
        assert!(rt; byte_of(waiting.put(packet(rt.alloc(), 9)?)) == Some(1));
        assert!(rt; waiting.len() == room);
    }
    Ok(())
}

#[test]
fn room_is_asked_for_once(rt: HostRuntime) -> Result<(), Fail> {
    let mut waiting: Waiting<Global> = Waiting::new(rt.alloc(), 3)?;
    assert!(rt; waiting.len() == 0);
    assert!(rt; byte_of(waiting.take()) == None);
    let none: Packets<Global> = Packets::none();
    assert!(rt; none.is_empty());
    Ok(())
}

#[test]
fn a_packet_has_an_ethernet_header_and_can_be_addressed(rt: HostRuntime) -> Result<(), Fail> {
    let short = Vec::with_capacity(rt.alloc(), 13)?;
    assert!(rt; Packet::new(short).is_none());
    let packet = packet(rt.alloc(), 7)?;
    assert!(rt; packet.as_bytes() == [7; 14].as_slice());
    let addressed = packet.addressed(Mac([2, 0, 0, 0, 0, 1]));
    assert!(rt; addressed.as_bytes() == [2, 0, 0, 0, 0, 1, 7, 7, 7, 7, 7, 7, 7, 7].as_slice());
    assert!(rt; addressed.into_frame().len() == 14);
    Ok(())
}
