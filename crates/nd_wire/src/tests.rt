use crate::{FailingWire, MemoryWire, UdpWire, Wire, WireFault};
use std::alloc::Global;
use std::net::{Ipv4Addr, SocketAddrV4, UdpSocket};
use std::process::Abort;
use std::test::Fail;
use std::time::{Duration, Instant};

/// Carries a frame, and returns what arrived, or the fault.
fn carried<W: Wire>(
    rt: &HostRuntime,
    wire: &mut W,
    to: usize,
    frame: &[u8],
) -> Result<Result<Vec<u8>, WireFault>, Fail> {
    let mut into = Vec::with_capacity(rt.alloc(), frame.len())?;
    match wire.carry(to, frame, &mut into) {
        Ok(()) => Ok(Ok(into)),
        Err(fault) => Ok(Err(fault)),
    }
}

#[test]
fn memory_gives_the_frame_itself(rt: HostRuntime) -> Result<(), Fail> {
    let mut wire = MemoryWire;
    for length in [0, 14, 1514] {
        let mut frame = Vec::new(rt.alloc());
        frame.resize(length, 7)?;
        assert!(rt; carried(&rt, &mut wire, 3, &frame)? == Ok(frame));
    }
    assert!(rt; wire.failures() == 0);
    Ok(())
}

#[test]
fn a_failing_wire_fails_at_one_call(rt: HostRuntime) -> Result<(), Fail> {
    let frame = [1u8, 2, 3];
    for at in 0..5u64 {
        let mut wire = FailingWire::new(MemoryWire, at);
        for call in 0..6u64 {
            assert_eq!(rt; wire.failures(), u64::from(call > at));
            match carried(&rt, &mut wire, 0, &frame)? {
                Ok(bytes) => {
                    assert!(rt; call != at);
                    assert_eq!(rt; bytes.as_slice(), frame.as_slice());
                }
                Err(fault) => {
                    assert!(rt; call == at);
                    assert_eq!(rt; fault, WireFault);
                }
            }
        }
    }
    Ok(())
}

#[test]
fn faults_of_two_failing_wires_add_up(rt: HostRuntime) -> Result<(), Fail> {
    let mut wire = FailingWire::new(FailingWire::new(MemoryWire, 1), 1);
    for faults in [0, 0, 1, 2] {
        assert_eq!(rt; wire.failures(), faults);
        let arrived = carried(&rt, &mut wire, 0, &[9])?;
        assert_eq!(rt; arrived.is_err(), faults < wire.failures());
    }
    assert!(rt; wire.failures() == 2);
    Ok(())
}

/// Returns a frame of `length` bytes that begins with `first`.
fn frame_of(rt: &HostRuntime, length: usize, first: u8) -> Result<Vec<u8>, Fail> {
    let mut frame = Vec::new(rt.alloc());
    let mut byte = first;
    for _ in 0..length {
        frame.push(byte)?;
        byte = byte.wrapping_mul(5).wrapping_add(3);
    }
    Ok(frame)
}

#[test]
fn datagrams_carry_frames_to_each_node(rt: HostRuntime) -> Result<(), Fail> {
    let mut wire = UdpWire::new(&rt, rt.alloc(), 16)?;
    for length in [0, 14, 1514, 8000] {
        for to in [0, 15, 7, 0] {
            let frame = frame_of(&rt, length, 1)?;
            assert!(rt; carried(&rt, &mut wire, to, &frame)? == Ok(frame));
        }
    }
    assert!(rt; wire.failures() == 0);
    Ok(())
}

#[test]
fn a_node_without_a_socket_and_a_frame_too_long_are_faults(rt: HostRuntime) -> Result<(), Fail> {
    let mut wire = UdpWire::new(&rt, rt.alloc(), 2)?;
    assert!(rt; carried(&rt, &mut wire, 2, &[1])? == Err(WireFault));
    assert!(rt; wire.failures() == 1);
    let longest = frame_of(&rt, 65507, 9)?;
    let too_long = frame_of(&rt, 65508, 9)?;
    assert!(rt; carried(&rt, &mut wire, 1, &too_long)? == Err(WireFault));
    assert!(rt; wire.failures() == 2);
    assert!(rt; carried(&rt, &mut wire, 1, &longest)? == Ok(longest));
    assert!(rt; wire.failures() == 2);
    Ok(())
}

#[test]
fn datagrams_of_strangers_are_not_taken(rt: HostRuntime) -> Result<(), Fail> {
    let mut wire = UdpWire::new(&rt, rt.alloc(), 1)?;
    let stranger = UdpSocket::bind(&rt, SocketAddrV4::new(Ipv4Addr::LOCALHOST, 0))?;
    let frame = [1u8, 2, 3];
    for _ in 0..3 {
        match wire.receivers.first() {
            Some(receiver) => assert_eq!(rt; stranger.send_to(&[4, 5, 6], receiver.at)?, 3),
            None => panic!(rt; "no receiver"),
        }
        match carried(&rt, &mut wire, 0, &frame)? {
            Ok(bytes) => assert_eq!(rt; bytes.as_slice(), frame.as_slice()),
            Err(_) => panic!(rt; "a fault"),
        }
    }
    assert!(rt; wire.failures() == 0);
    Ok(())
}

/// Sends a datagram from the wire's own socket to that of a node.
fn send(rt: &impl Abort, wire: &UdpWire<Global>, to: usize, bytes: &[u8]) -> Result<(), Fail> {
    let receiver = wire.receivers.get(to).ok_or("receiver")?;
    assert!(rt; wire.sender.send_to(bytes, receiver.at)? == bytes.len());
    Ok(())
}

/// A datagram that arrives before the first frame is thrown away, for any sender.
#[test]
fn what_came_before_the_first_frame_is_thrown_away(rt: HostRuntime) -> Result<(), Fail> {
    for stale in [[4u8].as_slice(), &[4, 5, 6], &[4, 5, 6, 7]] {
        let mut wire = UdpWire::new(&rt, rt.alloc(), 1)?;
        send(&rt, &wire, 0, stale)?;
        let frame = frame_of(&rt, 3, 1)?;
        assert!(rt; carried(&rt, &mut wire, 0, &frame)? == Ok(frame));
        assert!(rt; wire.failures() == 0);
    }
    Ok(())
}

/// A datagram of another length than the frame's, a shorter one or a longer one, is a fault. The frame of that call stays behind, and is thrown away
/// before the next one.
#[test]
fn a_datagram_of_another_length_is_a_fault(rt: HostRuntime) -> Result<(), Fail> {
    for stale in [[].as_slice(), &[4], &[4, 5], &[4, 5, 6, 7]] {
        let mut wire = UdpWire::new(&rt, rt.alloc(), 1)?;
        let frame = frame_of(&rt, 3, 1)?;
        assert!(rt; carried(&rt, &mut wire, 0, &frame)?.is_ok());
        send(&rt, &wire, 0, stale)?;
        assert!(rt; carried(&rt, &mut wire, 0, &frame)? == Err(WireFault));
        assert!(rt; wire.failures() == 1);
        let other = frame_of(&rt, 3, 7)?;
        assert!(rt; carried(&rt, &mut wire, 0, &other)? == Ok(other));
        assert!(rt; wire.failures() == 1);
    }
    Ok(())
}

/// What arrives is what comes first out of the node's own socket, and not the frame itself: of two datagrams of one length the first, and at another
/// node the frame.
#[test]
fn frames_go_through_the_socket_of_their_node(rt: HostRuntime) -> Result<(), Fail> {
    let mut wire = UdpWire::new(&rt, rt.alloc(), 2)?;
    let frame = [1u8, 2, 3];
    for to in [0, 1] {
        assert!(rt; carried(&rt, &mut wire, to, &frame)?.is_ok());
    }
    send(&rt, &wire, 1, &[4, 5, 6])?;
    assert!(rt; carried(&rt, &mut wire, 0, &frame)? == Ok(Vec::from_slice(rt.alloc(), &frame)?));
    assert!(rt;
        carried(&rt, &mut wire, 1, &frame)? == Ok(Vec::from_slice(rt.alloc(), &[4, 5, 6])?)
    );
    assert!(rt; wire.failures() == 0);
    Ok(())
}

/// A datagram that is lost is waited for, and is a fault within two seconds: at the first frame, and behind one that arrived.
#[test]
fn a_lost_datagram_is_a_fault(rt: HostRuntime) -> Result<(), Fail> {
    for frames_before in [0, 1] {
        let mut wire = UdpWire::new(&rt, rt.alloc(), 1)?;
        for _ in 0..frames_before {
            assert!(rt; carried(&rt, &mut wire, 0, &[1, 2, 3])?.is_ok());
        }
        let elsewhere = UdpSocket::bind(&rt, SocketAddrV4::new(Ipv4Addr::LOCALHOST, 0))?;
        let there = elsewhere.local_addr()?;
        match wire.receivers.first_mut() {
            Some(receiver) => receiver.at = there,
            None => panic!(rt; "no receiver"),
        }
        let start = Instant::now(&rt)?;
        assert!(rt; carried(&rt, &mut wire, 0, &[1, 2, 3])? == Err(WireFault));
        let waited = start.elapsed(&rt)?;
        assert!(rt; waited >= Duration::from_millis(500) && waited < Duration::from_secs(2));
        assert!(rt; wire.failures() == 1);
    }
    Ok(())
}
