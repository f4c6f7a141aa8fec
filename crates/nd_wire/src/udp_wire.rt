//! A wire over sockets of this machine.

ghost use Rattle.std.specs.Prelude.{◌≡◌, ◌≤◌, [], length, OnOk, OnErr, IfOk, IsErr, vec_capacity};
ghost use Rattle.nd_lines.specs.Counts.{one_more};

use crate::wire::{Wire, WireFault};
use std::alloc::Allocator;
use std::io;
use std::io::ErrorKind;
use std::net::{Ipv4Addr, Net, SocketAddr, SocketAddrV4, UdpSocket};
use std::time::Duration;

/// The time for which a receiver waits for a datagram, in seconds (our choice).
const READ_TIMEOUT: u64 = 1;

/// The bytes of the longest datagram over IPv4 (RFC 791, section 3.1, without headers of 20 and, by RFC 768, 8 bytes), and one more, by which a
/// longer one is recognized.
const ROOM: usize = 65508;

/// The most datagrams that are thrown away before one is sent (our choice).
const MOST_STALE: usize = 1024;

/// The socket at which one node receives.
#[derive(Drop)]
pub(crate) struct Receiver {
    socket: UdpSocket,
    pub(crate) at: SocketAddr,
    /// No datagram can be waiting there.
    is_empty: bool,
}

/// Sends each frame as one datagram to a socket of the receiving node, and receives it there, all on 127.0.0.1 and at
/// ports that the system chose. The bytes that arrive are the system's, and no clause says which.
#[derive(Drop)]
pub struct UdpWire<A: Allocator> {
    pub(crate) sender: UdpSocket,
    from: SocketAddr,
    pub(crate) receivers: Vec<Receiver, A>,
    failures: u64,
}

/// Opens a socket of this machine.
fn local_socket<N: Net>(net: &N) -> io::Result<UdpSocket> {
    UdpSocket::bind(net, SocketAddrV4::new(Ipv4Addr::LOCALHOST, 0))
}

impl Receiver {
    /// Opens a socket for the datagrams of one sender: the system drops all others from here on.
    fn open<N: Net>(net: &N, sender: SocketAddr) -> io::Result<Self> {
        let socket = local_socket(net)?;
        socket.connect(sender)?;
        socket.set_read_timeout(Some(Duration::from_secs(READ_TIMEOUT)))?;
        let at = socket.local_addr()?;
        Ok(Receiver {
            socket,
            at,
            is_empty: false,
        })
    }

    /// Throws away what was sent before: by a stranger before the socket had its sender, or in a call that failed.
    fn throw_away_stale(&self) -> io::Result<()> {
        self.socket.set_nonblocking(true)?;
        for _ in 0..MOST_STALE {
            match self.socket.recv(&mut [0u8; 1]) {
                Ok(_) => {}
                Err(error) if error.kind() == ErrorKind::WouldBlock => {
                    return self.socket.set_nonblocking(false);
                }
                Err(error) => return Err(error),
            }
        }
        Err(ErrorKind::ResourceBusy.into())
    }

    /// Passes one datagram from the sender to this socket, and reads it there.
    fn pass<A: Allocator>(
        &mut self,
        sender: &UdpSocket,
        from: SocketAddr,
        frame: &[u8],
        into: &mut Vec<u8, A>,
    ) -> io::Result<()>
        requires empty { into.old.items ≡ [] }
        requires room { length frame.now ≤ vec_capacity into.old }
        ensures length { OnOk result (length into.new.items ≤ length frame.now) }
    {
        if !self.is_empty {
            self.throw_away_stale()?;
        }
        self.is_empty = false; // A fault may leave the datagram on its way.
        sender.send_to(frame, self.at)?;
        let mut buffer = [0u8; ROOM];
        let (count, source) = self.socket.recv_from(&mut buffer)?;
        if source != from || count != frame.len() {
            return Err(ErrorKind::InvalidData.into());
        }
        into.extend_from_slice(&buffer[..count])?;
        self.is_empty = true;
        Ok(())
    }
}

impl<A: Allocator> UdpWire<A> {
    /// Opens a socket for sending, and one for each of the nodes 0 to `nodes - 1`. Returns an error of the system or of the allocator, which no
    /// other call asks.
    pub fn new<N: Net>(net: &N, alloc: A, nodes: usize) -> io::Result<Self>
        ensures unfailed { IfOk result (λ w. w.failures ≡ 0) }
        ensures sockets { IfOk result (λ w. length w.receivers.items ≡ nodes) }
    {
        let sender = local_socket(net)?;
        let from = sender.local_addr()?;
        let mut receivers = Vec::with_capacity(alloc, nodes)?;
        for _ in 0..nodes {
            receivers.push(Receiver::open(net, from)?)?;
        }
        Ok(UdpWire {
            sender,
            from,
            receivers,
            failures: 0,
        })
    }
}

impl<A: Allocator> Wire for UdpWire<A> {
    ghost arrives = { λ _ frame bytes. length bytes ≤ length frame };

    ghost failed = { λ w. w.failures };

    // What the clauses of `Wire::carry` mean here, and that a node without a socket is a fault.
    fn carry<B: Allocator>(
        &mut self,
        to: usize,
        frame: &[u8],
        into: &mut Vec<u8, B>,
    ) -> Result<(), WireFault>
        requires empty { into.old.items ≡ [] }
        requires room { length frame.now ≤ vec_capacity into.old }
        ensures length { OnOk result (length into.new.items ≤ length frame.now) }
        ensures fault { OnErr result (self.new.failures ≡ one_more self.old.failures) }
        ensures no_fault { OnOk result (self.new.failures ≡ self.old.failures) }
        ensures no_socket { length self.old.receivers.items ≤ to → IsErr result }
    {
        let passed = match self.receivers.get_mut(to) {
            Some(receiver) => receiver.pass(&self.sender, self.from, frame, into),
            None => Err(ErrorKind::NotFound.into()),
        };
        match passed {
            Ok(()) => Ok(()),
            Err(_) => {
                self.failures = self.failures.saturating_add(1);
                Err(WireFault)
            }
        }
    }

    fn failures(&self) -> u64 {
        self.failures
    }
}
