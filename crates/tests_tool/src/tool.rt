//! The whole program over a runtime of its own, whose two streams and whose reads are one text.

ghost use Rattle.std.specs.Prelude.{None};

use nd_lines::input::{Input, Pieces, ReadFault};
use nd_lines::tool_fault::ToolFault;
use ndpctl_args::Refused;
use ndpctl_tool::{Ending, tool};
use std::alloc::Global;
use std::cell::RefCell;
use std::env::FillError;
use std::fmt::Display;
use std::io::ErrorKind;
use std::net::{Net, SocketAddr, TcpListener, TcpStream};
use std::process::Abort;
use std::rt::Env;
use std::test::*;
use std::{io, str};

/// A runtime that a test gives to the program.
#[derive(Drop)]
struct Fake<'a> {
    alloc: Global,
    /// The words of the command line, with a space between two.
    words: &'a str,
    /// The word with this number is one byte that is no UTF-8.
    not_text: Option<usize>,
    /// Standard output takes nothing.
    is_closed: bool,
    /// What happened: a read is a `?`, text on standard output is as it is, and on standard error after a `!`.
    transcript: &'a RefCell<String>,
}

impl Alloc for Fake<'_> {
    type A = Global;

    fn alloc(&self) -> Global {
        self.alloc
    }
}

impl Env for Fake<'_> {
    fn arg(&self, i: usize, buf: &mut [u8]) -> Result<usize, FillError> {
        let word = match self.words.split(' ').nth(i) {
            Some(word) => word.as_bytes(),
            None => return Err(FillError::NotPresent),
        };
        if word.len() > buf.len() || buf.is_empty() {
            return Err(FillError::TooLong);
        }
        if self.not_text == Some(i) {
            buf[0] = 0xff;
            return Ok(1);
        }
        buf[..word.len()].copy_from_slice(word);
        Ok(word.len())
    }

    fn var(&self, _name: &str, _buf: &mut [u8]) -> Result<usize, FillError> {
        Err(FillError::NotPresent)
    }

    fn var_at(&self, _i: usize, _buf: &mut [u8]) -> Result<usize, FillError> {
        Err(FillError::NotPresent)
    }
}

impl Print for Fake<'_> {
    fn print<D: Display + Drop>(&self, value: D) -> io::Result<()> {
        self.write_all(value.to_string(self.alloc)?.as_bytes())
    }

    fn println<D: Display + Drop>(&self, value: D) -> io::Result<()> {
        self.print(value)?;
        self.write_all(b"\n")
    }

    fn write_all(&self, bytes: &[u8]) -> io::Result<()> {
        if self.is_closed {
            return Err(ErrorKind::BrokenPipe.into());
        }
        match str::from_utf8(bytes) {
            Ok(text) => Ok(self.transcript.try_borrow_mut()?.push_str(text)?),
            Err(_) => Err(ErrorKind::InvalidData.into()),
        }
    }
}

impl Eprint for Fake<'_> {
    fn eprint<D: Display + Drop>(&self, value: D) -> io::Result<()> {
        let text = value.to_string(self.alloc)?;
        if text.is_empty() {
            return Ok(());
        }
        let mut transcript = self.transcript.try_borrow_mut()?;
        transcript.push('!')?;
        Ok(transcript.push_str(text.as_str())?)
    }

    fn eprintln<D: Display + Drop>(&self, value: D) -> io::Result<()> {
        self.eprint(value)?;
        Ok(self.transcript.try_borrow_mut()?.push('\n')?)
    }
}

/// Standard input in pieces.
#[derive(Drop)]
struct Lines<'a> {
    pieces: Pieces<'a>,
    is_failing: bool,
    failures: u64,
    transcript: &'a RefCell<String>,
}

impl Input for Lines<'_> {
    ghost remaining = { λ _. None };

    ghost given = { λ lines. lines.pieces.given };

    ghost failed = { λ lines. lines.failures };

    fn read(&mut self, buffer: &mut [u8]) -> Result<usize, ReadFault> {
        let marked = match self.transcript.try_borrow_mut() {
            Ok(mut transcript) => transcript.push('?').is_ok(),
            Err(_) => false,
        };
        if self.is_failing || !marked {
            self.failures = self.failures.saturating_add(1);
            return Err(ReadFault);
        }
        self.pieces.read(buffer)
    }

    fn failures(&self) -> u64 {
        self.failures
    }
}

/// A system without sockets: each call has this error.
#[derive(Drop)]
struct NoSockets(ErrorKind);

impl Net for NoSockets {
    type Stream = TcpStream;

    type Listener = TcpListener;

    fn bind(&self, _addr: SocketAddr) -> io::Result<TcpListener> {
        Err(self.0.into())
    }

    fn connect(&self, _addr: SocketAddr) -> io::Result<TcpStream> {
        Err(self.0.into())
    }

    fn bind_udp(&self, _addr: SocketAddr) -> io::Result<std::net::UdpSocket> {
        Err(self.0.into())
    }
}

/// What the program is run on.
#[derive(Clone, Copy)]
struct Case<'a> {
    words: &'a str,
    not_text: Option<usize>,
    lines: &'a str,
    piece: usize,
    is_failing: bool,
    is_closed: bool,
}

/// Words and lines, which are read in pieces of one byte.
fn case_of<'a>(words: &'a str, lines: &'a str) -> Case<'a> {
    Case {
        words,
        not_text: None,
        lines,
        piece: 1,
        is_failing: false,
        is_closed: false,
    }
}

/// Runs the program over sockets of `net`, and expects this status and this transcript.
fn ends<N: Net>(
    rt: &(impl Abort + AllocGlobal),
    net: &N,
    case: Case<'_>,
    status: u8,
    wanted: &str,
) {
    let transcript = RefCell::new(String::new(rt.alloc()));
    let fake = Fake {
        alloc: rt.alloc(),
        words: case.words,
        not_text: case.not_text,
        is_closed: case.is_closed,
        transcript: &transcript,
    };
    let mut lines = Lines {
        pieces: Pieces::new(case.lines.as_bytes(), case.piece.max(1)),
        is_failing: case.is_failing,
        failures: 0,
        transcript: &transcript,
    };
    assert_eq!(rt; tool(&fake, net, &mut lines), status);
    assert_eq!(rt; transcript.into_inner().as_str(), wanted);
}

/// Each answer is written before the next read, and complaints go to standard error, after the answers.
#[test]
fn streams_and_statuses(rt: HostRuntime) {
    let done = case_of("ndpctl check", "\n\n");
    let malformed = case_of("ndpctl check", "\n-\n\n");
    let unread = Case {
        is_failing: true,
        ..done
    };
    let unwritten = Case {
        is_closed: true,
        ..done
    };
    for (case, status, wanted) in [
        (done, 0, "?drop 1 FrameShort\n?drop 1 FrameShort\n?"),
        (
            malformed,
            2,
            "?drop 1 FrameShort\n??!ndpctl: line 2: malformed\n",
        ),
        (unread, 4, "?!ndpctl: input failed\n"),
        (unwritten, 4, "?!ndpctl: output failed\n"),
    ] {
        ends(&rt, &rt, case, status, wanted);
    }
}

/// A link over datagrams asks for sockets, and there are none, or no memory for them. A link over memory asks for none.
#[test]
fn a_link_without_sockets(rt: HostRuntime) {
    let over_datagrams = case_of("ndpctl link --wire udp", "");
    let over_memory = case_of("ndpctl link", "");
    for (kind, case, status, wanted) in [
        (
            ErrorKind::Unsupported,
            over_datagrams,
            4,
            "!ndpctl: wire failed\n",
        ),
        (
            ErrorKind::OutOfMemory,
            over_datagrams,
            3,
            "!ndpctl: no memory\n",
        ),
        (ErrorKind::OutOfMemory, over_memory, 0, "?"),
    ] {
        ends(&rt, &NoSockets(kind), case, status, wanted);
    }
}

/// Words that are refused: the texts of `clap` as its users know them, and those of bad values.
#[test]
fn refused_words(rt: HostRuntime) {
    for (words, wanted) in [
        (
            "ndpctl",
            "!error: 'ndpctl' requires a subcommand but one was not provided\n  [subcommands: check, run, link, help]\n\nUsage: ndpctl <COMMAND>\n\nFor more information, try '--help'.\n",
        ),
        (
            "ndpctl frob",
            "!error: unrecognized subcommand 'frob'\n\nUsage: ndpctl <COMMAND>\n\nFor more information, try '--help'.\n",
        ),
        (
            "ndpctl check more",
            "!error: unexpected argument 'more' found\n\nUsage: ndpctl check\n\nFor more information, try '--help'.\n",
        ),
        (
            "ndpctl link --wire radio",
            "!error: invalid value 'radio' for '--wire <wire>'\n  [possible values: memory, udp]\n\nFor more information, try '--help'.\n",
        ),
        (
            "ndpctl run --role host",
            "!error: the following required arguments were not provided:\n  --mac <mac>\n\nUsage: ndpctl run --role <role> --mac <mac>\n\nFor more information, try '--help'.\n",
        ),
        ("ndpctl run --role host --mac 02", "!ndpctl: bad mac\n"),
        (
            "ndpctl run --role host --mac 02:00:00:00:00:01 --draws 7",
            "!ndpctl: bad draws\n",
        ),
        (
            "ndpctl run --role host --mac 02:00:00:00:00:01 --transmits 9",
            "!ndpctl: bad transmits\n",
        ),
        (
            "ndpctl run --role host --mac 02:00:00:00:00:01 --neighbours 0",
            "!ndpctl: bad neighbours\n",
        ),
        (
            "ndpctl run --role host --mac 02:00:00:00:00:01 --routers 65",
            "!ndpctl: bad routers\n",
        ),
    ] {
        ends(&rt, &rt, case_of(words, "\n"), 2, wanted);
    }
    let not_text = Case {
        not_text: Some(1),
        ..case_of("ndpctl check", "\n")
    };
    ends(&rt, &rt, not_text, 2, "!ndpctl: a word is not UTF-8\n");
}

/// The words of a run of a host.
const HOST: &str = "ndpctl run --role host --mac 34:56:78:9a:bc:de --draws word:0";

/// Limits and policies that are refused. Of two or more bad values the first one in the order of the options is reported.
#[test]
fn refused_limits_and_policies(rt: HostRuntime) {
    for (more, wanted) in [
        ("--prefixes 65", "!ndpctl: bad prefixes\n"),
        ("--addresses 65", "!ndpctl: bad addresses\n"),
        ("--servers 33", "!ndpctl: bad servers\n"),
        ("--names 33", "!ndpctl: bad names\n"),
        ("--redirects 65", "!ndpctl: bad redirects\n"),
        ("--destinations 257", "!ndpctl: bad destinations\n"),
        ("--offers 17", "!ndpctl: bad offers\n"),
        ("--routes 65", "!ndpctl: bad routes\n"),
        ("--waiting 9", "!ndpctl: bad waiting\n"),
        ("--policy x", "!ndpctl: bad policy\n"),
        ("--policy parts,", "!ndpctl: bad policy\n"),
        ("--policy parts,self,parts", "!ndpctl: bad policy\n"),
        ("--names 33 --transmits 9", "!ndpctl: bad transmits\n"),
        (
            "--policy x --waiting 9 --redirects 0",
            "!ndpctl: bad redirects\n",
        ),
    ] {
        let words = format!(in rt.alloc(); "{HOST} {more}").expect(&rt, "memory");
        ends(&rt, &rt, case_of(&words, "10 at\n"), 2, wanted);
    }
}

/// The help goes to standard output, in the layout of `clap`.
#[test]
fn helps(rt: HostRuntime) {
    for (words, wanted) in [
        (
            "ndpctl --help",
            "IPv6 Neighbor Discovery on one link: judges frames, and runs hosts and routers on scripted events\n\nUsage: ndpctl <COMMAND>\n\nCommands:\n  check  Reads a frame in hexadecimal digits a line, and writes its message or the reason to drop it\n  run    Reads an event with its moment a line, and writes what one host or router sends and reports\n  link   Reads an event with its moment a line, and writes what the nodes of one link send and report\n  help   Print this message or the help of the given subcommand(s)\n\nOptions:\n  -h, --help     Print help\n  -V, --version  Print version\n\nExamples:\n  ndpctl check < examples/link.hex\n  ndpctl run --role host --mac 34:56:78:9a:bc:de < examples/scripts/host.script\n  ndpctl link < examples/scripts/two_hosts.script\n\nThe manual page docs/ndpctl.1 says what the lines mean.\n",
        ),
        ("ndpctl --version", "ndpctl 0.1.0\n"),
        (
            "ndpctl check --help",
            "Reads a frame in hexadecimal digits a line, and writes its message or the reason to drop it\n\nUsage: ndpctl check\n\nOptions:\n  -h, --help  Print help\n",
        ),
        (
            "ndpctl run --help",
            "Reads an event with its moment a line, and writes what one host or router sends and reports\n\nUsage: ndpctl run [OPTIONS] --role <role> --mac <mac>\n\nOptions:\n      --role <role>                  What the node is [possible values: host, router]\n      --mac <mac>                    Its Ethernet address, as 02:00:00:00:00:01\n      --draws <draws>                Where its random words come from: seed:<number> or word:<number> [default: seed:0]\n      --transmits <transmits>        How many solicitations it sends for an address, 1 to 8 [default: 1]\n      --neighbours <neighbours>      How many neighbours it keeps at most, 1 to 2048 [default: 512]\n      --routers <routers>            How many default routers it keeps at most, 1 to 64 [default: 16]\n      --prefixes <prefixes>          How many prefixes on the link it keeps at most, 1 to 64 [default: 64]\n      --addresses <addresses>        How many addresses of its own it has at most, the link-local one included, 1 to 64 [default: 64]\n      --servers <servers>            How many DNS servers it keeps at most, 1 to 32 [default: 32]\n      --names <names>                How many DNS search names it keeps at most, 1 to 32 [default: 32]\n      --redirects <redirects>        Of how many destinations it keeps the redirects at most, 1 to 64 [default: 64]\n      --destinations <destinations>  Of how many destinations it remembers the next hops at most, 1 to 256 [default: 256]\n      --offers <offers>              How many prefixes it advertises at most, 1 to 16 [default: 16]\n      --routes <routes>              How many static routes it has at most, 1 to 64 [default: 64]\n      --waiting <waiting>            How many packets wait for one neighbour at most, 1 to 8 [default: 3]\n      --policy <policy>              What it does on a link that isn't trusted, parted by commas: parts, speakers, timers, self, unicast, unformed, asked, lifetimes, unredirected, strict\n  -h, --help                         Print help\n",
        ),
        (
            "ndpctl link --help",
            "Reads an event with its moment a line, and writes what the nodes of one link send and report\n\nUsage: ndpctl link [OPTIONS]\n\nOptions:\n      --wire <wire>  What carries its frames [default: memory] [possible values: memory, udp]\n  -h, --help         Print help\n",
        ),
    ] {
        ends(&rt, &rt, case_of(words, ""), 0, wanted);
    }
}

/// Sixteen hosts of one link-layer address try one address: the first frame goes to each of the others, and the second to the first host
/// (RFC 4862, section 5.4.3).
#[test]
fn sixteen_nodes_over_both_wires(rt: HostRuntime) {
    let mut lines = String::new(rt.alloc());
    let mut wanted = String::from_str(rt.alloc(), "?").expect(&rt, "memory");
    for _ in 0..16 {
        lines
            .push_str("0 node host 34:56:78:9a:bc:de word:0\n")
            .expect(&rt, "memory");
    }
    for node in 0..16 {
        writeln!(
            wanted,
            "n{node} 0 tx 3333ff9abcde3456789abcde86dd6000000000183aff00000000000000000000000000000000ff0200000000000000000001ff9abcde870053df00000000fe80000000000000365678fffe9abcde"
        )
        .expect(&rt, "memory");
    }
    for (node, frame) in (1..16).map(|node| (node, 0)).chain([(0, 1)]) {
        writeln!(lines, "400 deliver {node} {frame}").expect(&rt, "memory");
        writeln!(
            wanted,
            "n{node} 400 heard ns\nn{node} 400 duplicate fe80::3656:78ff:fe9a:bcde"
        )
        .expect(&rt, "memory");
    }
    wanted.push('?').expect(&rt, "memory");
    for words in ["ndpctl link", "ndpctl link --wire udp"] {
        let whole = Case {
            piece: 4096,
            ..case_of(words, &lines)
        };
        ends(&rt, &rt, whole, 0, &wanted);
    }
}

/// How the program ends without memory.
#[test]
fn ends_without_memory(rt: HostRuntime) {
    for ending in [
        Ending::Faulty(ToolFault::Memory),
        Ending::Refused(Refused::Memory),
        Ending::of_unread(&ErrorKind::OutOfMemory.into()),
    ] {
        assert!(rt; ending.status() == 3 && !ending.is_help());
        let text = ending.to_string(rt.alloc()).expect(&rt, "memory");
        assert_eq!(rt; text.as_str(), "ndpctl: no memory\n");
    }
}
