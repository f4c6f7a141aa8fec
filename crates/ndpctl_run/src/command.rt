//! The commands of a script.

ghost use Rattle.std.specs.Prelude.{◌≡◌, Some, None, Ok, IfSome, IfOk};
ghost use Rattle.std.specs.Option.{option_map};
ghost use Rattle.nd_chronicle.specs.Event as events;
ghost use Rattle.nd_node.specs.Event.{request_of};
ghost use Rattle.ndpctl_run.specs.Command.{command_word, AreArguments, IsCommand, IsWholeCommand};

use crate::address::read_address;
use crate::bytes::read_bytes;
use crate::offer::read_offer;
use crate::own_address::read_own_address;
use crate::packet::{read_packet, read_whole_packet};
use crate::route::read_route;
use crate::settings::read_settings;
use crate::table::{read_clearable, read_table};
use crate::words::split_word;
use nd_node::{Event, Request};
use std::alloc::{AllocError, Allocator};

/// The commands that act on something, each by its word: all but `at` and `stop`.
#[derive(Clone, Copy, Debug, PartialEq, Eq)]
pub enum Command {
    /// A frame is received.
    Rx,
    /// The upper layer sends a packet.
    Send,
    /// An upper layer confirms that a neighbour is reachable.
    Confirm,
    /// A neighbour is removed.
    Forget,
    /// A table is cleared.
    Clear,
    /// A table is shown.
    Show,
    /// A router is configured to advertise (RFC 4861, section 6.2.1).
    Advertise,
    /// A prefix is added to those that a router advertises (RFC 4861, section 6.2.1).
    Prefix,
    /// A router is given a static route.
    Route,
    /// The node is given an address (RFC 4862, section 5.4).
    Address,
    /// An address of the node's own is withdrawn.
    Withdraw,
    /// A caller that keeps its packets asks where those to a destination go.
    Resolve,
    /// A whole packet is sent as it is.
    Carry,
}

const COMMANDS: [Command; 13] = [
    Command::Rx,
    Command::Send,
    Command::Confirm,
    Command::Forget,
    Command::Clear,
    Command::Show,
    Command::Advertise,
    Command::Prefix,
    Command::Route,
    Command::Address,
    Command::Withdraw,
    Command::Resolve,
    Command::Carry,
];

/// Returns the word that a command begins with.
fn command_word(command: Command) -> &'static str
    ensures { result.now ≡ command_word command }
{
    match command {
        Command::Rx => "rx",
        Command::Send => "send",
        Command::Confirm => "confirm",
        Command::Forget => "forget",
        Command::Clear => "clear",
        Command::Show => "show",
        Command::Advertise => "advertise",
        Command::Prefix => "prefix",
        Command::Route => "route",
        Command::Address => "address",
        Command::Withdraw => "withdraw",
        Command::Resolve => "resolve",
        Command::Carry => "carry",
    }
}

/// Returns the command that begins with a word.
fn read_command_word(word: &[u8]) -> Option<Command>
    ensures found { IfSome result (λ command. word.now ≡ command_word command) }
    ensures only { (command : Command) → word.now ≡ command_word command → result ≡ Some command }
{
    for command in COMMANDS {
        if command_word(command).as_bytes() == word {
            return Some(command);
        }
    }
    None
}

/// Returns the event that the words after a command spell. No other words spell any, and such words take no memory. Returns an error if out of
/// memory.
fn read_arguments<A: Allocator + Clone>(
    alloc: &A,
    command: Command,
    words: &[u8],
) -> Result<Option<Request<A>>, AllocError>
    ensures found { IfOk result (λ read. IfSome read (λ event. AreArguments command words.now (request_of event))) }
    ensures only { (event : events.Event) → AreArguments command words.now event → IfOk result (λ read. option_map request_of read ≡ Some event) }
    ensures malformed { ((event : events.Event) → AreArguments command words.now event → ⊥) → result ≡ Ok None }
{
    match command {
        Command::Rx => match read_bytes(alloc, words)? {
            Some(frame) => Ok(Some(Request::Event(Event::Receives(frame)))),
            None => Ok(None),
        },
        Command::Send => match read_packet(alloc, words)? {
            Some(packet) => Ok(Some(Request::Event(Event::Sends(packet)))),
            None => Ok(None),
        },
        Command::Confirm => match read_address(words) {
            Some(neighbour) => Ok(Some(Request::Event(Event::Confirms(neighbour)))),
            None => Ok(None),
        },
        Command::Forget => match read_address(words) {
            Some(neighbour) => Ok(Some(Request::Event(Event::Forgets(neighbour)))),
            None => Ok(None),
        },
        Command::Clear => match read_clearable(words) {
            Some(table) => Ok(Some(Request::Event(Event::Clears(table)))),
            None => Ok(None),
        },
        Command::Show => match read_table(words) {
            Some(table) => Ok(Some(Request::Shows(table))),
            None => Ok(None),
        },
        Command::Advertise => match read_settings(words) {
            Some(settings) => Ok(Some(Request::Event(Event::Advertises(settings)))),
            None => Ok(None),
        },
        Command::Prefix => match read_offer(words) {
            Some(offer) => Ok(Some(Request::Event(Event::Offers(offer)))),
            None => Ok(None),
        },
        Command::Route => match read_route(words) {
            Some(route) => Ok(Some(Request::Event(Event::PutsRoute(route)))),
            None => Ok(None),
        },
        Command::Address => match read_own_address(words) {
            Some(own) => Ok(Some(Request::Event(Event::Sets(own)))),
            None => Ok(None),
        },
        Command::Withdraw => match read_address(words) {
            Some(address) => Ok(Some(Request::Event(Event::Withdraws(address)))),
            None => Ok(None),
        },
        Command::Resolve => match read_address(words) {
            Some(destination) => Ok(Some(Request::Event(Event::Resolves(destination)))),
            None => Ok(None),
        },
        Command::Carry => match read_whole_packet(alloc, words)? {
            Some(packet) => Ok(Some(Request::Event(Event::Carries(packet)))),
            None => Ok(None),
        },
    }
}

/// Returns the event of a command without arguments, by its word.
fn read_whole_command<A: Allocator>(word: &[u8]) -> Option<Request<A>>
    ensures found { IfSome result (λ event. IsWholeCommand word.now (request_of event)) }
    ensures only { (event : events.Event) → IsWholeCommand word.now event → option_map request_of result ≡ Some event }
{
    if word == b"at".as_slice() {
        return Some(Request::Event(Event::Passes));
    }
    if word == b"stop".as_slice() {
        return Some(Request::Event(Event::Stops));
    }
    None
}

/// Returns the event that the bytes of a command spell. No other bytes spell any, and such bytes take no memory. Returns an error if out of memory.
pub fn read_command<A: Allocator + Clone>(
    alloc: &A,
    bytes: &[u8],
) -> Result<Option<Request<A>>, AllocError>
    ensures found { IfOk result (λ read. IfSome read (λ event. IsCommand bytes.now (request_of event))) }
    ensures only { (event : events.Event) → IsCommand bytes.now event → IfOk result (λ read. option_map request_of read ≡ Some event) }
    ensures malformed { ((event : events.Event) → IsCommand bytes.now event → ⊥) → result ≡ Ok None }
{
    let Some((word, rest)) = split_word(bytes) else {
        return Ok(read_whole_command(bytes));
    };
    let Some(command) = read_command_word(word) else {
        return Ok(None);
    };
    read_arguments(alloc, command, rest)
}
