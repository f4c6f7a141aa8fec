//! How the program ends: its exit status, and the text that it prints.

ghost use Rattle.std.specs.Prelude.{◌≡◌};
ghost use Rattle.ndpctl_tool.specs.Ending.{is_help, status_of_done, status_of_ending, status_of_refusal, status_of_unread};

use clap::error::ErrorKind;
use nd_lines::tool_fault::ToolFault;
use ndpctl_args::Refused;
use std::{fmt, io};

/// The status of a bad command line.
const BAD_COMMAND_LINE: u8 = 2;

/// How the program ends. Its `Display` is the whole text that the program prints then.
#[derive(Drop)]
pub enum Ending {
    /// What was asked is done.
    Done,
    /// What was asked ended with a fault, or there was no memory for the words of the command line.
    Faulty(ToolFault),
    /// The words of the command line are refused, or ask for help.
    Refused(Refused),
    /// A word of the command line is not UTF-8.
    NotText,
}

impl Ending {
    /// Returns how the program ends after a run.
    pub fn of_run(done: Result<(), ToolFault>) -> Ending
        ensures { status_of_ending result ≡ status_of_done done }
    {
        match done {
            Ok(()) => Ending::Done,
            Err(fault) => Ending::Faulty(fault),
        }
    }

    /// Returns how the program ends if the words of the command line can't be read.
    pub fn of_unread(error: &io::Error) -> Ending
        ensures { status_of_ending result ≡ status_of_unread error.now }
    {
        match error.kind() {
            io::ErrorKind::OutOfMemory => Ending::Faulty(ToolFault::Memory),
            _ => Ending::NotText,
        }
    }

    /// Returns the exit status: 0 if what was asked is done, or if the words ask for help.
    pub fn status(&self) -> u8
        ensures { result ≡ status_of_ending self.now }
    {
        match self {
            Ending::Done => 0,
            Ending::Faulty(fault) => fault.status(),
            Ending::Refused(refused) => status_of_refused(refused),
            Ending::NotText => BAD_COMMAND_LINE,
        }
    }

    /// Returns true if the text is the help that the words ask for. It goes to standard output, and every other text to standard error.
    pub fn is_help(&self) -> bool
        ensures { result ≡ is_help self.now }
    {
        match self {
            Ending::Refused(Refused::Told(error)) => match error.kind() {
                ErrorKind::DisplayHelp | ErrorKind::DisplayVersion => true,
                _ => false,
            },
            _ => false,
        }
    }
}

/// Returns the exit status if the words are refused: 0 if they ask for help.
fn status_of_refused(refused: &Refused) -> u8
    ensures { result ≡ status_of_refusal refused.now }
{
    match refused {
        Refused::Told(error) => match error.kind() {
            ErrorKind::DisplayHelp | ErrorKind::DisplayVersion => 0,
            _ => BAD_COMMAND_LINE,
        },
        Refused::Mac
        | Refused::Draws
        | Refused::Transmits
        | Refused::Neighbours
        | Refused::Routers
        | Refused::Prefixes
        | Refused::Addresses
        | Refused::Servers
        | Refused::Names
        | Refused::Redirects
        | Refused::Destinations
        | Refused::Offers
        | Refused::Routes
        | Refused::Waiting
        | Refused::Policy => BAD_COMMAND_LINE,
        Refused::Memory => ToolFault::Memory.status(),
    }
}

impl fmt::Display for Ending {
    fn fmt<W: fmt::Write>(&self, f: &mut fmt::Formatter<W>) -> fmt::Result {
        match self {
            Ending::Done => Ok(()),
            Ending::Faulty(fault) => writeln!(f, "ndpctl: {fault}"),
            Ending::Refused(Refused::Told(error)) => write!(f, "{error}"),
            Ending::Refused(Refused::Mac) => f.write_str("ndpctl: bad mac\n"),
            Ending::Refused(Refused::Draws) => f.write_str("ndpctl: bad draws\n"),
            Ending::Refused(Refused::Transmits) => f.write_str("ndpctl: bad transmits\n"),
            Ending::Refused(Refused::Neighbours) => f.write_str("ndpctl: bad neighbours\n"),
            Ending::Refused(Refused::Routers) => f.write_str("ndpctl: bad routers\n"),
            Ending::Refused(Refused::Prefixes) => f.write_str("ndpctl: bad prefixes\n"),
            Ending::Refused(Refused::Addresses) => f.write_str("ndpctl: bad addresses\n"),
            Ending::Refused(Refused::Servers) => f.write_str("ndpctl: bad servers\n"),
            Ending::Refused(Refused::Names) => f.write_str("ndpctl: bad names\n"),
            Ending::Refused(Refused::Redirects) => f.write_str("ndpctl: bad redirects\n"),
            Ending::Refused(Refused::Destinations) => f.write_str("ndpctl: bad destinations\n"),
            Ending::Refused(Refused::Offers) => f.write_str("ndpctl: bad offers\n"),
            Ending::Refused(Refused::Routes) => f.write_str("ndpctl: bad routes\n"),
            Ending::Refused(Refused::Waiting) => f.write_str("ndpctl: bad waiting\n"),
            Ending::Refused(Refused::Policy) => f.write_str("ndpctl: bad policy\n"),
            Ending::Refused(Refused::Memory) => f.write_str("ndpctl: no memory\n"),
            Ending::NotText => f.write_str("ndpctl: a word is not UTF-8\n"),
        }
    }
}
