//! What the words of the command line ask for, or why they are refused.

ghost use Rattle.std.specs.Prelude.{◌≡◌, ◌≢◌, ◌⊎◌};
ghost use Rattle.clap.specs.Words.{kind_of};
ghost use Rattle.clap.specs.declared.error.kind.ErrorKind.TheVariants.{OutOfMemory};

use clap::Error;
use clap::error::ErrorKind;
use nd_random::Source;
use ndpctl_run::RunOptions;

/// What carries the frames of a link.
#[derive(Clone, Copy, Debug, PartialEq, Eq)]
pub enum Carrier {
    /// The memory of the program.
    Memory,
    /// Datagrams between sockets of this machine.
    Udp,
}

/// What the words ask for.
#[derive(Drop)]
pub enum Asked {
    /// Read the frames on standard input, and write for each the message it holds or the reason it is dropped.
    Check,
    /// Run this node on the lines of standard input.
    Run(RunOptions<Source>),
    /// Run a link with this carrier on the lines of standard input.
    Link(Carrier),
}

/// Why the words are refused.
#[derive(Drop)]
pub enum Refused {
    /// `clap` finds a fault in the words, or they ask for help. The error has the text to print and the status.
    Told(Error),
    /// The value of `--mac` is no Ethernet address.
    Mac,
    /// The value of `--draws` names no source.
    Draws,
    /// The value of `--transmits` is no number from 1 to 8.
    Transmits,
    /// The value of `--neighbours` is no number from 1 to 2048.
    Neighbours,
    /// The value of `--routers` is no number from 1 to 64.
    Routers,
    /// The value of `--prefixes` is no number from 1 to 64.
    Prefixes,
    /// The value of `--addresses` is no number from 1 to 64.
    Addresses,
    /// The value of `--servers` is no number from 1 to 32.
    Servers,
    /// The value of `--names` is no number from 1 to 32.
    Names,
    /// The value of `--redirects` is no number from 1 to 64.
    Redirects,
    /// The value of `--destinations` is no number from 1 to 256.
    Destinations,
    /// The value of `--offers` is no number from 1 to 16.
    Offers,
    /// The value of `--routes` is no number from 1 to 64.
    Routes,
    /// The value of `--waiting` is no number from 1 to 8.
    Waiting,
    /// The value of `--policy` is no list of policies that are parted by commas, each at most once.
    Policy,
    /// Out of memory.
    Memory,
}

impl Refused {
    /// Returns why words are refused of which `clap` reports `error`: `Memory` exactly if it is out of memory, and else the error itself.
    pub fn of_error(error: Error) -> Refused
        ensures { ((kind_of error ≡ OutOfMemory) × (result ≡ Refused.Memory)) ⊎ ((kind_of error ≢ OutOfMemory) × (result ≡ Refused.Told error)) }
    {
        if error.kind() == ErrorKind::OutOfMemory {
            Refused::Memory
        } else {
            Refused::Told(error)
        }
    }
}
