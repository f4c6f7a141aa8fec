//! The command with its subcommands and their options, as `clap` reads them.

ghost use Rattle.std.specs.Prelude.{◌≡◌, false, IfOk};
ghost use Rattle.clap.specs.Words.{app_of, rule_of, with_rule};
ghost use Rattle.clap.specs.declared.builder.command.Command.TheViews.{out-Command};
ghost use Rattle.ndpctl_args.specs.CommandLine.{option_with_default, policy_option, the_command, the_link, the_run, with_limits};

use clap::{Arg, Command};
use nd_node::VERSION;
use std::alloc::{AllocError, Global};

/// The values of `--role`.
pub(crate) static ROLES: [&str; 2] = ["host", ROUTER];

/// The value of `--role` for a router.
pub(crate) const ROUTER: &str = "router";

/// The values of `--wire`.
pub(crate) static WIRES: [&str; 2] = ["memory", UDP];

/// The value of `--wire` for datagrams between sockets of this machine.
pub(crate) const UDP: &str = "udp";

/// What the help ends with: a line for each command, to be tried at the top of the repository.
const EXAMPLES: &str =
    "Examples:\n  ndpctl check < examples/link.hex\n  ndpctl run --role host --mac 34:56:78:9a:bc:de < examples/scripts/host.script\n  ndpctl link < examples/scripts/two_hosts.script\n\nThe manual page docs/ndpctl.1 says what the lines mean.";

/// The default of `--wire`.
const DEFAULT_WIRE: &str = "memory";

/// The default of `--draws`.
const DEFAULT_DRAWS: &str = "seed:0";

/// The default of `--transmits`.
const DEFAULT_TRANSMITS: &str = "1";

/// Returns the option `--name`, whose value is `default` if the words don't give one. `help` is its text in the help.
fn defaulted<'a>(alloc: Global, name: &'a str, default: &'a str, help: &'a str) -> Arg<'a>
    ensures rule { rule_of result ≡ option_with_default name.entry.now default.entry.now }
    ensures local { result.global ≡ false }
{
    Arg::new(alloc, name)
        .long(name)
        .default_value(default)
        .help(help)
}

/// Returns the subcommand `run` with its options. `roles` are the values of `--role`.
fn run_command<'a>(alloc: Global, roles: &'a [&'a str]) -> Result<Command<'a>, AllocError>
    ensures shape { IfOk result (λ command. app_of command ≡ the_run roles.entry) }
    ensures local { IfOk result (λ command. (out-Command command).has_globals ≡ false) }
{
    let role = Arg::new(alloc, "role")
        .long("role")
        .required(true)
        .value_parser(roles)
        .help("What the node is");
    let mac = Arg::new(alloc, "mac")
        .long("mac")
        .required(true)
        .help("Its Ethernet address, as 02:00:00:00:00:01");
    let draws = defaulted(
        alloc,
        "draws",
        DEFAULT_DRAWS,
        "Where its random words come from: seed:<number> or word:<number>",
    );
    let transmits = defaulted(
        alloc,
        "transmits",
        DEFAULT_TRANSMITS,
        "How many solicitations it sends for an address, 1 to 8",
    );
    let command = Command::new(alloc, "run")
        .about(
            "Reads an event with its moment a line, and writes what one host or router sends and reports",
        )
        .arg(role)?
        .arg(mac)?
        .arg(draws)?
        .arg(transmits)?;
    let command = with_limits(alloc, command)?;
    with_policy(alloc, command)
}

/// Returns the command with the option that names the policies of the node.
fn with_policy<'a>(alloc: Global, command: Command<'a>) -> Result<Command<'a>, AllocError>
    ensures shape { IfOk result (λ more. app_of more ≡ with_rule (app_of command.entry) policy_option) }
    ensures local { (out-Command command.entry).has_globals ≡ false → IfOk result (λ more. (out-Command more).has_globals ≡ false) }
{
    let policy = Arg::new(alloc, "policy").long("policy").help(
        "What it does on a link that isn't trusted, parted by commas: parts, speakers, timers, self, unicast, unformed, asked, lifetimes, unredirected, strict",
    );
    command.arg(policy)
}

/// Returns the command with an option more: `--name`, whose value is `default`, a limit as in `Limits::usual`, if the words don't give one.
fn with_limit<'a>(
    alloc: Global,
    command: Command<'a>,
    name: &'a str,
    default: &'a str,
    help: &'a str,
) -> Result<Command<'a>, AllocError>
    ensures shape { IfOk result (λ more. app_of more ≡ with_rule (app_of command.entry) (option_with_default name.entry.now default.entry.now)) }
    ensures local { (out-Command command.entry).has_globals ≡ false → IfOk result (λ more. (out-Command more).has_globals ≡ false) }
{
    command.arg(defaulted(alloc, name, default, help))
}

/// Returns the command with the options that say how many rows each table of the node has at most.
fn with_limits<'a>(alloc: Global, command: Command<'a>) -> Result<Command<'a>, AllocError>
    ensures shape { IfOk result (λ more. app_of more ≡ with_limits (app_of command.entry)) }
    ensures local { (out-Command command.entry).has_globals ≡ false → IfOk result (λ more. (out-Command more).has_globals ≡ false) }
{
    let help = "How many neighbours it keeps at most, 1 to 2048";
    let command = with_limit(alloc, command, "neighbours", "512", help)?;
    let help = "How many default routers it keeps at most, 1 to 64";
    let command = with_limit(alloc, command, "routers", "16", help)?;
    let help = "How many prefixes on the link it keeps at most, 1 to 64";
    let command = with_limit(alloc, command, "prefixes", "64", help)?;
    let help = "How many addresses of its own it has at most, the link-local one included, 1 to 64";
    let command = with_limit(alloc, command, "addresses", "64", help)?;
    let help = "How many DNS servers it keeps at most, 1 to 32";
    let command = with_limit(alloc, command, "servers", "32", help)?;
    let help = "How many DNS search names it keeps at most, 1 to 32";
    let command = with_limit(alloc, command, "names", "32", help)?;
    let help = "Of how many destinations it keeps the redirects at most, 1 to 64";
    let command = with_limit(alloc, command, "redirects", "64", help)?;
    let help = "Of how many destinations it remembers the next hops at most, 1 to 256";
    let command = with_limit(alloc, command, "destinations", "256", help)?;
    let help = "How many prefixes it advertises at most, 1 to 16";
    let command = with_limit(alloc, command, "offers", "16", help)?;
    let help = "How many static routes it has at most, 1 to 64";
    let command = with_limit(alloc, command, "routes", "64", help)?;
    let help = "How many packets wait for one neighbour at most, 1 to 8";
    with_limit(alloc, command, "waiting", "3", help)
}

/// Returns the subcommand `link` with its option. `wires` are the values of `--wire`.
fn link_command<'a>(alloc: Global, wires: &'a [&'a str]) -> Result<Command<'a>, AllocError>
    ensures shape { IfOk result (λ command. app_of command ≡ the_link wires.entry) }
    ensures local { IfOk result (λ command. (out-Command command).has_globals ≡ false) }
{
    let wire = defaulted(alloc, "wire", DEFAULT_WIRE, "What carries its frames").value_parser(
        wires,
    );
    Command::new(alloc, "link")
        .about(
            "Reads an event with its moment a line, and writes what the nodes of one link send and report",
        )
        .arg(wire)
}

/// Returns the command `ndpctl` with its subcommands. `roles` are the values of `--role`, `wires` those of `--wire`.
pub(crate) fn command<'a>(
    alloc: Global,
    roles: &'a [&'a str],
    wires: &'a [&'a str],
) -> Result<Command<'a>, AllocError>
    ensures { IfOk result (λ command. app_of command ≡ the_command roles.entry wires.entry) }
{
    let check = Command::new(alloc, "check").about(
        "Reads a frame in hexadecimal digits a line, and writes its message or the reason to drop it",
    );
    let run = run_command(alloc, roles)?;
    let link = link_command(alloc, wires)?;
    Command::new(alloc, "ndpctl")
        .about(
            "IPv6 Neighbor Discovery on one link: judges frames, and runs hosts and routers on scripted events",
        )
        .version(VERSION)
        .after_help(EXAMPLES)
        .subcommand_required(true)
        .subcommand(check)?
        .subcommand(run)?
        .subcommand(link)
}
