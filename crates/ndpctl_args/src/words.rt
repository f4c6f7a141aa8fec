//! The words of the command line, read.

ghost use Rattle.std.specs.Prelude.{◌≡◌, ◌∷◌, ℕ, List, [], codes, map, IfOk, IfErr, string_bytes};
ghost use Rattle.ndpctl_args.specs.CommandLine.{Asks, Names, Refuses, faults_of};

use crate::asked::{Asked, Refused};
use crate::command::{ROLES, WIRES, command};
use crate::options::{read_run, read_wire};
use std::alloc::Global;

/// Returns what `words` ask for; the first word is the program's path.
///
/// Returns the first of these errors that holds: `clap` finds a fault in the words, or the value of `--mac`, `--draws`, `--transmits`, a limit or
/// `--policy`, in the order of `Refused`, is bad. Returns `Memory` if it is out of memory.
pub fn read_words<'a>(alloc: Global, words: &'a [String]) -> Result<Asked, Refused>
    ensures right { IfOk result (Asks (map (λ word. string_bytes word) words.now)) }
    ensures wrong { IfErr result (Refuses (map (λ word. string_bytes word) words.now)) }
{
    let Ok(command) = command(alloc, ROLES.as_slice(), WIRES.as_slice()) else {
        return Err(Refused::Memory);
    };
    let matches = match command.try_get_matches_from(words) {
        Ok(matches) => matches,
        Err(error) => return Err(Refused::of_error(error)),
    };
    if let Some(given) = matches.subcommand_matches("run") {
        return read_run(given);
    }
    match matches.subcommand_matches("link") {
        Some(given) => Ok(Asked::Link(read_wire(given))),
        None => Ok(Asked::Check),
    }
}

/// `clap` finds no fault in the one word `check` after any program's path.
fn check_is_right()
    ensures { (names : Names) → (path : List ℕ) → faults_of names (path ∷ codes "check" ∷ []) ≡ [] }
{}
