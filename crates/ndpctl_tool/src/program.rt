//! The whole program, except for the source of its input.

use crate::ending::Ending;
use crate::run::run;
use nd_lines::input::Input;
use nd_lines::output::Writing;
use nd_lines::tool_fault::ToolFault;
use ndpctl_args::read_words;
use std::io;
use std::net::Net;
use std::rt::Env;

/// Does what the words of the command line ask for, on the lines of `reader`, and returns the exit status.
///
/// The answers go to the standard output of `rt`, each before the next read, and so does the help that the words ask for. A complaint goes to
/// standard error.
pub fn tool<R: Env + Print + Eprint + AllocGlobal, N: Net, I: Input>(
    rt: &R,
    net: &N,
    reader: &mut I,
) -> u8 {
    let ending = end(rt, net, reader);
    // A stream that takes no text leaves the status as it is.
    let _ = if ending.is_help() {
        rt.print(&ending)
    } else {
        rt.eprint(&ending)
    };
    ending.status()
}

/// Does what the words ask for, and returns how the program ends.
fn end<R: Env + Print + AllocGlobal, N: Net, I: Input>(rt: &R, net: &N, reader: &mut I) -> Ending {
    let args = match std::env::args(rt) {
        Ok(args) => args,
        Err(error) => return Ending::of_unread(&error),
    };
    let Ok(words) = args.collect::<Vec<String>>(rt.alloc()) else {
        return Ending::Faulty(ToolFault::Memory);
    };
    match read_words(rt.alloc(), words.as_slice()) {
        Ok(asked) => {
            let mut writer = Writing::new(io::writer(rt));
            Ending::of_run(run(net, rt.alloc(), asked, reader, &mut writer))
        }
        Err(refused) => Ending::Refused(refused),
    }
}
