//! Tests of the tool: lines between any reader and writer, the words of the command line, and the whole program; `check` and `run`, by lines and by
//! scripts that a test makes, since they are long; and a link, what its events report, and the lines and the text of `link`. They are here, so that no
//! crate is proved a second time for its tests. There is nothing here but tests. Other scripts are rows of `crates/tests_hostile/stdin`.
#![tactic(auto)]

#[cfg(test)]
mod check;
#[cfg(test)]
mod command_line;
#[cfg(test)]
mod floods;
#[cfg(test)]
mod input_and_output;
#[cfg(test)]
mod link;
#[cfg(test)]
mod link_lines;
#[cfg(test)]
mod link_reaching;
#[cfg(test)]
mod link_runs;
#[cfg(test)]
mod link_told;
#[cfg(test)]
mod reaching;
#[cfg(test)]
mod router_commands;
#[cfg(test)]
mod run_lines;
#[cfg(test)]
mod tested;
#[cfg(test)]
mod tool;
