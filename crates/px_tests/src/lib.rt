//! The tests of sessions and of what stands above that aren't rows of data: pumps, shared links, doors, workers and commands.
#![tactic(auto)]

#[cfg(test)]
mod client_tags;
mod command_rows;
#[cfg(test)]
mod common;
#[cfg(test)]
mod doors;
#[cfg(test)]
mod exercise;
#[cfg(test)]
mod pumps;
#[cfg(test)]
mod reloads;
#[cfg(test)]
mod serving;
#[cfg(test)]
mod sharing;
#[cfg(test)]
mod sides;
#[cfg(test)]
mod threads;
#[cfg(test)]
mod waiting;
#[cfg(test)]
mod workers;
