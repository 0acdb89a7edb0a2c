//! The tests of single parts that aren't rows of data: objects in memory and over the system, threads, sockets and links.
#![tactic(auto)]

#[cfg(test)]
mod aliases;
#[cfg(test)]
mod boards;
#[cfg(test)]
mod common;
#[cfg(test)]
mod ended_links;
#[cfg(test)]
mod generated;
#[cfg(test)]
mod kept_files;
#[cfg(test)]
mod memory;
#[cfg(test)]
mod pool;
#[cfg(test)]
mod publish;
#[cfg(test)]
mod sockets;
#[cfg(test)]
mod socks;
#[cfg(test)]
mod streams;
#[cfg(test)]
mod texts;
#[cfg(test)]
mod times;
#[cfg(test)]
mod ways;
