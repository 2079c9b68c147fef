//! What no clause speaks of, over streams and a clock in memory, and once over sockets of this machine.
mod addresses;
mod clients;
mod converter;
mod filtering;
mod lines;
mod memory;
mod office;
mod sockets;
mod terminal;
