//! Tests of the sessions and keys, of packets that are sealed and opened with them, and of the counted work on these. There
//! is nothing here but tests.
#![tactic(auto)]

#[cfg(test)]
mod bench_tests;
#[cfg(test)]
mod handshake_tests;
#[cfg(test)]
mod packet_tests;
#[cfg(test)]
mod shares_tests;
#[cfg(test)]
mod toy_tests;
