//! Tests of what a stream's two sides, the turns of streams and the datagrams stand on. There is nothing here but tests.
#![tactic(auto)]

#[cfg(test)]
mod assembler_tests;
#[cfg(test)]
mod datagrams_tests;
#[cfg(test)]
mod recv_tests;
#[cfg(test)]
mod send_stream_tests;
#[cfg(test)]
mod turns_tests;
