//! Tests of a connection's streams: sequences of calls, each with its answer. There is nothing here but tests and what they
//! share.
#![tactic(auto)]

#[cfg(test)]
mod acts;
#[cfg(test)]
mod answers_tests;
#[cfg(test)]
mod chunks_tests;
#[cfg(test)]
mod early_tests;
#[cfg(test)]
mod edges_tests;
#[cfg(test)]
mod sending_tests;
#[cfg(test)]
mod setups;
#[cfg(test)]
mod views_tests;
#[cfg(test)]
mod window_tests;
#[cfg(test)]
mod writing_tests;
