//! Tests of the connection ids of both ends. There is nothing here but tests.
#![tactic(auto)]

#[cfg(test)]
mod lists_tests;
#[cfg(test)]
mod local_tests;
#[cfg(test)]
mod remote_tests;
#[cfg(test)]
mod setups;
