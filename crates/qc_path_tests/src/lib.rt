//! Tests of what one path and one packet number space keep. There is nothing here but tests and what they
//! share.
#![tactic(auto)]

#[cfg(test)]
mod arrival_tests;
#[cfg(test)]
mod controller_tests;
#[cfg(test)]
mod mtu_tests;
#[cfg(test)]
mod pacing_tests;
#[cfg(test)]
mod response_tests;
#[cfg(test)]
mod round_trip_tests;
#[cfg(test)]
mod skipping_tests;
#[cfg(test)]
mod space_tests;
#[cfg(test)]
mod times;
