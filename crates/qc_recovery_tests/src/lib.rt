//! Tests of packets in flight and of loss recovery. There is nothing here but tests and what they share.
#![tactic(auto)]

#[cfg(test)]
mod burst_tests;
#[cfg(test)]
mod counts_tests;
#[cfg(test)]
mod flight_tests;
#[cfg(test)]
mod loss_tests;
#[cfg(test)]
mod path_tests;
#[cfg(test)]
mod probe_tests;
#[cfg(test)]
mod sender;
#[cfg(test)]
mod settings_tests;
