//! Tests of a connection that is called directly, or driven where no script can make it. There is nothing here but tests and
//! what they share.
#![tactic(auto)]

#[cfg(test)]
mod batch_tests;
#[cfg(test)]
mod call_tests;
#[cfg(test)]
mod clients;
#[cfg(test)]
mod datagram_tests;
#[cfg(test)]
mod event_tests;
#[cfg(test)]
mod limit_tests;
#[cfg(test)]
mod number_tests;
#[cfg(test)]
mod timeout_tests;
#[cfg(test)]
mod timer_tests;
#[cfg(test)]
mod token_tests;
#[cfg(test)]
mod view_tests;
