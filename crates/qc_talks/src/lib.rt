//! Tests of two whole connections, a client's and a server's: each end is driven, and what one sends is carried by hand to the
//! other. There is nothing here but tests and what they share.
#![tactic(auto)]

#[cfg(test)]
mod changing_tests;
#[cfg(test)]
mod closing_tests;
#[cfg(test)]
mod credit_tests;
#[cfg(test)]
mod cuts;
#[cfg(test)]
mod ends;
#[cfg(test)]
mod first_tests;
#[cfg(test)]
mod holding_tests;
#[cfg(test)]
mod losing_tests;
#[cfg(test)]
mod order_tests;
#[cfg(test)]
mod pair;
#[cfg(test)]
mod post_tests;
#[cfg(test)]
mod posts;
#[cfg(test)]
mod setups;
#[cfg(test)]
mod sign_tests;
#[cfg(test)]
mod size_tests;
#[cfg(test)]
mod stream_tests;
#[cfg(test)]
mod tally;
#[cfg(test)]
mod token_tests;
#[cfg(test)]
mod update_tests;
