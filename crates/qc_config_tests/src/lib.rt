//! Tests of connection ids, of settings and of tokens. There is nothing here but tests.
#![tactic(auto)]

#[cfg(test)]
mod announcement_tests;
#[cfg(test)]
mod cache_tests;
#[cfg(test)]
mod ids_tests;
#[cfg(test)]
mod setting_tests;
#[cfg(test)]
mod token_tests;
