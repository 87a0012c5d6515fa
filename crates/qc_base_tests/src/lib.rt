//! Tests of the numbers, names and small types of `qc_base`. There is nothing here but tests.
#![tactic(auto)]

#[cfg(test)]
mod mask_tests;
#[cfg(test)]
mod number_tests;
#[cfg(test)]
mod range_tests;
#[cfg(test)]
mod value_tests;
