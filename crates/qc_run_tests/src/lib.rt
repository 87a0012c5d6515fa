//! Tests of a script's run (`qc_run`) that are no texts: faults of source and sink, a connection that is called directly, and
//! two rings with toy keys. The texts are cases of the program `qc_cases`. There is nothing here but tests and what they share.
#![tactic(auto)]

#[cfg(test)]
mod direct_tests;
#[cfg(test)]
mod fault_tests;
#[cfg(test)]
mod ring_tests;
