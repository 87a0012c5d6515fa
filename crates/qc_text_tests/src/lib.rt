//! Tests of what a script says (`qc_script`) and of the text of a trace (`qc_text`). There is nothing here but tests and what
//! they share.
#![tactic(auto)]

#[cfg(test)]
mod script_tests;
#[cfg(test)]
mod set_tests;
#[cfg(test)]
mod trace_tests;
