//! Tests of frames, packet headers and transport parameters. There is nothing here but tests.
#![tactic(auto)]

#[cfg(test)]
mod frame_tests;
#[cfg(test)]
mod header_boundary_tests;
#[cfg(test)]
mod header_prefix_tests;
#[cfg(test)]
mod header_tests;
#[cfg(test)]
mod parameter_tests;
