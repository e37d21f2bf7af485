//! Worked examples of the formats, as tables of tests: what no row of examples/cases can show, because no command prints
//! it. The `samples` serve the tests of test_tossers too. Begin with `ids`.
#![tactic(auto)]

#[cfg(test)]
mod addresses;
#[cfg(test)]
mod ids;
#[cfg(test)]
mod nodelists;
#[cfg(test)]
mod packet_devices;
#[cfg(test)]
mod packet_limits;
pub mod samples;
#[cfg(test)]
mod texts;
