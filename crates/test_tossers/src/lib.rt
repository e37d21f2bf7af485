//! Worked examples of tossers, their base files, and nets, as tables of tests: what no row of examples/cases can show,
//! because no command prints it. Begin with `scripts`.
#![tactic(auto)]

#[cfg(test)]
mod bases;
#[cfg(test)]
mod faults;
#[cfg(test)]
mod refusals;
#[cfg(test)]
mod replays;
#[cfg(test)]
mod scripts;
#[cfg(test)]
mod steps;
#[cfg(test)]
mod verdicts;
