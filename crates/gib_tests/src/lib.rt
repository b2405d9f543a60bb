//! Tests of the top call with files and sinks in memory, and such as cross crates.
#![tactic(auto)]

#[cfg(test)]
mod checking;
#[cfg(test)]
mod copied;
#[cfg(test)]
mod copies;
#[cfg(test)]
mod failing;
#[cfg(test)]
mod forking;
#[cfg(test)]
mod harness;
#[cfg(test)]
mod locations;
#[cfg(test)]
mod meanings;
#[cfg(test)]
mod meeting;
#[cfg(test)]
mod printed;
#[cfg(test)]
mod programs;
#[cfg(test)]
mod texts;
#[cfg(test)]
mod words;
