//! Tests of public calls of the libraries below the top call, and the bytes that these tests and those of the top call are given.
#![tactic(auto)]

#[cfg(test)]
mod access;
#[cfg(test)]
mod arena;
#[cfg(test)]
mod base;
pub mod bytes;
#[cfg(test)]
mod code;
#[cfg(test)]
mod cores;
#[cfg(test)]
mod edge;
#[cfg(test)]
mod example;
#[cfg(test)]
mod file;
#[cfg(test)]
mod forks;
#[cfg(test)]
mod lex;
#[cfg(test)]
mod load;
#[cfg(test)]
mod loccheck;
#[cfg(test)]
mod locked;
#[cfg(test)]
mod machine;
#[cfg(test)]
mod mem;
#[cfg(test)]
mod packed;
#[cfg(test)]
mod placing;
#[cfg(test)]
mod print;
#[cfg(test)]
mod region;
#[cfg(test)]
mod sample;
#[cfg(test)]
mod several;
#[cfg(test)]
mod terms;
#[cfg(test)]
mod types;
