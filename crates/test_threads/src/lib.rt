//! Tests of what threads share, each by threads that really run, and of the one call of a filed core that no store makes.
#![tactic(auto)]

#[cfg(test)]
mod board_tests;
#[cfg(test)]
mod file_tests;
#[cfg(test)]
mod filed_tests;
#[cfg(test)]
mod lane_tests;
#[cfg(test)]
mod locked_tests;
#[cfg(test)]
mod schemas;
