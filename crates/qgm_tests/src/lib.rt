//! Tests of what only a program that calls the libraries can show: trees of texts, bags, files that fail,
//! and a sink that fails. All else that is tested stands in the scripts of `sql_cases`.
#![tactic(auto)]

#[cfg(test)]
mod bags;
#[cfg(test)]
mod faults;
#[cfg(test)]
mod files;
#[cfg(test)]
mod trees;
