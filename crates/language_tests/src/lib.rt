//! Rows of the languages of queries and of scripts: tokens, trees, types, statements and verdicts. The answers are worked out elsewhere.
#![tactic(auto)]

#[cfg(test)]
mod grammar;
#[cfg(test)]
mod lexing;
#[cfg(test)]
mod rows;
#[cfg(test)]
mod scripts;
#[cfg(test)]
mod trees;
#[cfg(test)]
mod types;
#[cfg(test)]
mod verdicts;
