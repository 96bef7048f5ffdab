//! Tests of JSON, by rows worked by hand from the table in docs/FORMATS.md.
#![tactic(auto)]

#[cfg(test)]
mod rows;
