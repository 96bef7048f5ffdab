//! Tests of the examples that are there to be copied, of foreign types and values, as those who embed the
//! crates write them, and of the documents' samples.
#![tactic(auto)]

#[cfg(test)]
mod bare;
#[cfg(test)]
mod examples;
#[cfg(test)]
mod faulty;
#[cfg(test)]
mod readme;
