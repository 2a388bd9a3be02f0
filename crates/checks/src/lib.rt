// Tests that stand apart from the crates they test, so that those stay quick to prove.
#![tactic(auto)]

#[cfg(test)]
mod ends;
#[cfg(test)]
mod kinds;
#[cfg(test)]
mod numbers;
#[cfg(test)]
mod slips;
