// Tests of maps, floods and reach calls. They have a crate of their own, so that the crates they try are proved once.

#![tactic(auto)]

#[cfg(test)]
mod at_least;
#[cfg(test)]
mod tests;
