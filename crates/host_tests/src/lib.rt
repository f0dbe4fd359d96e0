//! Tests of the host's edge: files, streams and folders of the machine that they run on.
#![tactic(auto)]

#[cfg(test)]
mod chips;
#[cfg(test)]
mod hosts;
