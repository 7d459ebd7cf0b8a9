// Tests of the library `frames`, apart from it so that it is proved once.
#![tactic(auto)]

#[cfg(test)]
mod tests;
