// Tests of the library `lists`, apart from it so that it is proved once.
#![tactic(auto)]

#[cfg(test)]
mod tests;
