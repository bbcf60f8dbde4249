//! Tests of the model, of runs, of the audit, of the store and of the program. They stand in a
//! crate of their own, since a crate with tests is proved twice; and in one, since each crate of
//! tests is a program, which costs the gate a reading of all that it is linked of.
#![tactic(auto)]

#[cfg(test)]
mod tests;
