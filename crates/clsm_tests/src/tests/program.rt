//! What the program is made of that no session can say (`tests/sessions` has those): reads, writes
//! and memory that fail, bytes that are no text, wrong orders of steps, and runs whose records are
//! looked at.
mod conditions;
mod counts;
mod device;
mod explore;
mod failing;
mod lines;
mod run;
