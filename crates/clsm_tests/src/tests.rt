//! Tests of the store: cases, each a table of acts that actors play on a store of its own. Of what
//! needs no store: tables of the model, of runs and of the audit. And of the program.
mod act;
mod actor;
mod batches;
mod case;
mod conditions;
mod downwards;
mod drawn;
mod gate;
mod held;
mod hints;
mod hot;
mod many;
mod messages;
mod model;
mod program;
mod retries;
mod settled;
mod tables;
mod transactions;
