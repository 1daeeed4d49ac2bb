//! The rows that a tape begins with: a restart of the tape takes rows out and adds others, and moves none until
//! many are gone.
#![tactic(auto)]

mod appending;
mod columns;
mod flags;
mod gone;
mod left;
mod load_rows;
mod part;
mod two_lists;

pub use load_rows::LoadRows;
