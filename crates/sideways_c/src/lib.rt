//! The engine for callers that are not Rattle: what bindings/c/sideways.h declares.
//!
//! Each export's clause says what its call makes of what the handle shows: the engine, and the text and the rows that were
//! kept last. No export asks for more than its types do: what C could get wrong is told by a code.
#![tactic(auto)]

mod asking;
mod boxes;
mod changing;
mod codes;
mod handle;
mod histories;
mod holder;
mod inner;
mod inserting;
mod kept;
mod learning;
mod lines;
mod opening;
mod places;
mod selecting;
mod slot;
mod state;
mod told;
mod words;
