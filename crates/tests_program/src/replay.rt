//! Tests of scripts and their replays: the printed text, which lines may stand where, and that the calls succeed with
//! memory at hand.
mod calls;
mod pieces;
mod rows;
mod syntax;
mod worlds;
