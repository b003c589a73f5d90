//! Turns and pauses over a network in memory and the channel of a desk of the tests' own; and the parts of a turn.

mod closed_desk;
mod frames;
mod links;
mod turns;
