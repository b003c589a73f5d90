//! The calls of a channel for C, which `include/dachumvi.h` declares. Each calls its function of `boxed_channel`, and
//! states its clauses again, where there is a channel in C's word; where there is none, it answers so.
#![tactic(auto)]

mod answers;
mod asking;
mod copying;
mod exports;
mod looking;
mod making;
mod moving;
