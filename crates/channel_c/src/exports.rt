//! The calls as C makes them, over pointers that may be null: where one is, the answer is 12, and nothing is written.

mod asking;
mod copying;
mod looking;
mod making;
mod moving;
