//! What a cache keeps and gives, by rows that were worked out by hand, and beside a model that counts uses.

mod calls;
mod ends;
mod kept;
mod model;
mod recency;
