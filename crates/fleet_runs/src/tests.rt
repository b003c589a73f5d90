//! A fleet that is made, used and ended.

mod calls;
mod routes;
mod steers;
mod uses;
