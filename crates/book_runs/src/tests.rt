//! Texts of runs by hand, after the manual of the format.

mod bad_lines;
mod limits;
mod whole;
