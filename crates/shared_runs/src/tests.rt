//! Channels that threads share, and what is told of their ends.

mod calls;
mod each_call;
mod ending;
mod example;
mod four_threads;
mod held_alone;
mod held_by_two;
mod holds;
mod moves;
mod one_pass;
mod replies;
mod row;
mod rows;
mod running;
mod telling;
mod two_threads;
mod untold;

use chan_types::Orders;

/// Callbacks ask further.
const FOLLOW: Orders = Orders {
    follow: true,
    first: false,
    quit: false,
};
