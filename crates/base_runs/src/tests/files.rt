//! What files say, after resolv.conf(5), hosts(5) and proc(5): examples by hand or of machines, as tables.

mod hosts;
mod lines;
mod options;
mod own;
mod settings;
