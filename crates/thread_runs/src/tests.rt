//! Hosts' addresses asked by several threads, over a network that answers from a zone and loses every third question once.

mod cancels;
mod looks_up;
mod network;
