//! Zones, queries and replies, byte by byte; the network in memory; whole runs of the nameserver; and its listener over loopback.

mod listener;
mod peers;
mod runs;
mod zones;
