//! What a channel of a fleet is made with.

use hosts_file::Hosts;
use resolv_options::Options;

/// The options and the hosts of one channel.
#[derive(Drop)]
pub struct Setup {
    pub options: Options,
    pub hosts: Hosts,
}
