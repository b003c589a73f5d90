//! Laws of a run whose turns are made through a desk of their own, beside others who use the channel: what its journal notes is
//! what its network was told.
#![tactic(auto)]

mod laws;

pub use laws::a_run_beside_others_keeps_its_traffic;
