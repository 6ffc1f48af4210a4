// The bus without a device (01, "The bus"): what a frame asks, and how a reply is put together.
#![tactic(auto)]

pub mod frame;
pub mod reply;
