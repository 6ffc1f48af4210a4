// Numbers as IEEE 754 binary32 floats: a device's values as they are sent, what a register takes as it is
// received, and the four bytes of each on the wire (01, "The bus"; Change 1).
#![tactic(auto)]

pub mod received;
pub mod sent;
pub mod wire;
