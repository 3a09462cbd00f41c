// The image: its layout, its bodies and what they tell, as definitions in specs/; the laws that writing and reading undo
// each other in proofs/. The code is in `image_out`, `image_in` and `image`.
#![tactic(auto)]

use rules::Device;

// The bodies of an image; version 1 has not the last.
#[derive(Clone, Copy)]
pub struct Bodies {
    pub registers: [u8; Device::REGISTERS],
    pub counts: [u8; 9],
    pub pins: [u8; 7],
    pub lines: [u8; 2],
    pub transfers: [u8; 8],
}

// The same bodies where they stand in an image; of version 1 the last is empty.
#[derive(Clone, Copy)]
pub struct Parts<'a> {
    pub registers: &'a [u8],
    pub counts: &'a [u8],
    pub pins: &'a [u8],
    pub lines: &'a [u8],
    pub transfers: &'a [u8],
}
