// How a refusal is told to the host: its number, the layer that refused, and the octet at fault.

// The library that refused.
#[derive(Clone, Copy, PartialEq, Eq)]
pub enum Layer {
    Store,
    Frame,
    Engine,
}

// Octets of a frame count from 1; the octet is 0 where the host's own call is at fault. The number stays a number, since
// that is what the host reads; each library has an enum of its own for what went wrong.
#[derive(Clone, Copy, PartialEq, Eq)]
pub struct Refusal {
    pub number: u8,
    pub layer: Layer,
    pub octet: usize,
}
