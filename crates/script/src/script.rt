// A script that has been read.
use book::Call;

// The charge at the bottom, with its setting as it was written.
#[derive(Clone, Copy)]
pub enum Plain {
    Volumetric(u8),
    Hybrid(u8),
}

// A transition layer as it was written.
#[derive(Clone, Copy)]
pub struct Layer {
    pub tenths: u8,
    // As it is: a rule of the project: the charge takes sixteen caps, whatever the owners' count.
    pub caps: [u32; 16],
}

#[derive(Drop)]
pub struct Script {
    pub areas: Vec<u8>,
    pub charge: Plain,
    // Each stands on the one before it, the first on the charge; at most three.
    pub layers: Vec<Layer>,
    // How many entries the journal has room for, and how many lines the roll.
    pub journal: u16,
    pub roll: u16,
    pub calls: Vec<Call>,
}
