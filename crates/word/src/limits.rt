// The document's limits.
pub const MOST_NODES: u32 = 512;

// Inputs or outputs of a node.
pub const WIDEST: u32 = 32;

// Control slots, numbered from 0.
pub const SLOTS: u32 = 16;

pub const LAST_SLOT: u32 = SLOTS - 1;

pub const LONGEST_DELAY: u32 = 4095;

pub const MOST_INSTRUCTIONS: u32 = 2048;

pub const MOST_CELLS: u32 = 16384;

pub const MOST_TICKS: u32 = 4096;

pub const MOST_PROBES: u32 = 16;

// The same as the sizes of lists.
pub const NODES: usize = MOST_NODES as usize;

// The numbers of the largest table, three to a node.
pub const TABLE_NUMBERS: usize = 3 * NODES;

pub const BEAM: usize = WIDEST as usize;

pub const CONTROLS: usize = SLOTS as usize;

pub const CELLS: usize = MOST_CELLS as usize;

pub const PROBES: usize = MOST_PROBES as usize;
