// Inner: the map of the two work buffers, what stands where and how wide it is packed. Definitions: specs/Map.

// The words that a call needs of each buffer.
pub const WORDS: usize = 8192;

// First buffer: the weights of the slots stand from 0 on, and from here on the words of their cells; after the steps
// the row words of the pairs left and their lower cells. While a group is solved the table of its sets stands in place
// of the lower cells; after the way back, behind the pairs, their records of the origin list.
pub const CELL_WORDS: usize = 4096;

pub const SETS: usize = 4096;

pub const ORIGIN_WORDS: usize = 4096;

// Second buffer: the trail stands from 0 on in so many words; then for each cell the sum of its slots and its last
// slot, the steps as words of a slip, and the table of partners.
pub const TRAIL_WORDS: usize = 4096;

pub const SUMS: usize = 4096;

pub const LASTS: usize = 5120;

pub const NAMES: usize = 6144;

pub const TABLE: usize = 7168;

// While groups are solved, behind the trail: for each cell the start of the run of its rows; for crate sets the points
// between the places of a group, and their cells; for each cell its label, and above it its link.
pub const STARTS: usize = 4096;

pub const POINTS: usize = 5120;

pub const PLACES: usize = 5264;

pub const LABELS: usize = 6144;

pub const LINK_FIELD: u64 = 2048;

// A row word is a cell above the points of a pair: one of the cell.
pub const POINTS_UNIT: u64 = 18014398509481984;

// Below this is a cell in every word: in that of a slot the lower cell, and above it the higher one; in that of a step
// the cell below the rule.
pub const CELL_FIELD: u64 = 1024;

// Below this is the partner in a word of the table; above it the stamp of where the pair came from.
pub const PARTNER_FIELD: u64 = 2048;

// One of the first, and of the second, cell of a pair in the word of a pairing.
pub const PAIR_A: u64 = 16384;

pub const PAIR_B: u64 = 16;
