// The types that all calls share. The mathematics stands in specs/.
#![tactic(auto)]

pub mod refusals;

// The limits that documents 01 and 02 set.

// The most tides that a dataset holds.
pub const MAX_TIDES: usize = 120;

// The places of a table that has a row of MAX_TIDES places for each tide.
pub const TABLE_SIZE: usize = 14400;

// The most settings; there is a b for each.
pub const MAX_SETTINGS: usize = 8;

// The greatest k.
pub const MAX_K: u8 = 8;

// The greatest b0.
pub const MAX_BLOCK_MINIMUM: u8 = 120;

// The greatest distance.
pub const MAX_DISTANCE: u32 = 1048575;

// The users (document 02: keepers); there is a count of withdrawals for each.
pub const MAX_USERS: usize = 4;

// The greatest count of withdrawals.
pub const MAX_WITHDRAWALS: u16 = 65535;

// The minima: b0 for a whole block, and b for each of the 8 settings.
#[derive(Clone, Copy, PartialEq, Eq)]
pub struct Minima {
    pub b0: u8,
    pub b: [u8; MAX_SETTINGS],
}

// The record of a dataset (document 01: book); the distances and settings stand in memory that the caller lends.
#[derive(Clone, Copy, PartialEq, Eq)]
pub struct Dataset {
    pub k: u8,
    pub n: usize,
    pub minima: Minima,
    // How many tides each user has withdrawn, user u at place u - 1.
    pub withdrawn: [u16; MAX_USERS],
}

// Why a call is refused. `specs/Refusals.antt` gives each case its number in documents 01 and 02, and its values.
#[derive(Clone, Copy, PartialEq, Eq)]
pub enum Refusal {
    ShortMemory,
    SettingCount,
    Minima,
    RowLength,
    Setting,
    Distance,
    // The lower and the higher number of the first pair of tides with which the triangle rule breaks.
    TriangleInequality(usize, usize),
    FileLength,
    Mark,
    TideCount,
    FillBits,
    ListLength,
    // A table that is not the same both ways, or in which a tide is not at 0 from itself (document 02).
    NotSymmetric,
    // A user who is not 1 to 4 (document 02).
    NoSuchUser,
    // A new tide at distance 0 from a tide of its setting (document 02).
    Duplicate,
    // Pairs of shared tides on which two datasets don't agree, or datasets of different k (document 02).
    Mismatch,
    // Two datasets are to be merged, and no shared tide is named (document 02).
    NoSharedTide,
    NotDataset,
    Full,
    NoSuchTide,
    NoTides,
    TooFewTides,
    WithdrawalLimit,
}

// What Block says of one block: its centre's tide number, its number of tides, its diameter.
#[derive(Clone, Copy, PartialEq, Eq)]
pub struct BlockRecord {
    pub centre: u8,
    pub tides: u8,
    pub diameter: u32,
}

// What Block answers: the number of blocks, the radius, the greatest diameter.
#[derive(Clone, Copy, PartialEq, Eq)]
pub struct Figures {
    pub blocks: usize,
    pub radius: u32,
    pub widest: u32,
}
