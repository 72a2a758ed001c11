// What a blocking costs, in pence, and how the settings share it (document 02, 2.3: tariff for a trial).
#![tactic(auto)]

pub mod bands;
pub mod counts;
pub mod prices;
pub mod shares;
