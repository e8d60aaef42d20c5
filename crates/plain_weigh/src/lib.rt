// Weighs the deeds of a setting with no table: how many entries its table has then, and how many bytes their texts take.
#![tactic(auto)]

pub mod weighing;
pub mod weights;
