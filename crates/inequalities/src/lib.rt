// The inequalities of the sun and the moon, and the moon's motion.
#![tactic(auto)]

pub mod laws;
pub mod limits;
pub mod lunar;
pub mod motions;
pub mod solar;
