//! What tests share.
#![tactic(auto)]

mod hashers;
mod hog;
mod insert_key;
mod limiters;
mod random;

pub use hashers::LastByte;
pub use hog::Hog;
pub use insert_key::{Counting, InsertKey};
pub use limiters::{Alternating, Blanking, LinkedBy};
pub use random::Random;

/// Ends a test if the condition is false.
#[macro_export]
macro_rules! check {
    ($rt:expr; $holds:expr) => {
        if !$holds {
            std::process::Abort::abort(&$rt);
        }
    };
}

#[macro_export]
macro_rules! all {
    ($($holds:expr),+) => {
        $(($holds))&+
    };
}
