//! The map from byte strings to byte strings, under a budget of bytes.

pub mod answers;
pub mod calls;
pub mod exports;
pub mod handle;
pub mod keys;
