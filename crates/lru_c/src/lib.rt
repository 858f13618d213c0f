//! Maps for programs in C and in Rust. Keys and values are numbers of 64 bits in one map, and byte strings in the
//! other.
//!
//! [`exports`] and [`bytes::exports`] have the functions that `bindings/c/lru.h` declares. C keeps a
//! [`Lru`](handle::Lru) or a [`LruBytes`](bytes::handle::LruBytes): the address of a map on the heap, or null.
//! `docs/FROM_C.md` says how to build and link a program.
#![tactic(auto)]

mod answers;
mod bytes;
mod calls;
mod exports;
mod handle;
mod raw_box;
