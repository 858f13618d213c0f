//! Caches above the verified LRU map.
//!
//! [`PageCache`] is a write-back cache of a [`BlockDevice`]. [`FileDevice`] and [`HashedFileDevice`] are devices over a
//! [`Durable`] file. [`Memo`] stores the newest results of a function. [`Loader`] does the same for a function that may
//! fail, and [`MemoTable`] for a function that calls itself. [`OrderedMap`] is a hash map whose entries are in the
//! order of insertion. [`CountedMap`] is a map that counts hits, misses and evictions.
#![tactic(auto)]

mod counted;
mod device;
mod file_device;
mod memo;
mod ordered_map;
mod page_cache;

pub use counted::{CountedMap, Counts};
pub use device::BlockDevice;
pub use file_device::durable::Durable;
pub use file_device::hashed::HashedFileDevice;
pub use file_device::{FileDevice, FileError};
pub use memo::Memo;
pub use memo::loader::Loader;
pub use memo::table::{MemoTable, Question};
pub use ordered_map::OrderedMap;
pub use ordered_map::entries::Entries;
pub use ordered_map::into_entries::IntoEntries;
pub use ordered_map::keys::{Keys, Values};
pub use page_cache::{PageCache, PageError, Unclosed};
