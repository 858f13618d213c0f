//! Tests of the memory of a map, which no contract mentions.
mod clones;
mod live;
mod refused;
