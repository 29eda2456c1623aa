//! The slow interpreter of flat guest memory, over maps: what it answers is
//! the flat history, line by line.
#![tactic(auto)]

mod copies;
mod dirty_frames;
mod free_frames;
mod host_pages;
mod images;
mod plain;

pub use plain::Plain;
