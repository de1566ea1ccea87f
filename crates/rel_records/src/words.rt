//! The words with which records begin.

/// Of the record that makes a node.
pub const MADE: &str = "made";

/// Of the record that brings a further release.
pub const UNPACKED: &str = "unpacked";

/// Of the record of a whole list.
pub const IMAGE: &str = "image";
