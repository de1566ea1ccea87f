//! What a process begins with.
use crate::Name;
use mod_table::{Restart, Worker};

/// What a process begins with.
#[derive(Drop)]
pub struct Beginning {
    pub app: Name,
    pub id: Name,
    pub restart: Restart,
    pub table: Worker,
}
