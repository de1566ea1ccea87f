//! The processes of a node.
use loaded_modules::Loaded;
use proc_table::{HandlerSeat, ProcTable};
use sup_tree::Tree;

/// The processes of a node: their table, the seat of the handler there, the started applications, and the loaded modules.
#[derive(Drop)]
pub struct Processes {
    /// The table in which they stand.
    pub table: ProcTable,
    /// The seat of the handler at it.
    pub seat: HandlerSeat,
    /// The started applications.
    pub tree: Tree,
    /// The loaded modules.
    pub loaded: Loaded,
}
