//! Sets of items as persistent trees of three levels, whose nodes are shared.
#![tactic(auto)]

mod branch;
mod branch_node;
mod heads;
mod leaf;
mod leaf_node;
mod loading;
mod node;
mod nodes;
mod packed;
mod packing;
mod part;
mod row;
mod row_growth;
mod row_reads;
mod search;
mod tree;
mod tree_reads;
mod tree_store;

pub use tree::Tree;
