// A graph of blocks: their table and the store of the edges between them.
ghost use Rattle.std.specs.Prelude.{◌≡◌, length};
ghost use Rattle.blocks.specs.TablesView.{marks_of};
ghost use Rattle.store.specs.View.{nodes_of};

use crate::basic_blocks::BasicBlocks;
use store::edge_store::EdgeStore;

mod methods;

// Each block is a node of the store.
#[derive(Drop)]
pub struct BlockGraph {
    basic_blocks: BasicBlocks,
    store: EdgeStore,
    ghost level: { nodes_of store ≡ length (marks_of basic_blocks) },
}
