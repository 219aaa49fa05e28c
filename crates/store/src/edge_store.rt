// The store's two tables, and what ties them together.
ghost use Rattle.std.specs.Prelude.{◌≤◌, vec_len, vec_capacity};
ghost use Rattle.store.specs.Links.{Firsts, Nexts, Within, edges_in};
ghost use Rattle.store.specs.declared.direction.Direction.{Direction};

use crate::link::{Link, Node};

mod methods;

// Up to 512 nodes and 2,048 edges, their memory taken when the store is made.
#[derive(Drop)]
pub struct EdgeStore {
    nodes: Vec<Node>,
    links: Vec<Link>,
    ghost nodes_fit: { 512 ≤ vec_capacity nodes },
    ghost links_fit: { 2048 ≤ vec_capacity links },
    ghost firsts: { (d : Direction) → Firsts d nodes.items (edges_in links.items) },
    ghost nexts: { (d : Direction) → Nexts d links.items },
    ghost within: { (d : Direction) → Within d nodes.items links.items },
    ghost few_nodes: { vec_len nodes ≤ 512 },
}
