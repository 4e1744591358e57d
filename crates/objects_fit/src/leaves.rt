use crate::nodes::{Node, NodeForm, Nodes};
use core_ir::Leaf;

/// What a scalar holds.
pub fn leaf_of(node: Node) -> Option<Leaf> {
    match node.form {
        NodeForm::Scalar(leaf) => Some(leaf),
        _ => None,
    }
}

// Whether a node is a scalar that holds this.
fn holds(nodes: &Nodes, number: u32, leaf: Leaf) -> bool {
    match nodes.node(number) {
        None => false,
        Some(node) => leaf_of(node) == Some(leaf),
    }
}

/// Whether a table has, by leaf class, what it holds.
pub(crate) fn leaves_fit(nodes: &Nodes, leaves: &[Leaf]) -> bool {
    let mut listed = leaves.iter();
    for number in &nodes.leaves {
        match listed.next() {
            None => return false,
            Some(leaf) => {
                if !holds(nodes, *number, *leaf) {
                    return false;
                }
            }
        }
    }
    listed.next().is_none()
}
