use crate::nodes::{Node, NodeForm, Objects, Span};
use std::alloc::Global;
use sv_base::NoMemory;

// The leaf classes of a union before and behind those of one of its members.
#[derive(Clone, Copy)]
struct Beside {
    before: Span,
    behind: Span,
}

fn is_union(node: &Node) -> bool {
    matches!(node.form, NodeForm::Members { rival: true })
}

// The unions around a leaf, the innermost first, with what stands beside the member in which the leaf is.
fn unions_around(alloc: Global, objects: &Objects, leaf: u32) -> Result<Vec<Beside>, NoMemory> {
    let mut list = Vec::new(alloc);
    let mut inner = leaf;
    for _ in 0..objects.nodes.len() {
        let Some(node) = objects.node(inner) else {
            break;
        };
        let Some(number) = node.parent else {
            break;
        };
        if let Some(around) = objects.node(number) {
            if is_union(around) {
                list.push(Beside {
                    before: Span {
                        first: around.leaves.first,
                        end: node.leaves.first,
                    },
                    behind: Span {
                        first: node.leaves.end,
                        end: around.leaves.end,
                    },
                })?;
            }
        }
        inner = number;
    }
    Ok(list)
}

fn push_span(list: &mut Vec<u32>, span: Span) -> Result<(), NoMemory> {
    for class in span.first..span.end {
        list.push(class)?;
    }
    Ok(())
}

// The rivals of a leaf, ascending: those before it by the unions from the outermost one, those behind it from the innermost one.
fn rivals(alloc: Global, objects: &Objects, leaf: u32) -> Result<Vec<u32>, NoMemory> {
    let unions = unions_around(alloc, objects, leaf)?;
    let mut list = Vec::new(alloc);
    for union in unions.iter().rev() {
        push_span(&mut list, union.before)?;
    }
    for union in &unions {
        push_span(&mut list, union.behind)?;
    }
    Ok(list)
}

/// By leaf class, the leaf classes of the same object whose paths first part from its own at a union, ascending.
pub fn rival_classes(alloc: Global, objects: &Objects) -> Result<Vec<Vec<u32>>, NoMemory> {
    let mut all = Vec::new(alloc);
    let mut number = 0u32;
    for node in &objects.nodes {
        if let NodeForm::Scalar(_) = node.form {
            all.push(rivals(alloc, objects, number)?)?;
        }
        number = number.checked_add(1).ok_or(NoMemory)?;
    }
    Ok(all)
}
