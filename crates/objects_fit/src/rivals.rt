use crate::nodes::{Node, NodeForm, Nodes, Span};
use std::alloc::Global;
use sv_base::NoMemory;

// The leaf classes of a union before and behind those of one of its members.
#[derive(Clone, Copy)]
struct Beside {
    before: Span,
    behind: Span,
}

fn beside_member(union: Node, member: Node) -> Beside {
    Beside {
        before: Span {
            first: union.leaves.first,
            end: member.leaves.first,
        },
        behind: Span {
            first: member.leaves.end,
            end: union.leaves.end,
        },
    }
}

// The unions around a leaf, the innermost first, with what stands beside the member in which the leaf is.
fn unions_around(nodes: &Nodes, leaf: Node, list: &mut Vec<Beside>) -> Result<(), NoMemory> {
    list.clear();
    let mut inner = leaf;
    for _ in 0..nodes.list.len() {
        let Some(number) = inner.parent else {
            break;
        };
        let Some(around) = nodes.node(number) else {
            break;
        };
        if let NodeForm::Members { rival: true } = around.form {
            list.push(beside_member(around, inner))?;
        }
        inner = around;
    }
    Ok(())
}

// Whether these numbers come next in a list, of which the answer is the rest.
fn without<'a>(list: &'a [u32], span: Span) -> Option<&'a [u32]> {
    let mut rest = list;
    for number in span.first..span.end {
        match rest.split_first() {
            Some((first, others)) if *first == number => rest = others,
            _ => return None,
        }
    }
    Some(rest)
}

// Whether a list has the rivals of a leaf, ascending: those before it by the unions from the outermost one, those behind it from the
// innermost one.
fn are_rivals(list: &[u32], unions: &[Beside]) -> bool {
    let mut rest = list;
    for union in unions.iter().rev() {
        match without(rest, union.before) {
            None => return false,
            Some(others) => rest = others,
        }
    }
    for union in unions {
        match without(rest, union.behind) {
            None => return false,
            Some(others) => rest = others,
        }
    }
    rest.is_empty()
}

// Whether a list has the rivals of a leaf class, of which this is the node.
fn rivals_are(
    nodes: &Nodes,
    number: u32,
    list: &[u32],
    unions: &mut Vec<Beside>,
) -> Result<bool, NoMemory> {
    let Some(leaf) = nodes.node(number) else {
        return Ok(false);
    };
    unions_around(nodes, leaf, unions)?;
    Ok(are_rivals(list, unions))
}

/// Whether a table has, by leaf class, those of the same object whose paths first part from its own at a union, ascending.
pub(crate) fn rivals_fit(
    alloc: Global,
    nodes: &Nodes,
    rivals: &[Vec<u32>],
) -> Result<bool, NoMemory> {
    let mut unions = Vec::new(alloc);
    let mut lists = rivals.iter();
    for number in &nodes.leaves {
        match lists.next() {
            None => return Ok(false),
            Some(list) => {
                if !rivals_are(nodes, *number, list, &mut unions)? {
                    return Ok(false);
                }
            }
        }
    }
    Ok(lists.next().is_none())
}
