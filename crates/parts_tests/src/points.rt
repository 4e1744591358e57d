use core_ir::{
    ClassTable, Constraint, FunctionNodes, LayoutPart, Leaf, PartClass, RegionClass, Solution,
};
use points_to::{Bits, closed, fits, solve};
use std::alloc::Global;
use std::test::Fail;
use sv_base::NoMemory;

#[test]
fn adds_and_unites(rt: HostRuntime) -> Result<(), Fail> {
    let mut set = Bits::new(rt.alloc());
    assert!(rt; set.is_empty());
    assert!(rt; set.add(3)?);
    assert!(rt; !set.add(3)?);
    let mut other = Bits::new(rt.alloc());
    assert!(rt; other.add(70)?);
    assert!(rt; other.add(3)?);
    assert!(rt; set.unite(&other)?);
    assert!(rt; !set.unite(&other)?);
    assert!(rt; set.contains(70) && !set.contains(6));
    assert!(rt; set.add(4_294_967_295)?);
    assert!(rt; set.add(0)?);
    assert_eq!(rt;
        set.members(rt.alloc())?.as_slice(),
        [0, 3, 70, 4_294_967_295].as_slice()
    );
    let rest = set.without(rt.alloc(), &other)?;
    assert_eq!(rt;
        rest.members(rt.alloc())?.as_slice(),
        [0, 4_294_967_295].as_slice()
    );
    Ok(())
}

// A region class with one leaf class, of a type 9. In the first one, sub-object 5 is the second.
fn region(alloc: Global, leaf: u32, part: Option<PartClass>) -> Result<RegionClass, NoMemory> {
    let mut leaves = Vec::new(alloc);
    leaves.push(leaf)?;
    let mut like = Vec::new(alloc);
    like.push(leaf)?;
    let mut layouts = Vec::new(alloc);
    layouts.push(LayoutPart {
        layout: 9,
        leaves: like,
    })?;
    let mut parts = Vec::new(alloc);
    if let Some(part) = part {
        parts.push(part)?;
    }
    Ok(RegionClass {
        length: 8,
        leaves,
        parts,
        layouts,
    })
}

// Registers 0 to 3, of which 2 and 3 are the entry register and the result of function 0, and leaf classes with nodes 4 and 5.
fn table(alloc: Global) -> Result<ClassTable, NoMemory> {
    let mut regions = Vec::new(alloc);
    regions.push(region(alloc, 0, Some(PartClass { part: 5, class: 1 }))?)?;
    regions.push(region(alloc, 1, None)?)?;
    let mut leaves = Vec::new(alloc);
    leaves.push(Leaf::Pointer)?;
    leaves.push(Leaf::Pointer)?;
    let mut entries = Vec::new(alloc);
    entries.push(2)?;
    let mut nodes = Vec::new(alloc);
    nodes.push(FunctionNodes {
        entries,
        result: Some(3),
    })?;
    Ok(ClassTable {
        registers: 4,
        regions,
        leaves,
        rivals: Vec::new(alloc),
        nodes,
    })
}

const NONE: u32 = 4_294_967_295;

const FUNCTION: u32 = 2_147_483_648;

// A rule, its target, source and third; the one member of each of six sets; and a set that has to have its member.
const RULES: [[u32; 11]; 8] = [
    [1, 0, 7, 0, 7, NONE, NONE, NONE, NONE, NONE, 0],
    [2, 0, 1, 0, 7, 7, NONE, NONE, NONE, NONE, 0],
    [3, 0, 1, 0, 7, 0, NONE, NONE, 7, NONE, 0],
    [4, 0, 1, 0, 0, 7, NONE, NONE, 7, NONE, 4],
    [5, 0, 1, 5, 1, 0, NONE, NONE, NONE, NONE, 0],
    [6, 0, 1, 9, 0, 1, NONE, NONE, 7, 7, 4],
    [7, 0, 1, 0, FUNCTION, 7, 7, NONE, NONE, NONE, 2],
    [8, 0, 1, 0, 7, FUNCTION, NONE, 7, NONE, NONE, 0],
];

// The sets of a row, without one of them.
fn family(alloc: Global, row: &[u32; 11], left_out: u32) -> Result<Solution, NoMemory> {
    let mut sets = Vec::new(alloc);
    for node in 0..6 {
        let mut set = Vec::new(alloc);
        if row[4 + node] != NONE && node as u32 != left_out {
            set.push(row[4 + node])?;
        }
        sets.push(set)?;
    }
    Ok(Solution { sets })
}

fn is_closed(alloc: Global, row: &[u32; 11], left_out: u32) -> Result<bool, NoMemory> {
    let mut all = Vec::new(alloc);
    all.push(Constraint {
        rule: (row[0] & 0xff) as u8,
        target: row[1],
        source: row[2],
        third: row[3],
    })?;
    Ok(closed(6, &all, &table(alloc)?, &family(alloc, row, left_out)?))
}

#[test]
fn each_rule_is_asked_for(rt: HostRuntime) -> Result<(), Fail> {
    for row in RULES.iter() {
        assert!(rt; is_closed(rt.alloc(), row, NONE)?);
        assert!(rt; !is_closed(rt.alloc(), row, row[10])?);
    }
    Ok(())
}

fn push(
    all: &mut Vec<Constraint>,
    rule: u8,
    target: u32,
    source: u32,
    third: u32,
) -> Result<(), NoMemory> {
    all.push(Constraint {
        rule,
        target,
        source,
        third,
    })?;
    Ok(())
}

// The solution, where all nodes are in range.
fn solved(
    alloc: Global,
    nodes: u32,
    all: &[Constraint],
    classes: &ClassTable,
) -> Result<Option<Solution>, NoMemory> {
    if !fits(nodes, all, classes) {
        return Ok(None);
    }
    Ok(Some(solve(alloc, nodes, all, classes)?))
}

// Whether the set of each of the first nodes is the one member 3.
fn are_threes(sets: &[Vec<u32>]) -> bool {
    for set in sets {
        if set.as_slice() != [3].as_slice() {
            return false;
        }
    }
    true
}

#[test]
fn a_chain_hands_its_member_on(rt: HostRuntime) -> Result<(), Fail> {
    let mut all = Vec::new(rt.alloc());
    push(&mut all, 1, 1999, 3, 0)?;
    for node in 0..1999 {
        push(&mut all, 2, node, node + 1, 0)?;
    }
    let classes = table(rt.alloc())?;
    match solved(rt.alloc(), 2000, &all, &classes)? {
        Some(solution) => {
            assert!(rt; solution.sets.len() == 2000);
            assert!(rt; are_threes(&solution.sets));
        }
        None => assert!(rt; false),
    }
    Ok(())
}

#[test]
fn a_circle_gives_each_node_its_members(rt: HostRuntime) -> Result<(), Fail> {
    let mut all = Vec::new(rt.alloc());
    push(&mut all, 1, 0, 7, 0)?;
    push(&mut all, 2, 1, 0, 0)?;
    push(&mut all, 2, 0, 1, 0)?;
    let classes = table(rt.alloc())?;
    match solved(rt.alloc(), 3, &all, &classes)? {
        Some(solution) => {
            assert!(rt; solution.sets.len() == 3);
            assert_eq!(rt; solution.sets[0].as_slice(), [7].as_slice());
            assert_eq!(rt; solution.sets[1].as_slice(), [7].as_slice());
            assert!(rt; solution.sets[2].is_empty());
        }
        None => assert!(rt; false),
    }
    Ok(())
}

// Each rule from the addresses of the row's members, and the member that it adds to the row's last set.
fn rule_adds(alloc: Global, row: &[u32; 11]) -> Result<bool, NoMemory> {
    let mut all = Vec::new(alloc);
    push(&mut all, (row[0] & 0xff) as u8, row[1], row[2], row[3])?;
    for node in 0..6 {
        if row[4 + node] != NONE && node as u32 != row[10] {
            push(&mut all, 1, node as u32, row[4 + node], 0)?;
        }
    }
    let classes = table(alloc)?;
    match solved(alloc, 6, &all, &classes)? {
        Some(solution) => Ok(
            closed(6, &all, &classes, &solution)
                && solution.sets.len() == 6
                && (row[10] as usize) < 6
                && solution.sets[row[10] as usize].len() == 1,
        ),
        None => Ok(false),
    }
}

#[test]
fn each_rule_adds_its_member(rt: HostRuntime) -> Result<(), Fail> {
    for row in RULES.iter() {
        assert!(rt; rule_adds(rt.alloc(), row)?);
    }
    Ok(())
}

#[test]
fn a_node_out_of_range_does_not_fit(rt: HostRuntime) -> Result<(), Fail> {
    let mut all = Vec::new(rt.alloc());
    push(&mut all, 2, 1, 2, 0)?;
    let classes = table(rt.alloc())?;
    assert!(rt; fits(3, &all, &classes));
    assert!(rt; !fits(2, &all, &classes));
    push(&mut all, 3, 0, 1, 0)?;
    assert!(rt; !fits(3, &all, &classes));
    assert!(rt; fits(6, &all, &classes));
    Ok(())
}
