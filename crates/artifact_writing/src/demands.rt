ghost use Rattle.std.specs.Prelude.{◌≡◌, nat_lt};
ghost use Rattle.std.specs.List.{list_all};
ghost use Rattle.core_ir.specs.Constraints.{is_constraint_before};
ghost use Rattle.core_ir.specs.Plain.{lists_of};
ghost use Rattle.artifact_codec.specs.Demands.{ascend, is_after, is_constraint, has_third, is_set, is_short, are_constraints, are_sets, are_colours};
ghost use Rattle.artifact_writing.specs.Orders.{is_site_before};

use core_ir::Constraint;
use sv_base::{Colour, SiteId};

fn has_third(rule: u8) -> bool
    ensures { result ≡ has_third rule }
{
    matches!(rule, 5 | 6 | 7)
}

fn is_constraint(c: Constraint) -> bool
    ensures { result ≡ is_constraint c }
{
    if c.rule < 1 {
        return false;
    }
    if c.rule > 8 {
        return false;
    }
    has_third(c.rule) || c.third == 0
}

fn is_constraint_after(last: Option<Constraint>, c: Constraint) -> bool
    ensures { result ≡ is_after is_constraint_before last c }
{
    match last {
        None => true,
        Some(last) => last < c,
    }
}

pub(crate) fn is_above(last: Option<u32>, n: u32) -> bool
    ensures { result ≡ is_after nat_lt last n }
{
    match last {
        None => true,
        Some(last) => last < n,
    }
}

fn constraints_ascend(list: &[Constraint]) -> bool
    ensures { result ≡ ascend is_constraint_before list.now }
{
    let mut last = None;
    for c in list {
        if !is_constraint_after(last, *c) {
            return false;
        }
        last = Some(*c);
    }
    true
}

fn are_all_constraints(list: &[Constraint]) -> bool
    ensures { result ≡ list_all is_constraint list.now }
{
    list.iter().all(|c| is_constraint(*c))
}

/// Whether constraints can be written: few enough, each of one of the eight rules, and ascending.
pub fn are_constraints(list: &[Constraint]) -> bool
    ensures { result ≡ are_constraints list.now }
{
    list.len() < 4294967296 && are_all_constraints(list) && constraints_ascend(list)
}

fn numbers_ascend(list: &[u32]) -> bool
    ensures { result ≡ ascend nat_lt list.now }
{
    let mut last = None;
    for n in list {
        if !is_above(last, *n) {
            return false;
        }
        last = Some(*n);
    }
    true
}

fn is_set(list: &[u32]) -> bool
    ensures { result ≡ is_set list.now }
{
    list.len() < 4294967296 && numbers_ascend(list)
}

fn are_all_sets(sets: &[Vec<u32>]) -> bool
    ensures { result ≡ list_all is_set (lists_of sets.now) }
{
    for set in sets {
        if !is_set(set) {
            return false;
        }
    }
    true
}

/// Whether sets can be written: few enough, and each ascending.
pub fn are_sets(sets: &[Vec<u32>]) -> bool
    ensures { result ≡ are_sets (lists_of sets.now) }
{
    sets.len() < 4294967296 && are_all_sets(sets)
}

fn is_site_after(last: Option<(SiteId, Colour)>, x: (SiteId, Colour)) -> bool
    ensures { result ≡ is_after is_site_before last x }
{
    match last {
        None => true,
        Some(last) => last.0.0 < x.0.0,
    }
}

fn sites_ascend(list: &[(SiteId, Colour)]) -> bool
    ensures { result ≡ ascend is_site_before list.now }
{
    let mut last = None;
    for x in list {
        if !is_site_after(last, *x) {
            return false;
        }
        last = Some(*x);
    }
    true
}

/// Whether colours can be written: few enough, and their sites ascending.
pub fn are_colours(list: &[(SiteId, Colour)]) -> bool
    ensures { result ≡ are_colours list.now }
{
    list.len() < 4294967296 && sites_ascend(list)
}
