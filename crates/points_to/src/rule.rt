ghost use Rattle.std.specs.Prelude.{◌≡◌};
ghost use Rattle.points_to.specs.Rules.{rule_of};
ghost use Rattle.points_to.specs.Fits.{uses_table, has_source};
ghost use Rattle.points_to.specs.computed.Readers.{reads_target, reads_source, read_node};

use core_ir::Constraint;

/// What a constraint demands, by its number from 1 to 8.
#[derive(Clone, Copy)]
pub enum Rule {
    Address,
    Copy,
    Load,
    Store,
    SubObject,
    ObjectCopy,
    Argument,
    Result,
    Unknown,
}

pub(crate) fn rule_of(number: u8) -> Rule
    ensures { result ≡ rule_of number }
{
    match number {
        1 => Rule::Address,
        2 => Rule::Copy,
        3 => Rule::Load,
        4 => Rule::Store,
        5 => Rule::SubObject,
        6 => Rule::ObjectCopy,
        7 => Rule::Argument,
        8 => Rule::Result,
        _ => Rule::Unknown,
    }
}

/// The two sides of a constraint.
#[derive(Clone, Copy)]
pub(crate) enum Side {
    Target,
    Source,
}

fn reads_target(rule: Rule) -> bool
    ensures { result ≡ reads_target rule }
{
    match rule {
        Rule::Store | Rule::ObjectCopy | Rule::Argument => true,
        _ => false,
    }
}

fn reads_source(rule: Rule) -> bool
    ensures { result ≡ reads_source rule }
{
    match rule {
        Rule::Load | Rule::SubObject | Rule::ObjectCopy | Rule::Result => true,
        _ => false,
    }
}

/// The node whose set a constraint reads on one side, if it reads one.
pub(crate) fn read_node(side: Side, constraint: Constraint) -> Option<u32>
    ensures { result ≡ read_node side constraint }
{
    let rule = rule_of(constraint.rule);
    match side {
        Side::Target => {
            if reads_target(rule) {
                return Some(constraint.target);
            }
            return None;
        }
        Side::Source => {
            if reads_source(rule) {
                return Some(constraint.source);
            }
            return None;
        }
    }
}

/// Whether the demands of a rule reach nodes of the class table.
pub(crate) fn uses_table(rule: Rule) -> bool
    ensures { result ≡ uses_table rule }
{
    match rule {
        Rule::Load | Rule::Store | Rule::ObjectCopy | Rule::Argument | Rule::Result => true,
        _ => false,
    }
}

/// Whether the source of a rule is a node.
pub(crate) fn has_source(rule: Rule) -> bool
    ensures { result ≡ has_source rule }
{
    match rule {
        Rule::Address | Rule::Unknown => false,
        _ => true,
    }
}
