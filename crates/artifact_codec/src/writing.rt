ghost use Rattle.std.specs.Prelude.{◌≡◌, ◌++◌, true, OnOk};
ghost use Rattle.std.specs.List.{flat_map, list_all};
ghost use Rattle.core_ir.specs.Plain.{lists_of};
ghost use Rattle.artifact_codec.specs.Spelling.{number, numbers, counted, constraint, colour_code, site_colour};
ghost use Rattle.artifact_codec.specs.Demands.{is_short};

use core_ir::Constraint;
use std::alloc::AllocError;
use sv_base::{Colour, SiteId};

// Each of these appends the spelling of a value.

#[tactic(auto, unfolding(crate::specs::Spelling::number))]
pub(crate) fn push_number(out: &mut Vec<u8>, n: u32) -> Result<(), AllocError>
    ensures { OnOk result (out.new.items ≡ out.old.items ++ number n) }
{
    out.extend_from_slice(&n.to_be_bytes())
}

fn push_constraint(out: &mut Vec<u8>, c: &Constraint) -> Result<(), AllocError>
    ensures { OnOk result (out.new.items ≡ out.old.items ++ constraint c.now) }
{
    out.push(c.rule)?;
    push_number(out, c.target)?;
    push_number(out, c.source)?;
    push_number(out, c.third)
}

fn push_each_constraint(out: &mut Vec<u8>, constraints: &[Constraint]) -> Result<(), AllocError>
    ensures { OnOk result (out.new.items ≡ out.old.items ++ flat_map constraint constraints.now) }
{
    for c in constraints {
        push_constraint(out, c)?;
    }
    Ok(())
}

pub(crate) fn push_constraints(
    out: &mut Vec<u8>,
    constraints: &[Constraint],
) -> Result<(), AllocError>
    requires { is_short constraints.now ≡ true }
    ensures { OnOk result (out.new.items ≡ out.old.items ++ counted constraint constraints.now) }
{
    push_number(out, constraints.len() as u32)?;
    push_each_constraint(out, constraints)
}

fn push_each_number(out: &mut Vec<u8>, list: &[u32]) -> Result<(), AllocError>
    ensures { OnOk result (out.new.items ≡ out.old.items ++ flat_map number list.now) }
{
    for n in list {
        push_number(out, *n)?;
    }
    Ok(())
}

fn push_numbers(out: &mut Vec<u8>, list: &[u32]) -> Result<(), AllocError>
    requires { is_short list.now ≡ true }
    ensures { OnOk result (out.new.items ≡ out.old.items ++ numbers list.now) }
{
    push_number(out, list.len() as u32)?;
    push_each_number(out, list)
}

fn push_each_list(out: &mut Vec<u8>, lists: &[Vec<u32>]) -> Result<(), AllocError>
    requires { list_all is_short (lists_of lists.now) ≡ true }
    ensures { OnOk result (out.new.items ≡ out.old.items ++ flat_map numbers (lists_of lists.now)) }
{
    for list in lists {
        push_numbers(out, list)?;
    }
    Ok(())
}

pub(crate) fn push_lists(out: &mut Vec<u8>, lists: &[Vec<u32>]) -> Result<(), AllocError>
    requires count { is_short lists.now ≡ true }
    requires each { list_all is_short (lists_of lists.now) ≡ true }
    ensures { OnOk result (out.new.items ≡ out.old.items ++ counted numbers (lists_of lists.now)) }
{
    push_number(out, lists.len() as u32)?;
    push_each_list(out, lists)
}

fn colour_code(colour: Colour) -> u8
    ensures { result ≡ colour_code colour }
{
    match colour {
        Colour::Unreachable => 0,
        Colour::Green => 1,
        Colour::Orange => 2,
        Colour::Red => 3,
    }
}

fn push_site_colour(out: &mut Vec<u8>, pair: (SiteId, Colour)) -> Result<(), AllocError>
    ensures { OnOk result (out.new.items ≡ out.old.items ++ site_colour pair) }
{
    let (site, colour) = pair;
    push_number(out, site.0)?;
    out.push(colour_code(colour))?;
    Ok(())
}

fn push_each_colour(out: &mut Vec<u8>, colours: &[(SiteId, Colour)]) -> Result<(), AllocError>
    ensures { OnOk result (out.new.items ≡ out.old.items ++ flat_map site_colour colours.now) }
{
    for pair in colours {
        push_site_colour(out, *pair)?;
    }
    Ok(())
}

pub(crate) fn push_colours(
    out: &mut Vec<u8>,
    colours: &[(SiteId, Colour)],
) -> Result<(), AllocError>
    requires { is_short colours.now ≡ true }
    ensures { OnOk result (out.new.items ≡ out.old.items ++ counted site_colour colours.now) }
{
    push_number(out, colours.len() as u32)?;
    push_each_colour(out, colours)
}
