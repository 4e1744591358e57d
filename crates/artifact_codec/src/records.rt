ghost use Rattle.artifact_codec.specs.computed.Reading.{Reads, constraint_at, write_at, site_colour_at};

use crate::fields::{byte_at, colour_at, number_at, signed_at};
use crate::refusal::Malformed;
use core_ir::{Constraint, WritePart};
use sv_base::{Colour, SiteId};

#[tactic(auto, unfolding(crate::specs::computed::Reading::constraint_at))]
pub(crate) fn constraint_at(bytes: &[u8]) -> Result<(Constraint, &[u8]), Malformed>
    ensures { Reads (λ x. (x.0, x.1.now)) result (constraint_at bytes.now) }
{
    let (rule, rest) = byte_at(bytes)?;
    let (target, rest) = number_at(rest)?;
    let (source, rest) = number_at(rest)?;
    let (third, rest) = number_at(rest)?;
    let constraint = Constraint {
        rule,
        target,
        source,
        third,
    };
    Ok((constraint, rest))
}

#[tactic(auto, unfolding(crate::specs::computed::Reading::write_at))]
pub(crate) fn write_at(bytes: &[u8]) -> Result<(WritePart, &[u8]), Malformed>
    ensures { Reads (λ x. (x.0, x.1.now)) result (write_at bytes.now) }
{
    let (class, rest) = number_at(bytes)?;
    let (low, rest) = signed_at(rest)?;
    let (high, rest) = signed_at(rest)?;
    Ok((WritePart { class, low, high }, rest))
}

#[tactic(auto, unfolding(crate::specs::computed::Reading::site_colour_at))]
pub(crate) fn site_colour_at(bytes: &[u8]) -> Result<((SiteId, Colour), &[u8]), Malformed>
    ensures { Reads (λ x. (x.0, x.1.now)) result (site_colour_at bytes.now) }
{
    let (site, rest) = number_at(bytes)?;
    let (colour, rest) = colour_at(rest)?;
    Ok(((SiteId(site), colour), rest))
}
