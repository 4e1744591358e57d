ghost use Rattle.std.specs.Prelude.{◌≡◌, IfOk, map};
ghost use Rattle.verdicts.specs.Verdicts.{common, verdict, verdict_of, IsTally};

use std::alloc::Global;
use std::collections::HashMap;
use sv_base::{Colour, NoMemory, SiteId};

// What two visits of one site give.
fn common(a: Colour, b: Colour) -> Colour
    ensures { result ≡ common a b }
{
    match (a, b) {
        (Colour::Unreachable, _) => b,
        (_, Colour::Unreachable) => a,
        (Colour::Green, Colour::Green) => Colour::Green,
        (Colour::Red, Colour::Red) => Colour::Red,
        _ => Colour::Orange,
    }
}

// By site what its visits give.
fn tally(alloc: Global, visits: &[(SiteId, Colour)]) -> Result<HashMap<u32, Colour>, NoMemory>
    ensures { IfOk result (λ found. IsTally found visits.now) }
{
    let mut found = HashMap::new(alloc);
    for (site, colour) in visits {
        let before = found.get(&site.0).copied().unwrap_or(Colour::Unreachable);
        found.insert(site.0, common(before, *colour))?;
    }
    Ok(found)
}

/// The colours of the sites, one for each and in their order: the common colour of a site's visits, unreachable ones aside, and orange
/// where they have no common colour. A site without a visit is unreachable.
pub fn colours(
    alloc: Global,
    sites: &[SiteId],
    visits: &[(SiteId, Colour)],
) -> Result<Vec<(SiteId, Colour)>, NoMemory>
    ensures { IfOk result (λ found. found.items ≡ map (verdict_of visits.now) sites.now) }
{
    let found = tally(alloc, visits)?;
    let mut verdicts = Vec::new(alloc);
    for site in sites {
        let colour = found.get(&site.0).copied().unwrap_or(Colour::Unreachable);
        verdicts.push((*site, colour))?;
    }
    Ok(verdicts)
}
