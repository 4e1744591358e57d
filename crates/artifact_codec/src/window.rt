ghost use Rattle.std.specs.Prelude.{◌≡◌, ℕ, Some, None, length};
ghost use Rattle.artifact_codec.specs.computed.Reading.{Reads};
ghost use Rattle.artifact_codec.specs.computed.Checking.{registers_distinct};
ghost use Rattle.artifact_codec.specs.computed.Windows.{IsBlank, mark, mark_numbers, mark_list, mark_lists, mark_counted, lesser, registers, Advances};

use crate::fields::number_at;
use crate::refusal::Malformed;

/// The numbers from `low` on, and those of them that were met. `next` is the least number behind them that was met.
#[derive(Drop)]
pub(crate) struct Window {
    pub(crate) low: u32,
    pub(crate) marks: [bool; 1024],
    pub(crate) next: Option<u32>,
}

fn blank(low: u32) -> Window
    ensures { IsBlank low result }
{
    Window {
        low,
        marks: [false; 1024],
        next: None,
    }
}

fn lesser(next: Option<u32>, n: u32) -> u32
    ensures { result ≡ lesser next n }
{
    match next {
        None => n,
        Some(m) => { if n < m { n } else { m } }
    }
}

#[tactic(auto, unfolding(crate::specs::computed::Windows::mark))]
fn mark(window: &mut Window, n: u32) -> Result<(), Malformed>
    ensures { Reads (λ _. window.new) result (mark window.old n) }
{
    if n < window.low {
        return Ok(());
    }
    let at = (n - window.low) as usize;
    if at >= window.marks.len() {
        window.next = Some(lesser(window.next, n));
        return Ok(());
    }
    if window.marks[at] {
        return Err(Malformed);
    }
    window.marks[at] = true;
    Ok(())
}

fn mark_numbers<'a>(window: &mut Window, count: u32, bytes: &'a [u8]) -> Result<&'a [u8], Malformed>
    ensures { Reads (λ rest. (window.new, rest.now)) result (mark_numbers count window.old bytes.now) }
{
    let mut rest = bytes;
    for _ in 0..count {
        let (n, after) = number_at(rest)?;
        mark(window, n)?;
        rest = after;
    }
    Ok(rest)
}

#[tactic(auto, unfolding(crate::specs::computed::Windows::mark_list))]
fn mark_list<'a>(window: &mut Window, bytes: &'a [u8]) -> Result<&'a [u8], Malformed>
    ensures { Reads (λ rest. (window.new, rest.now)) result (mark_list window.old bytes.now) }
{
    let (count, rest) = number_at(bytes)?;
    mark_numbers(window, count, rest)
}

fn mark_lists<'a>(window: &mut Window, count: u32, bytes: &'a [u8]) -> Result<&'a [u8], Malformed>
    ensures { Reads (λ rest. (window.new, rest.now)) result (mark_lists count window.old bytes.now) }
{
    let mut rest = bytes;
    for _ in 0..count {
        rest = mark_list(window, rest)?;
    }
    Ok(rest)
}

#[tactic(auto, unfolding(crate::specs::computed::Windows::mark_counted))]
fn mark_counted(window: &mut Window, bytes: &[u8]) -> Result<(), Malformed>
    ensures { Reads (λ _. window.new) result (mark_counted window.old bytes.now) }
{
    let (count, rest) = number_at(bytes)?;
    mark_lists(window, count, rest)?;
    Ok(())
}

// One window, from `low` on: the least number behind it.
fn next_low(low: u32, bytes: &[u8]) -> Result<Option<u32>, Malformed>
    ensures { Advances low (registers bytes.now) result }
{
    let mut window = blank(low);
    mark_counted(&mut window, bytes)?;
    Ok(window.next)
}

/// Whether no register stands twice in the clusters at the front of the bytes.
pub(crate) fn registers_distinct(bytes: &[u8]) -> bool
    ensures { result ≡ registers_distinct bytes.now }
{
    let mut low = Some(0);
    while let Some(start) = low {
        match next_low(start, bytes) {
            Ok(next) => low = next,
            Err(_) => return false,
        }
    }
    true
}
