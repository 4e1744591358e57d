ghost use Rattle.std.specs.Prelude.{◌≡◌, ◌≢◌, ◌⊎◌, List, [], ℕ, None, MatchOption};
ghost use Rattle.disk_memory.specs.Named.{named, without, left_of, under, IsPlace};

/// The place of the first value of that name.
fn place_named<T>(list: &[(String, T)], name: &str) -> Option<usize>
    ensures { MatchOption result (named list.now name.now ≡ None) (λ at. IsPlace list.now name.now at) }
{
    for (at, pair) in list.iter().enumerate() {
        if pair.0.as_str() == name {
            return Some(at);
        }
    }
    None
}

/// Takes out the first value of that name.
pub(crate) fn take_named<T>(list: &mut Vec<(String, T)>, name: &str) -> Option<T>
    ensures found { result ≡ named list.old.items name.now }
    ensures left { list.new.items ≡ without list.old.items name.now }
    ensures others { (other : List ℕ) → other ≢ name.now → named list.new.items other ≡ named list.old.items other }
{
    let at = place_named(list, name)?;
    let (_, value) = list.remove(at);
    Some(value)
}

/// The same, with nothing under the empty name.
pub(crate) fn take_under<T>(list: &mut Vec<(String, T)>, name: &str) -> Option<T>
    ensures found { result ≡ under list.old.items name.now }
    ensures left { list.new.items ≡ left_of list.old.items name.now }
    ensures others { (other : List ℕ) → (other ≢ name.now) ⊎ (other ≡ []) → under list.new.items other ≡ under list.old.items other }
{
    if name.is_empty() {
        return None;
    }
    take_named(list, name)
}
