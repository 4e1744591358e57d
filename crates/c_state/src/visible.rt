//! A table of declarations by the numbers of their names: of each name, whether its innermost visible declaration is a typedef.
ghost use Rattle.std.specs.Prelude.{◌≡◌, ℕ, ◌==◌, ◌<◌, if◌then◌else◌, length, OnOk, OnErr};
ghost use Rattle.c_state.specs.Log.{entry};

use std::alloc::AllocError;

/// What the table has for a name.
pub(crate) fn entry_of(table: &[Option<bool>], name: u32) -> Option<bool>
    ensures { result ≡ entry table.now name }
{
    match table.get(name as usize) {
        Some(entry) => *entry,
        None => None,
    }
}

/// Makes room for a name, which has no declaration then if there was none.
pub(crate) fn make_room(table: &mut Vec<Option<bool>>, name: u32) -> Result<(), AllocError>
    ensures ok { OnOk result (name < length table.new.items) }
    ensures same { (x : ℕ) → entry table.new.items x ≡ entry table.old.items x }
{
    let place = name as usize;
    if place < table.len() {
        return Ok(());
    }
    table.resize(place + 1, None)
}

/// Sets what the table has for a name.
pub(crate) fn put(table: &mut Vec<Option<bool>>, name: u32, declared: Option<bool>)
    requires { name < length table.old.items }
    ensures { (x : ℕ) → entry table.new.items x ≡ (if name == x then declared else entry table.old.items x) }
{
    table[name as usize] = declared;
}
