ghost use Rattle.std.specs.Prelude.{◌≡◌, length};
ghost use Rattle.first_form.specs.Form.{names};
ghost use Rattle.first_form.specs.computed.Reading.{Gives, array_at, arrays_at, store_at, stores_at, head_at, tail_at, body_at, program_at};

use crate::cursor::Cursor;
use crate::names::{Names, names_of};
use crate::program::{Array, Program, Store};
use crate::refusal::Refusal;
use sqlite_items::Items;
use std::alloc::Global;

/// The greatest size of an array, in elements.
const GREATEST_SIZE: u32 = 268_435_456;

/// "int" name "[" number "]" ";"
#[tactic(auto, unfolding(crate::specs::computed::Reading::array_at))]
fn array(alloc: Global, cursor: &mut Cursor) -> Result<Array, Refusal>
    ensures { Gives (λ array. (array, cursor.new)) result (array_at cursor.old) }
{
    cursor.word(b"int")?;
    let name = cursor.name(alloc)?;
    cursor.word(b"[")?;
    let size = cursor.number()?;
    cursor.word(b"]")?;
    cursor.word(b";")?;
    if size == 0 || size > GREATEST_SIZE {
        return Err(Refusal::NotOfForm);
    }
    Ok(Array { name, size })
}

/// The arrays up to `main`.
fn arrays(alloc: Global, cursor: &mut Cursor) -> Result<Items<Array>, Refusal>
    ensures { Gives (λ arrays. (arrays, cursor.new)) result (arrays_at (length cursor.old) cursor.old) }
{
    let mut arrays = Items::new(alloc);
    for _ in 0..cursor.len() {
        if cursor.second_is(b"main") {
            return Ok(arrays);
        }
        let array = array(alloc, cursor)?;
        arrays.push(array)?;
    }
    Err(Refusal::NotOfForm)
}

/// "int" "main" "(" "void" ")" "{"
#[tactic(auto, unfolding(crate::specs::computed::Reading::head_at))]
fn head(cursor: &mut Cursor) -> Result<(), Refusal>
    ensures { Gives (λ _. cursor.new) result (head_at cursor.old) }
{
    cursor.word(b"int")?;
    cursor.word(b"main")?;
    cursor.word(b"(")?;
    cursor.word(b"void")?;
    cursor.word(b")")?;
    cursor.word(b"{")
}

/// name "[" number "]" "=" number ";"
#[tactic(auto, unfolding(crate::specs::computed::Reading::store_at))]
fn store(alloc: Global, names: &Names, cursor: &mut Cursor) -> Result<Store, Refusal>
    ensures { Gives (λ store. (store, cursor.new)) result (store_at names.now cursor.old) }
{
    let name = cursor.name(alloc)?;
    let Some(array) = names.number_of(name.as_slice()) else {
        return Err(Refusal::NotOfForm);
    };
    let (line, col) = cursor.place();
    cursor.word(b"[")?;
    let subscript = cursor.number()?;
    cursor.word(b"]")?;
    cursor.word(b"=")?;
    let value = cursor.number()?;
    cursor.word(b";")?;
    Ok(Store {
        array,
        subscript,
        value,
        line,
        col,
    })
}

/// The stores up to `return`.
fn stores(alloc: Global, names: &Names, cursor: &mut Cursor) -> Result<Items<Store>, Refusal>
    ensures { Gives (λ stores. (stores, cursor.new)) result (stores_at (length cursor.old) names.now cursor.old) }
{
    let mut stores = Items::new(alloc);
    for _ in 0..cursor.len() {
        if cursor.first_is(b"return") {
            return Ok(stores);
        }
        let store = store(alloc, names, cursor)?;
        stores.push(store)?;
    }
    Err(Refusal::NotOfForm)
}

/// "return" number ";" "}", and no more
#[tactic(auto, unfolding(crate::specs::computed::Reading::tail_at))]
fn tail(cursor: &mut Cursor) -> Result<u32, Refusal>
    ensures { Gives (λ n. n) result (tail_at cursor.old) }
{
    cursor.word(b"return")?;
    let value = cursor.number()?;
    cursor.word(b";")?;
    cursor.word(b"}")?;
    if cursor.len() != 0 {
        return Err(Refusal::NotOfForm);
    }
    Ok(value)
}

/// What stands behind the arrays: the stores, and the returned number.
#[tactic(auto, unfolding(crate::specs::computed::Reading::body_at))]
fn body(
    alloc: Global,
    arrays: &[Array],
    cursor: &mut Cursor,
) -> Result<(Items<Store>, u32), Refusal>
    ensures { Gives (λ r. (r.0, r.1)) result (body_at (names arrays.now) cursor.old) }
{
    let Some(names) = names_of(alloc, arrays)? else {
        return Err(Refusal::NotOfForm);
    };
    head(cursor)?;
    let stores = stores(alloc, &names, cursor)?;
    let returned = tail(cursor)?;
    Ok((stores, returned))
}

/// The whole file.
#[tactic(auto, unfolding(crate::specs::computed::Reading::program_at))]
pub(crate) fn program(alloc: Global, mut cursor: Cursor) -> Result<Program, Refusal>
    ensures { Gives (λ p. p) result (program_at cursor.entry) }
{
    let arrays = arrays(alloc, &mut cursor)?;
    let (stores, returned) = body(alloc, arrays.as_slice(), &mut cursor)?;
    Ok(Program {
        arrays,
        stores,
        returned,
    })
}
