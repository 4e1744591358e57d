use crate::known::{Known, Memory};
use crate::maker::{Maker, byte};
use c_typed::{HeldStatement, HeldStatements, TypeId, TypeKind};
use sv_base::NoMemory;

// The parameters of a function, which are its first objects.
const TO: u32 = 0;

const FROM: u32 = 1;

const COUNT: u32 = 2;

// The types of the parameters: a pointer, a pointer or the byte, and the number of bytes.
#[derive(Clone, Copy)]
struct Parameters {
    to: TypeId,
    from: TypeId,
    count: TypeId,
}

fn parameters_of(m: &Maker, of: TypeId) -> Parameters {
    match m.types.params(of) {
        [to, from, count] => Parameters {
            to: *to,
            from: *from,
            count: *count,
        },
        _ => Parameters {
            to: of,
            from: of,
            count: of,
        },
    }
}

/// The body of the function that a call is redirected to.
pub(crate) fn body(m: &mut Maker, call: Known) -> Result<HeldStatement, NoMemory> {
    m.begin(call.place, call.start);
    let p = parameters_of(m, call.of);
    m.object(p.to, None)?;
    m.object(p.from, None)?;
    m.object(p.count, None)?;
    match call.whole {
        Some(of) => whole_copy(m, p, of),
        None => match call.memory {
            Memory::Set => set(m, p),
            Memory::Copy => copied(m, p, false),
            Memory::Move => copied(m, p, true),
        },
    }
}

// `*(U *)d = *(U *)s; return d;`
fn whole_copy(m: &mut Maker, p: Parameters, of: TypeId) -> Result<HeldStatement, NoMemory> {
    let of = m.unqualified(of)?;
    let pointer = m.pointer_to(of, p.to)?;
    let to = m.read(TO)?;
    let to = m.converted(to, pointer)?;
    let target = m.deref(to)?;
    let from = m.read(FROM)?;
    let from = m.converted(from, pointer)?;
    let source = m.deref(from)?;
    let value = match m.types.kind(of) {
        TypeKind::Record(_) => source,
        _ => m.value_of(source, of)?,
    };
    let mut items = HeldStatements::new(m.alloc);
    items.push(m.assigned(target, value, of)?)?;
    items.push(m.give_back(TO)?)?;
    m.block(Vec::new(m.alloc), items)
}

// A pointer to bytes that begins as the pointer in a parameter.
fn byte_pointer(m: &mut Maker, of: TypeId, parameter: u32) -> Result<u32, NoMemory> {
    let value = m.read(parameter)?;
    let value = m.converted(value, of)?;
    m.object(of, Some(value))
}

fn index(m: &mut Maker, of: TypeId) -> Result<u32, NoMemory> {
    let zero = m.number(0, of)?;
    m.object(of, Some(zero))
}

// The whole body: the objects and their starts, the loop, and the value that is given back.
fn whole_body(
    m: &Maker,
    objects: Vec<u32>,
    last_started: u32,
    turn: HeldStatement,
) -> Result<HeldStatement, NoMemory> {
    let mut items = HeldStatements::new(m.alloc);
    for object in &objects {
        if *object <= last_started {
            items.push(m.start(*object)?)?;
        }
    }
    items.push(turn)?;
    items.push(m.give_back(TO)?)?;
    m.block(objects, items)
}

// `unsigned char *p = d; T i = 0; while (i < n) { p[i] = c; i = i + 1; } return d;`
fn set(m: &mut Maker, p: Parameters) -> Result<HeldStatement, NoMemory> {
    let pointer = m.pointer_to(byte(), p.to)?;
    let to = byte_pointer(m, pointer, TO)?;
    let i = index(m, p.count)?;
    let target = m.element(to, i)?;
    let value = m.read(FROM)?;
    let value = m.converted(value, byte())?;
    let mut items = HeldStatements::new(m.alloc);
    items.push(m.assigned(target, value, byte())?)?;
    items.push(m.next(i)?)?;
    let turn = m.while_below(i, COUNT, items)?;
    let mut objects = Vec::new(m.alloc);
    objects.push(to)?;
    objects.push(i)?;
    whole_body(m, objects, i, turn)
}

// `unsigned char *p = d; unsigned char *q = s; T i = 0; while (i < n) { p[i] = q[i]; i = i + 1; } return d;`. Where the two may
// overlap it is `q[i]; p[i] = v;` for the copy, with a `volatile unsigned char v`, which has any value.
fn copied(m: &mut Maker, p: Parameters, overlap: bool) -> Result<HeldStatement, NoMemory> {
    let pointer = m.pointer_to(byte(), p.to)?;
    let to = byte_pointer(m, pointer, TO)?;
    let from = byte_pointer(m, pointer, FROM)?;
    let i = index(m, p.count)?;
    let mut objects = Vec::new(m.alloc);
    objects.push(to)?;
    objects.push(from)?;
    objects.push(i)?;
    let mut items = HeldStatements::new(m.alloc);
    if overlap {
        let any = m.any_byte()?;
        let v = m.object(any, None)?;
        objects.push(v)?;
        moved_byte(m, &mut items, to, from, i, v)?;
    } else {
        copied_byte(m, &mut items, to, from, i)?;
    }
    items.push(m.next(i)?)?;
    let turn = m.while_below(i, COUNT, items)?;
    whole_body(m, objects, i, turn)
}

// `p[i] = q[i];`
fn copied_byte(
    m: &mut Maker,
    items: &mut HeldStatements,
    to: u32,
    from: u32,
    i: u32,
) -> Result<(), NoMemory> {
    let target = m.element(to, i)?;
    let source = m.element(from, i)?;
    let value = m.value_of(source, byte())?;
    items.push(m.assigned(target, value, byte())?)
}

// `q[i]; p[i] = v;`
fn moved_byte(
    m: &mut Maker,
    items: &mut HeldStatements,
    to: u32,
    from: u32,
    i: u32,
    v: u32,
) -> Result<(), NoMemory> {
    let source = m.element(from, i)?;
    let value = m.value_of(source, byte())?;
    items.push(m.plain(value)?)?;
    let target = m.element(to, i)?;
    let value = m.read_as(v, byte())?;
    items.push(m.assigned(target, value, byte())?)
}
