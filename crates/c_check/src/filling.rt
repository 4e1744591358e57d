//! The values that an initialiser gives an object (ISO/IEC 9899:1999, 6.7.8).

use crate::addresses::{Addresses, Bases};
use crate::knot::{required, value_of};
use c_declarators::{initialiser_spot, spot_of};
use c_faults::{Fault, Spot, Stop, refuse, sooner};
use c_forms::convert;
use c_names::{Checker, Overrides, Walk};
use c_tree::{Designator, Expr, ExprKind, InitEntry, Initialiser};
use c_typed::{HeldExpr, HeldParts, InitialPart, TypeId, TypeKind, TypedExpr, TypedKind};
use c_values::IntType;
use sv_base::faults;

/// The values that were given so far.
#[derive(Drop)]
pub struct Filling {
    is_static: bool,
    pub parts: HeldParts,
    pub overrides: Overrides,
    /// Whether a designator was met.
    designated: bool,
    /// The elements that were reached of an array without a size.
    pub extent: u64,
}

impl Filling {
    pub fn new(checker: &Checker, is_static: bool) -> Filling {
        Filling {
            is_static,
            parts: HeldParts::new(checker.alloc),
            overrides: Overrides::new(checker.alloc),
            designated: false,
            extent: 0,
        }
    }

    /// An initialiser of the sub-object at the path.
    pub fn fill(
        &mut self,
        initial: &Initialiser,
        of: TypeId,
        path: &[u32],
        checker: &mut Checker,
    ) -> Result<(), Stop> {
        match initial {
            Initialiser::One(e) => self.fill_one(e, of, path, None, checker),
            Initialiser::List { entries, .. } => {
                self.fill_list(entries.as_slice(), of, path, checker)
            }
        }
    }

    // A braced list.
    #[cycle(filling)]
    fn fill_list(
        &mut self,
        entries: &[InitEntry],
        of: TypeId,
        path: &[u32],
        checker: &mut Checker,
    ) -> Result<(), Stop> {
        if is_scalar(checker, of) {
            return self.fill_scalar(entries, of, path, checker);
        }
        if let Some((e, bytes)) = only_text(entries) {
            if let Some(element) = char_element(checker, of) {
                return self.fill_text(e, bytes, of, element, path, checker);
            }
        }
        let mut walk = Walk::new(checker.alloc, of);
        for entry in entries {
            self.fill_entry(entry, &mut walk, path, checker)?;
            walk.advance(&checker.types.table);
        }
        self.extent = self.extent.max(walk.extent());
        Ok(())
    }

    // An entry of a list, for the part at which the walk stands then.
    #[cycle(filling)]
    fn fill_entry(
        &mut self,
        entry: &InitEntry,
        walk: &mut Walk,
        path: &[u32],
        checker: &mut Checker,
    ) -> Result<(), Stop> {
        if !entry.path.is_empty() {
            self.designated = true;
            walk.restart();
            designate(entry.path.as_slice(), walk, checker)?;
        } else if !walk.settle(&checker.types.table) {
            return without_place(&entry.value, checker);
        }
        match &entry.value {
            Initialiser::One(e) => self.fill_next(e, walk, path, checker),
            Initialiser::List { entries, .. } => {
                let Some(of) = walk.current(&checker.types.table) else {
                    return refuse(faults::INITIALISER, initialiser_spot(&entry.value));
                };
                let inside = walk.path(checker.alloc, path)?;
                self.override_at(inside.as_slice(), checker)?;
                self.fill_list(entries.as_slice(), of, inside.as_slice(), checker)
            }
        }
    }

    // One expression in a list, for the part that comes next or the first inside it that takes such a value.
    fn fill_next(
        &mut self,
        e: &Expr,
        walk: &mut Walk,
        path: &[u32],
        checker: &mut Checker,
    ) -> Result<(), Stop> {
        let mut value = None;
        for _turn in 0..=checker.types.table.rows.len() {
            let Some(of) = walk.current(&checker.types.table) else {
                return refuse(faults::INITIALISER, spot_of(e));
            };
            if value.is_none() && is_record(checker, of) {
                value = Some(value_of(e, checker)?);
            }
            if takes(checker, of, e, &value) {
                let inside = walk.path(checker.alloc, path)?;
                return self.fill_one(e, of, inside.as_slice(), value, checker);
            }
            walk.enter(of)?;
        }
        refuse(faults::INITIALISER, spot_of(e))
    }

    // A braced list for a scalar has one expression.
    fn fill_scalar(
        &mut self,
        entries: &[InitEntry],
        of: TypeId,
        path: &[u32],
        checker: &mut Checker,
    ) -> Result<(), Stop> {
        if let Some(entry) = entries.first() {
            if let Some(designator) = entry.path.as_slice().first() {
                return refuse(faults::INITIALISER, designator_spot(designator));
            }
            match &entry.value {
                Initialiser::One(e) => self.fill_one(e, of, path, None, checker)?,
                Initialiser::List { .. } => {
                    return refuse(faults::INITIALISER, initialiser_spot(&entry.value));
                }
            }
        }
        match entries.get(1) {
            Some(entry) => refuse(faults::INITIALISER, entry_spot(entry)),
            None => Ok(()),
        }
    }

    // One expression for the whole of a sub-object. Its value may be there already.
    fn fill_one(
        &mut self,
        e: &Expr,
        of: TypeId,
        path: &[u32],
        value: Option<HeldExpr>,
        checker: &mut Checker,
    ) -> Result<(), Stop> {
        let at = spot_of(e);
        if let TypeKind::Array(_, _) = checker.types.table.kind(of) {
            return self.fill_array(e, of, path, checker);
        }
        let value = match value {
            Some(value) => value,
            None => value_of(e, checker)?,
        };
        let value = convert(&checker.types, value, of, at)?;
        if self.is_static && is_record(checker, of) {
            return refuse(faults::NO_CONSTANT, at);
        }
        if self.is_static {
            let addresses = Addresses {
                alloc: checker.alloc,
                table: &checker.types.table,
                bases: Bases::Checked(checker.objects.as_slice()),
            };
            addresses.test(&value.node, at)?;
        }
        self.override_at(path, checker)?;
        let place = Vec::from_slice(checker.alloc, path)?;
        self.parts.push(place, value)?;
        Ok(())
    }

    // One expression for an array, which has to be a text for an array of characters.
    fn fill_array(
        &mut self,
        e: &Expr,
        of: TypeId,
        path: &[u32],
        checker: &mut Checker,
    ) -> Result<(), Stop> {
        if let ExprKind::Text(bytes) = &e.kind {
            if let Some(element) = char_element(checker, of) {
                return self.fill_text(e, bytes.as_slice(), of, element, path, checker);
            }
        }
        let _value = value_of(e, checker)?;
        refuse(faults::INITIALISER, spot_of(e))
    }

    // A text for an array of characters. Its zero is left out where there is no room for it.
    fn fill_text(
        &mut self,
        e: &Expr,
        bytes: &[u8],
        of: TypeId,
        element: Character,
        path: &[u32],
        checker: &mut Checker,
    ) -> Result<(), Stop> {
        let length = bytes.len() as u64;
        let with_zero = match checker.types.table.kind(of) {
            TypeKind::Array(_, Some(count)) if count < length => {
                return refuse(faults::INITIALISER, spot_of(e));
            }
            TypeKind::Array(_, Some(count)) => length < count,
            _ => {
                self.extent = length.saturating_add(1);
                true
            }
        };
        self.override_at(path, checker)?;
        for (index, byte) in bytes.iter().enumerate() {
            self.add_byte(e, path, index, *byte, element, checker)?;
        }
        if with_zero {
            self.add_byte(e, path, bytes.len(), 0, element, checker)?;
        }
        Ok(())
    }

    fn add_byte(
        &mut self,
        e: &Expr,
        path: &[u32],
        index: usize,
        byte: u8,
        element: Character,
        checker: &Checker,
    ) -> Result<(), Stop> {
        let mut place = Vec::from_slice(checker.alloc, path)?;
        place.push(u32::try_from(index).unwrap_or(u32::MAX))?;
        let value = c_values::convert(element.kind, i128::from(byte));
        self.parts.list.push(InitialPart {
            path: place,
            value: TypedExpr {
                kind: TypedKind::Constant(value),
                of: element.of,
                place: e.place,
                start: e.start,
            },
        })?;
        Ok(())
    }

    // What was given for the sub-object at the path is given no longer.
    fn override_at(&mut self, path: &[u32], checker: &Checker) -> Result<(), Stop> {
        if self.designated {
            let place = Vec::from_slice(checker.alloc, path)?;
            self.overrides.note(place, self.parts.list.len())?;
        }
        Ok(())
    }
}

// A character type and its kind.
#[derive(Clone, Copy)]
struct Character {
    of: TypeId,
    kind: IntType,
}

// The element type, without qualifiers, of an array of characters.
fn char_element(checker: &Checker, of: TypeId) -> Option<Character> {
    let TypeKind::Array(element, _) = checker.types.table.kind(of) else {
        return None;
    };
    let TypeKind::Int(kind) = checker.types.table.kind(element) else {
        return None;
    };
    match kind {
        IntType::Char | IntType::SChar | IntType::UChar => Some(Character {
            of: checker.types.unqualified(element),
            kind,
        }),
        _ => None,
    }
}

fn is_scalar(checker: &Checker, of: TypeId) -> bool {
    match checker.types.table.kind(of) {
        TypeKind::Int(_) | TypeKind::Pointer(_) => true,
        _ => false,
    }
}

fn is_record(checker: &Checker, of: TypeId) -> bool {
    match checker.types.table.kind(of) {
        TypeKind::Record(_) => true,
        _ => false,
    }
}

// Whether a part takes an expression as a whole. The value is known where the part is a structure or union.
fn takes(checker: &Checker, of: TypeId, e: &Expr, value: &Option<HeldExpr>) -> bool {
    match checker.types.table.kind(of) {
        TypeKind::Array(_, _) => match &e.kind {
            ExprKind::Text(_) => char_element(checker, of).is_some(),
            _ => false,
        },
        TypeKind::Record(_) => match value {
            Some(value) => {
                is_record(checker, value.of()) && checker.types.table.alike(value.of(), of)
            }
            None => false,
        },
        _ => true,
    }
}

// The text that is a list's only entry.
fn only_text(entries: &[InitEntry]) -> Option<(&Expr, &[u8])> {
    match entries {
        [entry] if entry.path.is_empty() => match &entry.value {
            Initialiser::One(e) => match &e.kind {
                ExprKind::Text(bytes) => Some((e, bytes.as_slice())),
                _ => None,
            },
            Initialiser::List { .. } => None,
        },
        _ => None,
    }
}

fn designator_spot(designator: &Designator) -> Spot {
    match designator {
        Designator::Index(e) => spot_of(e),
        Designator::Member { place, start, .. } => Spot {
            place: *place,
            start: *start,
        },
    }
}

fn entry_spot(entry: &InitEntry) -> Spot {
    match entry.path.as_slice().first() {
        Some(designator) => designator_spot(designator),
        None => initialiser_spot(&entry.value),
    }
}

// No part is left for a value, which may have an earlier fault of its own.
fn without_place(initial: &Initialiser, checker: &mut Checker) -> Result<(), Stop> {
    let own = Fault {
        kind: faults::INITIALISER,
        at: initialiser_spot(initial),
    };
    if let Initialiser::One(e) = initial {
        if !is_text(e) {
            match value_of(e, checker) {
                Ok(_) => {}
                Err(Stop::Fault(fault)) => return Err(Stop::Fault(sooner(own, fault))),
                Err(Stop::NoMemory) => return Err(Stop::NoMemory),
            }
        }
    }
    Err(Stop::Fault(own))
}

fn is_text(e: &Expr) -> bool {
    match &e.kind {
        ExprKind::Text(_) => true,
        _ => false,
    }
}

// Goes to the part that designators name.
fn designate(path: &[Designator], walk: &mut Walk, checker: &mut Checker) -> Result<(), Stop> {
    for (number, designator) in path.iter().enumerate() {
        if number != 0 {
            go_inside(designator, walk, checker)?;
        }
        match designator {
            Designator::Index(e) => {
                let index = required(e, checker)?;
                if !walk.choose_element(&checker.types.table, index) {
                    return refuse(faults::INITIALISER, spot_of(e));
                }
            }
            Designator::Member { name, .. } => {
                choose_member(*name, designator_spot(designator), walk, checker)?;
            }
        }
    }
    Ok(())
}

// A further designator goes into what the one before it names.
fn go_inside(designator: &Designator, walk: &mut Walk, checker: &mut Checker) -> Result<(), Stop> {
    match walk.current(&checker.types.table) {
        Some(of) if !is_scalar(checker, of) => {
            walk.enter(of)?;
            Ok(())
        }
        _ => {
            if let Designator::Index(e) = designator {
                required(e, checker)?;
            }
            refuse(faults::INITIALISER, designator_spot(designator))
        }
    }
}

fn choose_member(name: u32, at: Spot, walk: &mut Walk, checker: &Checker) -> Result<(), Stop> {
    match checker.types.table.kind(walk.whole()) {
        TypeKind::Record(record) => match checker.member(record, name) {
            Some(position) => {
                walk.choose_member(position);
                Ok(())
            }
            None => refuse(faults::UNKNOWN_MEMBER, at),
        },
        _ => refuse(faults::INITIALISER, at),
    }
}
