use c_faults::Spot;
use c_tree::{DeclCore, DeclPart, Declarator, EnumItem, Expr, Initialiser, SpecWord};
use sv_base::{FileId, Place};

/// Where an expression stands.
pub fn spot_of(e: &Expr) -> Spot {
    Spot {
        place: e.place,
        start: e.start,
    }
}

/// Where a declarator stands: at the name in it, or at its first token.
pub fn declarator_spot(d: &Declarator) -> Spot {
    Spot {
        place: d.place,
        start: d.start,
    }
}

/// Where a word of specifiers begins.
pub fn word_spot(word: &SpecWord) -> Spot {
    Spot {
        place: word.place,
        start: word.start,
    }
}

pub fn item_spot(item: &EnumItem) -> Spot {
    Spot {
        place: item.place,
        start: item.start,
    }
}

/// Where a part of a declarator stands: at its opening mark.
pub fn part_spot(part: &DeclPart) -> Spot {
    match part {
        DeclPart::Array { place, start, .. } => Spot {
            place: *place,
            start: *start,
        },
        DeclPart::Params { place, start, .. } => Spot {
            place: *place,
            start: *start,
        },
    }
}

/// Where an initialiser stands: at its expression, or at its opening mark.
pub fn initialiser_spot(initial: &Initialiser) -> Spot {
    match initial {
        Initialiser::One(e) => spot_of(e),
        Initialiser::List { place, start, .. } => Spot {
            place: *place,
            start: *start,
        },
    }
}

/// Where a list of specifiers begins. It has a word.
pub fn head_spot(head: &[SpecWord]) -> Spot {
    match head.first() {
        Some(word) => word_spot(word),
        None => Spot {
            place: Place::of_file(FileId(0)),
            start: 0,
        },
    }
}

/// The name that a declarator declares.
pub fn name_in(d: &Declarator) -> Option<u32> {
    match &d.core {
        DeclCore::Name(name) => Some(*name),
        DeclCore::Nested(inner) => name_in(inner.get()),
        DeclCore::Absent => None,
    }
}

/// What stands directly at the name of a declarator, and so is made of it first.
#[derive(Drop)]
pub enum Direct<'a> {
    Nothing,
    Pointer,
    Part(&'a DeclPart),
}

/// What a declarator makes of its name first (ISO/IEC 9899:1999, 6.7.5).
pub fn direct_part(d: &Declarator) -> Direct<'_> {
    if let DeclCore::Nested(inner) = &d.core {
        match direct_part(inner.get()) {
            Direct::Nothing => {}
            Direct::Pointer => return Direct::Pointer,
            Direct::Part(part) => return Direct::Part(part),
        }
    }
    match d.parts.as_slice().first() {
        Some(part) => Direct::Part(part),
        None if d.pointers.is_empty() => Direct::Nothing,
        None => Direct::Pointer,
    }
}
