//! Tags (ISO/IEC 9899:1999, 6.7.2.3).

use c_faults::{Spot, Stop, refuse};
use c_names::{Checker, Tag};
use c_tree::RecordKind;
use c_typed::TypeId;
use sv_base::faults;

/// A structure or union that is named without its content. Alone in its declaration it is one of the innermost scope.
pub fn named_record(
    checker: &mut Checker,
    kind: RecordKind,
    tag: u32,
    alone: bool,
    at: Spot,
) -> Result<TypeId, Stop> {
    let seen = if alone {
        checker.look_up_tag_here(tag)
    } else {
        checker.look_up_tag(tag)
    };
    match seen {
        Some(
            Tag::Record {
                kind: before,
                of,
                ..
            },
        ) if before == kind => Ok(of),
        Some(_) => refuse(faults::DECLARED_OTHERWISE, at),
        None => {
            let of = new_record(checker, kind, Some(tag))?;
            declare_record(checker, kind, tag, of, false)?;
            Ok(of)
        }
    }
}

/// A structure or union whose content comes.
pub fn begun_record(
    checker: &mut Checker,
    kind: RecordKind,
    tag: Option<u32>,
    at: Spot,
) -> Result<TypeId, Stop> {
    let Some(tag) = tag else {
        return new_record(checker, kind, None);
    };
    let of = match checker.look_up_tag_here(tag) {
        Some(
            Tag::Record {
                kind: before,
                of,
                begun: false,
            },
        ) if before == kind => of,
        Some(_) => return refuse(faults::DECLARED_OTHERWISE, at),
        None => new_record(checker, kind, Some(tag))?,
    };
    declare_record(checker, kind, tag, of, true)?;
    Ok(of)
}

/// An enumeration that is named without its constants.
pub fn named_enumeration(checker: &mut Checker, tag: u32, at: Spot) -> Result<(), Stop> {
    match checker.look_up_tag(tag) {
        Some(Tag::Enumeration { .. }) => Ok(()),
        Some(_) => refuse(faults::DECLARED_OTHERWISE, at),
        None => checker.declare_tag(tag, Tag::Enumeration { begun: false }),
    }
}

/// An enumeration whose constants come.
pub fn begun_enumeration(checker: &mut Checker, tag: Option<u32>, at: Spot) -> Result<(), Stop> {
    let Some(tag) = tag else {
        return Ok(());
    };
    match checker.look_up_tag_here(tag) {
        None | Some(Tag::Enumeration { begun: false }) => {
            checker.declare_tag(tag, Tag::Enumeration { begun: true })
        }
        Some(_) => refuse(faults::DECLARED_OTHERWISE, at),
    }
}

fn new_record(checker: &mut Checker, kind: RecordKind, tag: Option<u32>) -> Result<TypeId, Stop> {
    let text = match tag {
        Some(tag) => Some(checker.text_of(tag)?),
        None => None,
    };
    Ok(checker.types.new_record(kind, text)?)
}

fn declare_record(
    checker: &mut Checker,
    kind: RecordKind,
    tag: u32,
    of: TypeId,
    begun: bool,
) -> Result<(), Stop> {
    checker.declare_tag(tag, Tag::Record { kind, of, begun })
}
