//! Declarators with their sizes and parameters (ISO/IEC 9899:1999, 6.7.5), and type names (6.7.6).
ghost use Rattle.c_names.specs.Knot.{IsCallable};

use crate::forming::{Left, PartValue, formed};
use crate::inside::Declarators;
use crate::least::Least;
use crate::parameters::{ParamName, Params};
use crate::spots::{declarator_spot, head_spot, name_in, part_spot};
use c_faults::{Spot, Stop};
use c_names::{Checker, Meaning};
use c_tree::{DeclCore, DeclPart, Declarator, Expr, Param, SpecWord, TypeName};
use c_typed::{HeldExpr, TypeId, TypeKind};
use sv_base::{faults, limits};

/// What a declarator declares.
#[derive(Drop)]
pub struct Declared {
    /// None where there is a fault.
    pub of: Option<TypeId>,
    /// The part that was read first, which is the one that stands directly at the name, if a part does.
    pub first: PartValue,
}

impl<
    V: Fn(&Expr, usize, &mut Checker) -> Result<HeldExpr, Stop>,
    R: Fn(&SpecWord, usize, &mut Checker) -> Result<TypeId, Stop>,
> Declarators<V, R> {
    /// What a declarator makes of a type. Its faults are put to others: some show at its name, which stands before its sizes
    /// and parameters. `head` is where its specifiers begin.
    #[cycle(declarators)]
    pub fn declarator(
        &self,
        base: TypeId,
        d: &Declarator,
        head: Spot,
        least: &mut Least,
        checker: &mut Checker,
    ) -> Result<Declared, Stop>
        requires value { IsCallable self.now.depth (V.pre self.now.value) }
        requires record { IsCallable self.now.depth (R.pre self.now.record) }
    {
        let mut own = Least::new();
        let mut values = Vec::new(checker.alloc);
        self.read_parts(d, &mut values, &mut own, checker)?;
        let name = match name_in(d) {
            Some(_) => declarator_spot(d),
            None => head,
        };
        let mut left = Left {
            values: &values,
            count: values.len(),
        };
        let of = formed(checker, base, d, name, &mut left, &mut own)?;
        let clean = own.is_empty();
        if let Err(stop) = own.finish() {
            least.note(stop)?;
        }
        Ok(Declared {
            of: if clean { of } else { None },
            first: first_of(values),
        })
    }

    // The parts of a declarator in token order.
    #[cycle(declarators)]
    fn read_parts(
        &self,
        d: &Declarator,
        values: &mut Vec<PartValue>,
        least: &mut Least,
        checker: &mut Checker,
    ) -> Result<(), Stop>
        requires value { IsCallable self.now.depth (V.pre self.now.value) }
        requires record { IsCallable self.now.depth (R.pre self.now.record) }
    {
        if let DeclCore::Nested(inner) = &d.core {
            self.read_parts(inner.get(), values, least, checker)?;
        }
        for part in d.parts.as_slice() {
            match self.read_part(part, checker) {
                Ok(value) => values.push(value)?,
                Err(stop) => {
                    least.note(stop)?;
                    values.push(PartValue::Refused)?;
                }
            }
        }
        Ok(())
    }

    #[cycle(declarators)]
    fn read_part(&self, part: &DeclPart, checker: &mut Checker) -> Result<PartValue, Stop>
        requires value { IsCallable self.now.depth (V.pre self.now.value) }
        requires record { IsCallable self.now.depth (R.pre self.now.record) }
    {
        match part {
            DeclPart::Array { size, .. } => Ok(PartValue::Size(self.array_size(
                size,
                part_spot(part),
                checker,
            )?)),
            DeclPart::Params { list, dots, .. } => {
                let dots = dots.is_some();
                Ok(PartValue::Params(self.params(list.as_slice(), dots, checker)?))
            }
        }
    }

    #[cycle(declarators)]
    fn params(&self, list: &[Param], dots: bool, checker: &mut Checker) -> Result<Params, Stop>
        requires value { IsCallable self.now.depth (V.pre self.now.value) }
        requires record { IsCallable self.now.depth (R.pre self.now.record) }
    {
        let scope = checker.open_scope();
        let mut least = Least::new();
        let mut names = Vec::new(checker.alloc);
        let alone = list.len() == 1 && !dots;
        for (number, param) in list.iter().enumerate() {
            match self.param(param, alone, names.len(), checker) {
                Ok(Some(name)) => names.push(name)?,
                Ok(None) => {}
                Err(stop) => least.note(stop)?,
            }
            if number >= limits::PARAMETERS {
                least.add(
                    faults::TOO_MANY_PARAMETERS,
                    head_spot(param.head.as_slice()),
                );
                break;
            }
        }
        least.finish()?;
        let kept = checker.kept(scope)?;
        checker.close_scope(scope);
        let types = types_of(checker, names.as_slice())?;
        Ok(Params {
            types,
            names,
            dots,
            scope: kept,
        })
    }

    // A parameter, None where it is the `void` of an empty list. `number` have come before.
    #[cycle(declarators)]
    fn param(
        &self,
        param: &Param,
        alone: bool,
        number: usize,
        checker: &mut Checker,
    ) -> Result<Option<ParamName>, Stop>
        requires value { IsCallable self.now.depth (V.pre self.now.value) }
        requires record { IsCallable self.now.depth (R.pre self.now.record) }
    {
        let head = head_spot(param.head.as_slice());
        let base = self
            .specifiers(param.head.as_slice(), false, false, checker)?
            .base;
        let mut least = Least::new();
        let (of, name, at) = match &param.declarator {
            None => (Some(base), None, head),
            Some(d) => {
                let declared = self.declarator(base, d, head, &mut least, checker)?;
                let name = name_in(d);
                let at = match name {
                    Some(_) => declarator_spot(d),
                    None => head,
                };
                (declared.of, name, at)
            }
        };
        let may_be_void = alone && param.declarator.is_none();
        declare_param(checker, of, name, at, may_be_void, number, least)
    }

    /// The type of a type name.
    pub fn named_type(&self, n: &TypeName, checker: &mut Checker) -> Result<TypeId, Stop>
        requires value { IsCallable self.now.depth (V.pre self.now.value) }
        requires record { IsCallable self.now.depth (R.pre self.now.record) }
    {
        let head = n.head.as_slice();
        let base = self.specifiers(head, false, false, checker)?.base;
        let mut least = Least::new();
        let of = match &n.declarator {
            None => Some(base),
            Some(d) => {
                self.declarator(base, d, head_spot(head), &mut least, checker)?
                    .of
            }
        };
        least.finish()?;
        Ok(of.unwrap_or(base))
    }
}

fn first_of(values: Vec<PartValue>) -> PartValue {
    for value in values {
        return value;
    }
    PartValue::Refused
}

fn types_of(checker: &Checker, names: &[ParamName]) -> Result<Vec<TypeId>, Stop> {
    let mut types = Vec::new(checker.alloc);
    for param in names {
        types.push(checker.types.unqualified(param.of))?;
    }
    Ok(types)
}

// Declares a parameter of this type, which is None where there is a fault before.
fn declare_param(
    checker: &mut Checker,
    of: Option<TypeId>,
    name: Option<u32>,
    at: Spot,
    may_be_void: bool,
    number: usize,
    before: Least,
) -> Result<Option<ParamName>, Stop> {
    let mut least = before;
    let adjusted = match of {
        Some(of) if may_be_void && is_void(checker, of) => return Ok(None),
        Some(of) => adjust(checker, of, at, &mut least)?,
        None => None,
    };
    if let Some(name) = name {
        if checker.look_up_here(name).is_some() {
            least.add(faults::DECLARED_OTHERWISE, at);
        }
    }
    least.finish()?;
    let Some(of) = adjusted else {
        return Ok(None);
    };
    if let Some(name) = name {
        let Ok(number) = u32::try_from(number) else {
            return Err(Stop::NoMemory);
        };
        checker.declare(name, Meaning::Object { number, of })?;
    }
    Ok(Some(ParamName { name, at, of }))
}

fn is_void(checker: &Checker, of: TypeId) -> bool {
    checker.types.table.kind(of) == TypeKind::Void && !checker.types.table.is_volatile(of)
}

// An array or a function as a parameter is a pointer (6.7.5.3).
fn adjust(
    checker: &mut Checker,
    of: TypeId,
    at: Spot,
    least: &mut Least,
) -> Result<Option<TypeId>, Stop> {
    match checker.types.table.kind(of) {
        TypeKind::Array(element, _) => Ok(Some(checker.types.pointer_to(element)?)),
        TypeKind::Function(_) => Ok(Some(checker.types.pointer_to(of)?)),
        TypeKind::Record(_) => {
            least.add(faults::AGGREGATE_VALUE, at);
            Ok(None)
        }
        TypeKind::Void => {
            least.add(faults::UNKNOWN_SIZE, at);
            Ok(None)
        }
        TypeKind::Int(_) | TypeKind::Pointer(_) => Ok(Some(of)),
    }
}
