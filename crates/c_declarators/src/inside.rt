ghost use Rattle.c_names.specs.Knot.{IsCallable};

use crate::constants::is_constant_form;
use crate::spots::spot_of;
use c_faults::{Fault, Spot, Stop, refuse, sooner};
use c_forms::{Constant, constant_of};
use c_names::Checker;
use c_tree::{Expr, SpecWord};
use c_typed::{HeldExpr, TypeId};
use sv_base::faults;

/// Checks specifiers and declarators, over functions that check what stands inside one level deeper.
#[derive(Clone, Copy)]
pub struct Declarators<V, R> {
    /// How deep what stands inside may still nest.
    pub depth: usize,
    /// The value of an expression.
    pub value: V,
    /// The type of a structure or union with its content.
    pub record: R,
}

impl<
    V: Fn(&Expr, usize, &mut Checker) -> Result<HeldExpr, Stop>,
    R: Fn(&SpecWord, usize, &mut Checker) -> Result<TypeId, Stop>,
> Declarators<V, R> {
    fn value_inside(&self, e: &Expr, checker: &mut Checker) -> Result<HeldExpr, Stop>
        requires { IsCallable self.now.depth (V.pre self.now.value) }
    {
        (self.value)(e, self.depth, checker)
    }

    pub(crate) fn record_inside(
        &self,
        word: &SpecWord,
        checker: &mut Checker,
    ) -> Result<TypeId, Stop>
        requires { IsCallable self.now.depth (R.pre self.now.record) }
    {
        (self.record)(word, self.depth, checker)
    }

    /// The value of an expression that has to be an integer constant (ISO/IEC 9899:1999, 6.6). That it has not the form shows
    /// at its operator, which faults of its own may come before.
    pub fn required(&self, e: &Expr, checker: &mut Checker) -> Result<i128, Stop>
        requires { IsCallable self.now.depth (V.pre self.now.value) }
    {
        let at = spot_of(e);
        let none = Fault {
            kind: faults::NO_CONSTANT,
            at,
        };
        let in_form = is_constant_form(e, checker);
        match self.value_inside(e, checker) {
            Ok(value) => match constant_of(&checker.types.table, &value.node) {
                Constant::Value(number) if in_form => Ok(number),
                _ => Err(Stop::Fault(none)),
            },
            Err(Stop::Fault(fault)) if !in_form => Err(Stop::Fault(sooner(none, fault))),
            Err(stop) => Err(stop),
        }
    }

    /// The size of an array (6.7.5.2), whose bracket stands at the token. None where it is left out.
    pub fn array_size(
        &self,
        size: &Option<Expr>,
        at: Spot,
        checker: &mut Checker,
    ) -> Result<Option<u64>, Stop>
        requires { IsCallable self.now.depth (V.pre self.now.value) }
    {
        match size {
            Some(e) if is_constant_form(e, checker) => {
                let value = self.value_inside(e, checker)?;
                counted(constant_of(&checker.types.table, &value.node), at)
            }
            Some(_) => refuse(faults::VARIABLE_ARRAY, at),
            None => Ok(None),
        }
    }
}

fn counted(size: Constant, at: Spot) -> Result<Option<u64>, Stop> {
    match size {
        Constant::Value(count) => match u64::try_from(count) {
            Ok(count) if count != 0 => Ok(Some(count)),
            _ => refuse(faults::NO_CONSTANT, at),
        },
        Constant::Undefined => refuse(faults::NO_CONSTANT, at),
        Constant::NotInForm => refuse(faults::VARIABLE_ARRAY, at),
    }
}
