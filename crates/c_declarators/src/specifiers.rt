//! Declaration specifiers (ISO/IEC 9899:1999, 6.7), and enumerations (6.7.2.2).
ghost use Rattle.c_names.specs.Knot.{IsCallable};

use crate::inside::Declarators;
use crate::specifier_words::{SpecifierWords, Specifiers};
use crate::spots::{head_spot, item_spot, spot_of, word_spot};
use crate::tags::{begun_enumeration, named_enumeration, named_record};
use c_faults::{Spot, Stop, refuse};
use c_names::{Checker, Meaning};
use c_tree::{EnumItem, Expr, SpecKind, SpecWord};
use c_typed::{HeldExpr, TypeId, Types};
use c_values::{IntType, greatest, least};
use sv_base::faults;

impl<
    V: Fn(&Expr, usize, &mut Checker) -> Result<HeldExpr, Stop>,
    R: Fn(&SpecWord, usize, &mut Checker) -> Result<TypeId, Stop>,
> Declarators<V, R> {
    /// What a list of specifiers says. `alone` says that the declaration has no declarator.
    pub fn specifiers(
        &self,
        head: &[SpecWord],
        takes_storage: bool,
        alone: bool,
        checker: &mut Checker,
    ) -> Result<Specifiers, Stop>
        requires value { IsCallable self.now.depth (V.pre self.now.value) }
        requires record { IsCallable self.now.depth (R.pre self.now.record) }
    {
        let mut words = SpecifierWords::new(takes_storage);
        let alone = alone && head.len() == 1;
        for word in head {
            self.word(word, alone, &mut words, checker)?;
        }
        words.finish(&mut checker.types, head_spot(head))
    }

    fn word(
        &self,
        word: &SpecWord,
        alone: bool,
        words: &mut SpecifierWords,
        checker: &mut Checker,
    ) -> Result<(), Stop>
        requires value { IsCallable self.now.depth (V.pre self.now.value) }
        requires record { IsCallable self.now.depth (R.pre self.now.record) }
    {
        let at = word_spot(word);
        if let SpecKind::Plain(keyword) = &word.kind {
            return words.take(*keyword, at);
        }
        words.expect_type(at)?;
        let of = self.type_word(word, alone, at, checker)?;
        words.take_type(of);
        Ok(())
    }

    // The type of a word that is no keyword.
    fn type_word(
        &self,
        word: &SpecWord,
        alone: bool,
        at: Spot,
        checker: &mut Checker,
    ) -> Result<TypeId, Stop>
        requires value { IsCallable self.now.depth (V.pre self.now.value) }
        requires record { IsCallable self.now.depth (R.pre self.now.record) }
    {
        match &word.kind {
            SpecKind::Plain(_) => refuse(faults::SPECIFIERS, at),
            SpecKind::Typedef(name) => typedef_type(checker, *name, at),
            SpecKind::Record {
                kind,
                tag: Some(tag),
                members: None,
            } => named_record(checker, *kind, *tag, alone, at),
            SpecKind::Record { .. } => self.record_inside(word, checker),
            SpecKind::Enum {
                tag: Some(tag),
                items: None,
            } => {
                named_enumeration(checker, *tag, at)?;
                Ok(Types::int(IntType::Int))
            }
            SpecKind::Enum { tag, items } => {
                begun_enumeration(checker, *tag, at)?;
                if let Some(items) = items {
                    self.enumerators(items.as_slice(), checker)?;
                }
                Ok(Types::int(IntType::Int))
            }
        }
    }

    // The constants of an enumeration, each one more than the one before where it has no value of its own.
    fn enumerators(&self, items: &[EnumItem], checker: &mut Checker) -> Result<(), Stop>
        requires { IsCallable self.now.depth (V.pre self.now.value) }
    {
        let mut next = 0i128;
        for item in items {
            let value = self.enumerator(item, next, checker)?;
            next = value.saturating_add(1);
        }
        Ok(())
    }

    fn enumerator(&self, item: &EnumItem, next: i128, checker: &mut Checker) -> Result<i128, Stop>
        requires { IsCallable self.now.depth (V.pre self.now.value) }
    {
        if checker.look_up_here(item.name).is_some() {
            return refuse(faults::DECLARED_OTHERWISE, item_spot(item));
        }
        let (value, at) = match &item.value {
            Some(e) => (self.required(e, checker)?, spot_of(e)),
            None => (next, item_spot(item)),
        };
        if value < least(IntType::Int) || greatest(IntType::Int) < value {
            return refuse(faults::NO_CONSTANT, at);
        }
        checker.declare(item.name, Meaning::Constant(value))?;
        Ok(value)
    }
}

fn typedef_type(checker: &Checker, name: u32, at: Spot) -> Result<TypeId, Stop> {
    match checker.look_up(name) {
        Some(Meaning::Typedef(of)) => Ok(of),
        _ => refuse(faults::DECLARED_OTHERWISE, at),
    }
}
