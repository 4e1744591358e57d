//! From the numbers of one function to those of the program.

use crate::expression::{TypedExpr, TypedKind};
use crate::program::InitialPart;
use crate::statement::TypedStatement;
use sv_base::SiteId;

/// What an object of a function, or a name with linkage of a file, is in the program.
#[derive(Clone, Copy, Debug, PartialEq, Eq)]
pub enum Target {
    /// An automatic object of the function.
    Local(u32),
    Static(u32),
    Function(u32),
}

/// What the numbers in a function become. A number for which nothing stands here stays as it is.
#[derive(Drop)]
pub struct Renumbering {
    /// By the number of an object of the function.
    pub objects: Vec<Target>,
    /// By the number of a name with linkage of the file.
    pub linked: Vec<Target>,
    /// By the number that a site has in the function; none where it turned out to be no site.
    pub sites: Vec<Option<SiteId>>,
}

fn named(target: Target) -> TypedKind {
    match target {
        Target::Local(number) => TypedKind::Local(number),
        Target::Static(number) => TypedKind::Static(number),
        Target::Function(number) => TypedKind::Function(number),
    }
}

impl Renumbering {
    fn object(&self, number: u32) -> Target {
        match self.objects.get(number as usize) {
            Some(target) => *target,
            None => Target::Local(number),
        }
    }

    fn site(&self, site: Option<SiteId>) -> Option<SiteId> {
        let Some(SiteId(number)) = site else {
            return None;
        };
        match self.sites.get(number as usize) {
            Some(target) => *target,
            None => site,
        }
    }

    // What names an object or a function, anew.
    fn name(&self, kind: &TypedKind) -> Option<TypedKind> {
        match kind {
            TypedKind::Local(number) => Some(named(self.object(*number))),
            TypedKind::Linked(number) => {
                let target = self.linked.get(*number as usize)?;
                Some(named(*target))
            }
            _ => None,
        }
    }

    /// An expression and those inside it.
    #[cycle(renumbered)]
    pub fn expression(&self, e: &mut TypedExpr) {
        if let Some(kind) = self.name(&e.kind) {
            e.kind = kind;
            return;
        }
        match &mut e.kind {
            TypedKind::Deref(a, site) => {
                *site = self.site(*site);
                self.expression(a)
            }
            TypedKind::Member(a, _) => self.expression(a),
            TypedKind::Read(a) => self.expression(a),
            TypedKind::Decay(a) => self.expression(a),
            TypedKind::AddressOf(a) => self.expression(a),
            TypedKind::Convert(a) => self.expression(a),
            TypedKind::Unary(_, a) => self.expression(a),
            TypedKind::Not(a) => self.expression(a),
            _ => self.wider(e),
        }
    }

    // What has more than one operand, or none.
    #[cycle(renumbered)]
    fn wider(&self, e: &mut TypedExpr) {
        match &mut e.kind {
            TypedKind::Binary(_, a, b) => {
                self.expression(a);
                self.expression(b)
            }
            TypedKind::Minus(a, b) => {
                self.expression(a);
                self.expression(b)
            }
            TypedKind::Compare(_, a, b) => {
                self.expression(a);
                self.expression(b)
            }
            TypedKind::Both(a, b) => {
                self.expression(a);
                self.expression(b)
            }
            TypedKind::Either(a, b) => {
                self.expression(a);
                self.expression(b)
            }
            TypedKind::Assign(a, b) => {
                self.expression(a);
                self.expression(b)
            }
            TypedKind::Comma(a, b) => {
                self.expression(a);
                self.expression(b)
            }
            TypedKind::Sum { pointer, index, .. } => {
                self.expression(pointer);
                self.expression(index)
            }
            TypedKind::Update { target, by, .. } => {
                self.expression(target);
                self.expression(by)
            }
            TypedKind::Choose(c, a, b) => {
                self.expression(c);
                self.expression(a);
                self.expression(b)
            }
            TypedKind::Call(function, arguments) => {
                self.expression(function);
                self.expressions(arguments)
            }
            _ => {}
        }
    }

    #[cycle(renumbered)]
    fn expressions(&self, list: &mut [TypedExpr]) {
        for i in 0..list.len() {
            self.expression(&mut list[i]);
        }
    }

    /// The values of an initialiser.
    pub fn parts(&self, parts: &mut [InitialPart]) {
        for i in 0..parts.len() {
            self.expression(&mut parts[i].value);
        }
    }

    // The numbers of a block's automatic objects. Those that became static leave it.
    fn block(&self, objects: &mut Vec<u32>) {
        objects.retain(|number| self.automatic(*number).is_some());
        for number in objects.iter_mut() {
            *number = self.automatic(*number).unwrap_or(*number);
        }
    }

    fn automatic(&self, number: u32) -> Option<u32> {
        match self.object(number) {
            Target::Local(number) => Some(number),
            _ => None,
        }
    }

    /// A statement and those inside it.
    #[cycle(renumbered_statements)]
    pub fn statement(&self, s: &mut TypedStatement) {
        match s {
            TypedStatement::Block { objects, items } => {
                self.block(objects);
                self.statements(items)
            }
            TypedStatement::Start(number) => {
                *number = self.automatic(*number).unwrap_or(*number);
            }
            TypedStatement::Plain(e) => self.expression(e),
            TypedStatement::If(e, then, other) => {
                self.expression(e);
                self.statement(then);
                self.statement(other)
            }
            TypedStatement::Switch(e, body) => {
                self.expression(e);
                self.statement(body)
            }
            TypedStatement::While(e, body) => {
                self.expression(e);
                self.statement(body)
            }
            TypedStatement::Do(body, e) => {
                self.statement(body);
                self.expression(e)
            }
            TypedStatement::For { test, last, body } => {
                self.optional(test);
                self.optional(last);
                self.statement(body)
            }
            TypedStatement::Return(value) => self.optional(value),
            _ => {}
        }
    }

    #[cycle(renumbered_statements)]
    fn statements(&self, list: &mut [TypedStatement]) {
        for i in 0..list.len() {
            self.statement(&mut list[i]);
        }
    }

    fn optional(&self, e: &mut Option<TypedExpr>) {
        if let Some(e) = e {
            self.expression(e);
        }
    }
}
