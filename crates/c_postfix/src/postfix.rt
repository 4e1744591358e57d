ghost use Rattle.std.specs.Prelude.{◌≡◌, ℕ, [], ◌∷◌, IfOk, OnOk, IsErrOf};
ghost use Rattle.c_grammar.specs.Items.{Sym, nt, sym as symbol};
ghost use Rattle.c_grammar.specs.Marks as m;
ghost use Rattle.c_postfix.specs.Runs.{Runs};
ghost use Rattle.c_reads.specs.Exact.{Stops, Read, Refused, Past, Makes};
ghost use Rattle.c_cursor.specs.Parsers.{Reads};
ghost use Rattle.c_reads.specs.Postfix as spec;
ghost use Rattle.c_reads.specs.Postfix.{Inside, postfix_goes_on};

use crate::inner::{Inner, Postfix};
use crate::nodes;
use c_cursor::{Cursor, ReadError};
use c_reads::postfix_is_exact;
use c_syntax::marks;
use c_tree::{HeldArguments, HeldExpr};
use std::alloc::Global;

impl<
    S: Inner,
    F: Fn(Global, usize, &mut Cursor<'_>) -> Result<HeldExpr, ReadError>,
    G: Fn(Global, usize, &mut Cursor<'_>) -> Result<HeldExpr, ReadError>,
> Postfix<S, F, G> {
    // An expression up to the `]` that closes it.
    #[tactic(auto, unfolding(c_reads::specs::Postfix::enclosed))]
    fn in_brackets(&self, cursor: &mut Cursor<'_>) -> Result<HeldExpr, ReadError>
        requires { Runs S.inside self.now.depth (F.pre self.now.inside) (F.post self.now.inside) }
        ensures { Reads (spec.enclosed (S.inside self.now.depth) m.right_bracket cursor.old) result cursor.new }
    {
        cursor.enter()?;
        let inside = self.inside(cursor)?;
        cursor.take_closing(marks::RIGHT_BRACKET)?;
        cursor.leave();
        Ok(inside)
    }

    // A subscript behind its operand (6.5.2.1).
    #[tactic(auto, unfolding(c_reads::specs::Postfix::subscript))]
    fn subscript(&self, left: HeldExpr, cursor: &mut Cursor<'_>) -> Result<HeldExpr, ReadError>
        requires { Runs S.inside self.now.depth (F.pre self.now.inside) (F.post self.now.inside) }
        ensures { Reads (spec.subscript (S.inside self.now.depth) (S.argument self.now.depth) left cursor.old) result cursor.new }
    {
        let token = cursor.take_operator(marks::LEFT_BRACKET)?;
        let inside = self.in_brackets(cursor)?;
        Ok(nodes::index(self.alloc, token, left, inside)?)
    }

    #[tactic(auto, unfolding(c_reads::specs::Postfix::one_argument))]
    fn one_argument(&self, cursor: &mut Cursor<'_>) -> Result<HeldExpr, ReadError>
        requires { Runs S.argument self.now.depth (G.pre self.now.argument) (G.post self.now.argument) }
        ensures { Reads (spec.one_argument (S.inside self.now.depth) (S.argument self.now.depth) cursor.old) result cursor.new }
    {
        cursor.begin_operand()?;
        let argument = self.argument(cursor)?;
        cursor.end_operand();
        Ok(argument)
    }

    // Arguments, of which there is one at least (6.5.2).
    fn some_arguments(&self, cursor: &mut Cursor<'_>) -> Result<HeldArguments, ReadError>
        requires { Runs S.argument self.now.depth (G.pre self.now.argument) (G.post self.now.argument) }
        ensures { Reads (spec.some_arguments (S.inside self.now.depth) (S.argument self.now.depth) cursor.old) result cursor.new }
    {
        let first = self.one_argument(cursor)?;
        let mut found = HeldArguments::new(self.alloc);
        found.push(first)?;
        for _turn in 0..cursor.turns() {
            if !cursor.sees_mark(marks::COMMA) {
                return Ok(found);
            }
            cursor.take_mark(marks::COMMA)?;
            let argument = self.one_argument(cursor)?;
            found.push(argument)?;
        }
        Err(ReadError::Spent)
    }

    #[tactic(auto, unfolding(c_reads::specs::Postfix::arguments, c_cursor::specs::Parsers::on))]
    fn arguments(&self, cursor: &mut Cursor<'_>) -> Result<HeldArguments, ReadError>
        requires { Runs S.argument self.now.depth (G.pre self.now.argument) (G.post self.now.argument) }
        ensures { Reads (spec.arguments (S.inside self.now.depth) (S.argument self.now.depth) cursor.old) result cursor.new }
    {
        if cursor.sees_mark(marks::RIGHT_PARENTHESIS) {
            return Ok(HeldArguments::new(self.alloc));
        }
        self.some_arguments(cursor)
    }

    // Arguments up to the `)` that closes them.
    #[tactic(auto, unfolding(c_reads::specs::Postfix::enclosed))]
    fn in_parentheses(&self, cursor: &mut Cursor<'_>) -> Result<HeldArguments, ReadError>
        requires { Runs S.argument self.now.depth (G.pre self.now.argument) (G.post self.now.argument) }
        ensures { Reads (spec.enclosed (spec.arguments (S.inside self.now.depth) (S.argument self.now.depth)) m.right_parenthesis cursor.old) result cursor.new }
    {
        cursor.enter()?;
        let found = self.arguments(cursor)?;
        cursor.take_closing(marks::RIGHT_PARENTHESIS)?;
        cursor.leave();
        Ok(found)
    }

    // A call behind its operand (6.5.2.2).
    #[tactic(auto, unfolding(c_reads::specs::Postfix::call))]
    fn call(&self, callee: HeldExpr, cursor: &mut Cursor<'_>) -> Result<HeldExpr, ReadError>
        requires { Runs S.argument self.now.depth (G.pre self.now.argument) (G.post self.now.argument) }
        ensures { Reads (spec.call (S.inside self.now.depth) (S.argument self.now.depth) callee cursor.old) result cursor.new }
    {
        let token = cursor.take_operator(marks::LEFT_PARENTHESIS)?;
        let found = self.in_parentheses(cursor)?;
        Ok(nodes::call(self.alloc, token, callee, found)?)
    }

    // `.` and a name (6.5.2.3).
    #[tactic(auto, unfolding(c_reads::specs::Postfix::member))]
    fn member(&self, left: HeldExpr, cursor: &mut Cursor<'_>) -> Result<HeldExpr, ReadError>
        ensures { Reads (spec.member (S.inside self.now.depth) (S.argument self.now.depth) left cursor.old) result cursor.new }
    {
        let token = cursor.take_operator(marks::PERIOD)?;
        let name = cursor.take_any_name()?;
        Ok(nodes::member(self.alloc, token, left, name)?)
    }

    // `->` and a name (6.5.2.3).
    #[tactic(auto, unfolding(c_reads::specs::Postfix::arrow))]
    fn arrow(&self, left: HeldExpr, cursor: &mut Cursor<'_>) -> Result<HeldExpr, ReadError>
        ensures { Reads (spec.arrow (S.inside self.now.depth) (S.argument self.now.depth) left cursor.old) result cursor.new }
    {
        let token = cursor.take_operator(marks::ARROW)?;
        let name = cursor.take_any_name()?;
        Ok(nodes::arrow(self.alloc, token, left, name)?)
    }

    // `++` or `--` behind its operand (6.5.2.4).
    #[tactic(auto, unfolding(c_reads::specs::Postfix::bump))]
    fn bump(&self, of: HeldExpr, cursor: &mut Cursor<'_>) -> Result<HeldExpr, ReadError>
        ensures { Reads (spec.bump (S.inside self.now.depth) (S.argument self.now.depth) of cursor.old) result cursor.new }
    {
        let token = cursor.take_bump()?;
        Ok(nodes::bump(self.alloc, token, of)?)
    }

    // One postfix operator behind its operand.
    #[tactic(auto, unfolding(c_reads::specs::Postfix::some_operator, c_cursor::specs::Parsers::on))]
    fn some_operator(&self, left: HeldExpr, cursor: &mut Cursor<'_>) -> Result<HeldExpr, ReadError>
        requires inside { Runs S.inside self.now.depth (F.pre self.now.inside) (F.post self.now.inside) }
        requires argument { Runs S.argument self.now.depth (G.pre self.now.argument) (G.post self.now.argument) }
        ensures { Reads (spec.some_operator (S.inside self.now.depth) (S.argument self.now.depth) left cursor.old) result cursor.new }
    {
        if cursor.sees_mark(marks::LEFT_BRACKET) {
            return self.subscript(left, cursor);
        }
        if cursor.sees_mark(marks::LEFT_PARENTHESIS) {
            return self.call(left, cursor);
        }
        if cursor.sees_mark(marks::PERIOD) {
            return self.member(left, cursor);
        }
        if cursor.sees_mark(marks::ARROW) {
            return self.arrow(left, cursor);
        }
        self.bump(left, cursor)
    }

    // The same where no limit is passed.
    #[tactic(auto, unfolding(c_reads::specs::Postfix::operator))]
    fn operator(&self, left: HeldExpr, cursor: &mut Cursor<'_>) -> Result<HeldExpr, ReadError>
        requires inside { Runs S.inside self.now.depth (F.pre self.now.inside) (F.post self.now.inside) }
        requires argument { Runs S.argument self.now.depth (G.pre self.now.argument) (G.post self.now.argument) }
        ensures { Reads (spec.operator (S.inside self.now.depth) (S.argument self.now.depth) left cursor.old) result cursor.new }
    {
        cursor.stop_past_limit()?;
        self.some_operator(left, cursor)
    }

    // All the postfix operators behind an operand, up to the first that passes a limit.
    fn operators(&self, mut left: HeldExpr, cursor: &mut Cursor<'_>) -> Result<HeldExpr, ReadError>
        requires inside { Runs S.inside self.now.depth (F.pre self.now.inside) (F.post self.now.inside) }
        requires argument { Runs S.argument self.now.depth (G.pre self.now.argument) (G.post self.now.argument) }
        ensures { Reads (spec.operators (S.inside self.now.depth) (S.argument self.now.depth) left cursor.old) result cursor.new }
    {
        for _turn in 0..cursor.turns() {
            if !cursor.sees_operator() {
                return Ok(left);
            }
            left = self.operator(left, cursor)?;
        }
        Err(ReadError::Spent)
    }

    // What the parser of postfix expressions computes.
    #[tactic(auto, unfolding(c_reads::specs::Postfix::postfix))]
    fn computed(&self, cursor: &mut Cursor<'_>) -> Result<HeldExpr, ReadError>
        requires inside { Runs S.inside self.now.depth (F.pre self.now.inside) (F.post self.now.inside) }
        requires argument { Runs S.argument self.now.depth (G.pre self.now.argument) (G.post self.now.argument) }
        ensures { Reads (spec.postfix (S.inside self.now.depth) (S.argument self.now.depth) cursor.old) result cursor.new }
    {
        let first = self.primary(cursor)?;
        self.operators(first, cursor)
    }

    /// A postfix expression (6.5.2), and no more than it. Where the functions inside read exactly what stands there, so does
    /// this one: a refusal names the first token with which nothing goes on, and it gives up only where a limit is passed.
    pub fn postfix(&self, cursor: &mut Cursor<'_>) -> Result<HeldExpr, ReadError>
        requires inside { Runs S.inside self.now.depth (F.pre self.now.inside) (F.post self.now.inside) }
        requires argument { Runs S.argument self.now.depth (G.pre self.now.argument) (G.post self.now.argument) }
        ensures reads { Reads (spec.postfix (S.inside self.now.depth) (S.argument self.now.depth) cursor.old) result cursor.new }
        ensures found { Inside (S.inside self.now.depth) (S.argument self.now.depth) → IfOk result (λ tree. Makes (nt Sym.Postfix tt tree ∷ []) cursor.old cursor.new) }
        ensures exactly { Inside (S.inside self.now.depth) (S.argument self.now.depth) → OnOk result (Read (Stops postfix_goes_on) (symbol Sym.Postfix ∷ []) cursor.old cursor.new) }
        ensures wrong { Inside (S.inside self.now.depth) (S.argument self.now.depth) → (left : ℕ) → IsErrOf result (ReadError.Wrong left) → Refused (Stops postfix_goes_on) (symbol Sym.Postfix ∷ []) cursor.old left }
        ensures too_deep { Inside (S.inside self.now.depth) (S.argument self.now.depth) → IsErrOf result ReadError.TooDeep → Past (symbol Sym.Postfix ∷ []) cursor.old }
        ensures turns { Inside (S.inside self.now.depth) (S.argument self.now.depth) → IsErrOf result ReadError.Spent → ⊥ }
    {
        postfix_is_exact();
        match self.computed(cursor) {
            Ok(tree) => Ok(tree),
            Err(fault) => Err(fault),
        }
    }
}
