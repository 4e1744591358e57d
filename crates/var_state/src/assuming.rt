use crate::range::Range;
use crate::state::State;
use c_values::Cmp;
use core_ir::Operand;

impl State {
    /// Cuts the state by a comparison that holds. Registers of one cluster are related by it, of others the bounds are cut.
    pub fn assume(&mut self, c: Cmp, a: Operand, b: Operand) {
        match c {
            Cmp::Lt => self.assume_at_most(a, b, -1),
            Cmp::Le => self.assume_at_most(a, b, 0),
            Cmp::Gt => self.assume_at_most(b, a, -1),
            Cmp::Ge => self.assume_at_most(b, a, 0),
            Cmp::Eq => {
                self.assume_at_most(a, b, 0);
                self.assume_at_most(b, a, 0);
            }
            Cmp::Ne => self.assume_apart(a, b),
        }
    }

    // Assumes `a - b <= c`, where c is 0 or -1.
    fn assume_at_most(&mut self, a: Operand, b: Operand, c: i128) {
        if self.is_bottom() {
            return;
        }
        match (a, b) {
            (Operand::Reg(a), Operand::Reg(b)) => self.relate(a, b, c),
            (Operand::Reg(a), Operand::Const(b)) => self.cut_high(a, b.saturating_add(c)),
            (Operand::Const(a), Operand::Reg(b)) => self.cut_low(b, a.saturating_sub(c)),
            (Operand::Const(a), Operand::Const(b)) => {
                if c < a.saturating_sub(b) {
                    self.set_bottom();
                }
            }
        }
    }

    fn relate(&mut self, a: u32, b: u32, c: i128) {
        if a == b {
            if c < 0 {
                self.set_bottom();
            }
            return;
        }
        if self.frame.place(a).cluster == self.frame.place(b).cluster {
            self.add_difference(a, b, c);
            return;
        }
        let least = self.numbers(self.frame.place(a)).low;
        let most = self.numbers(self.frame.place(b)).high;
        self.cut_high(a, most.saturating_add(c));
        self.cut_low(b, least.saturating_sub(c));
    }

    /// The numbers of a register above c are left out.
    fn cut_high(&mut self, r: u32, c: i128) {
        if self.is_bottom() {
            return;
        }
        self.drop_widened();
        let place = self.frame.place(r);
        self.tighten(place.cluster, 0, place.position, c);
    }

    /// The numbers of a register below c are left out.
    fn cut_low(&mut self, r: u32, c: i128) {
        if self.is_bottom() {
            return;
        }
        self.drop_widened();
        let place = self.frame.place(r);
        self.tighten(place.cluster, place.position, 0, 0i128.saturating_sub(c));
    }

    fn operand_numbers(&self, o: Operand) -> Range {
        match o {
            Operand::Reg(r) => return self.numbers(self.frame.place(r)),
            Operand::Const(c) => return Range::from_ends(c, c),
        }
    }

    // Assumes that the two differ: an end of one that equals the only number of the other is cut, first of a, then of b.
    fn assume_apart(&mut self, a: Operand, b: Operand) {
        if self.is_bottom() {
            return;
        }
        let left = self.operand_numbers(a);
        let right = self.operand_numbers(b);
        if left.is_one() && left.is_same(right) {
            self.set_bottom();
            return;
        }
        self.cut_end(a, right);
        if !self.is_bottom() {
            self.cut_end(b, self.operand_numbers(a));
        }
    }

    fn cut_end(&mut self, o: Operand, only: Range) {
        let Operand::Reg(r) = o else {
            return;
        };
        if !only.is_one() {
            return;
        }
        let numbers = self.numbers(self.frame.place(r));
        if numbers.is_one() && numbers.is_same(only) {
            self.set_bottom();
        } else if numbers.low == only.low {
            self.cut_low(r, only.low.saturating_add(1));
        } else if numbers.high == only.low {
            self.cut_high(r, only.low.saturating_sub(1));
        }
    }
}
