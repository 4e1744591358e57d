use crate::boundary_rows::{OPERATORS, UNARY_OPERATORS};
use crate::operators::{answer_of, answer_to, unary_answer_to};
use crate::words;
use c_values::{IntType, Op};

fn boundaries(t: IntType) -> &'static str {
    match t {
        IntType::Bool => "0 1",
        IntType::Char | IntType::SChar => "-128 -127 -1 0 1 126 127",
        IntType::UChar => "0 1 254 255",
        IntType::Short => "-32768 -32767 -1 0 1 32766 32767",
        IntType::UShort => "0 1 65534 65535",
        IntType::Int | IntType::Long => "-2147483648 -2147483647 -1 0 1 2147483646 2147483647",
        IntType::UInt | IntType::ULong => "0 1 4294967294 4294967295",
        IntType::LongLong => {
            "-9223372036854775808 -9223372036854775807 -1 0 1 9223372036854775806 9223372036854775807"
        }
        IntType::ULongLong => "0 1 18446744073709551614 18446744073709551615",
    }
}

/// The boundary values as counts of a shift, with counts about zero and about the width.
fn counts(t: IntType) -> &'static str {
    match t {
        IntType::Bool => "-1 0 1 2",
        IntType::Char | IntType::SChar => "-128 -127 -1 0 1 6 7 8 126 127",
        IntType::UChar => "-1 0 1 6 7 8 254 255",
        IntType::Short => "-32768 -32767 -1 0 1 14 15 16 32766 32767",
        IntType::UShort => "-1 0 1 14 15 16 65534 65535",
        IntType::Int | IntType::Long => {
            "-2147483648 -2147483647 -1 0 1 30 31 32 2147483646 2147483647"
        }
        IntType::UInt | IntType::ULong => "-1 0 1 30 31 32 4294967294 4294967295",
        IntType::LongLong => {
            "-9223372036854775808 -9223372036854775807 -1 0 1 62 63 64 9223372036854775806 9223372036854775807"
        }
        IntType::ULongLong => "-1 0 1 62 63 64 18446744073709551614 18446744073709551615",
    }
}

fn right_operands(op: Op, t: IntType) -> &'static str {
    match op {
        Op::Shl | Op::Shr => counts(t),
        _ => boundaries(t),
    }
}

#[test]
fn operators_at_boundaries_are_those_of_c(rt: HostRuntime) {
    for row in OPERATORS.split('\n') {
        let Some((head, answers)) = row.split_once(": ") else {
            panic!(rt; "{row} has answers");
        };
        let mut words = head.split(' ');
        let op = words::op(words.next());
        let t = words::int_type(words.next());
        let (Some(op), Some(t), Some(a)) = (op, t, words::number(words.next())) else {
            panic!(rt; "{row} begins with an operator, a type and a number");
        };
        let rights = right_operands(op, t);
        assert_eq!(rt;
            answers.split(' ').count(),
            rights.split(' ').count(),
            "{row} is whole"
        );
        for (right, answer) in rights.split(' ').zip(answers.split(' ')) {
            let Ok(b) = right.parse::<i128>() else {
                panic!(rt; "{right} is a number");
            };
            let found = answer_to(op, t, a, b);
            assert!(rt; found.is_some(), "{b} is no operand of {op:?} of {t:?}");
            assert_eq!(rt; found, answer_of(answer), "{op:?} of {t:?} at {a} and {b}");
        }
    }
}

#[test]
fn unary_operators_at_boundaries_are_those_of_c(rt: HostRuntime) {
    for row in UNARY_OPERATORS.split('\n') {
        let Some((head, answers)) = row.split_once(": ") else {
            panic!(rt; "{row} has answers");
        };
        let mut words = head.split(' ');
        let op = words::unary_op(words.next());
        let (Some(op), Some(t)) = (op, words::int_type(words.next())) else {
            panic!(rt; "{row} begins with an operator and a type");
        };
        let operands = boundaries(t);
        assert_eq!(rt;
            answers.split(' ').count(),
            operands.split(' ').count(),
            "{row} is whole"
        );
        for (operand, answer) in operands.split(' ').zip(answers.split(' ')) {
            let Ok(a) = operand.parse::<i128>() else {
                panic!(rt; "{operand} is a number");
            };
            let found = unary_answer_to(op, t, a);
            assert!(rt; found.is_some(), "{a} is no operand of {op:?} of {t:?}");
            assert_eq!(rt; found, answer_of(answer), "{op:?} of {t:?} at {a}");
        }
    }
}
