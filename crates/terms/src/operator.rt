// The 25 operators: one constant table of their words and kinds, and what each computes.

ghost use Rattle.std.specs.Prelude.{◌≡◌, pos};
ghost use Rattle.terms.specs.Operators.{operator_of, signature_of, operands, result_of, arity as arity_of, truths};
ghost use Rattle.terms.specs.Numbers.{spanned, computed, truth};

use super::fits::Fits;
use super::kind::{Kind, Sort};
use super::number::{in_span, product, quotient, remainder};
use super::word::{Entry, lookup};

#[derive(Clone, Copy, Debug, PartialEq, Eq)]
pub enum Operator {
    Addi,
    Subi,
    Negi,
    Mul,
    Divi,
    Mod,
    Odd,
    Gei,
    Lei,
    Gti,
    Lti,
    Mini,
    Maxi,
    True,
    False,
    And,
    Or,
    Not,
    Implies,
    Impliedby,
    Notimplies,
    Notimpliedby,
    Equal,
    Notequal,
    If,
}

// What an operator takes, in written order.
#[derive(Clone, Copy, Debug, PartialEq, Eq)]
pub enum Operands {
    None,
    One(Sort),
    Two(Sort, Sort),
    Three(Sort, Sort, Sort),
}

#[derive(Clone, Copy, Debug, PartialEq, Eq)]
pub struct Signature {
    pub operands: Operands,
    pub result: Sort,
}

const NUMBER: Sort = Sort::Of(Kind::Number);

const TRUTH: Sort = Sort::Of(Kind::Truth);

const SAME: Sort = Sort::Same;

const ARITHMETIC: Signature = Signature {
    operands: Operands::Two(NUMBER, NUMBER),
    result: NUMBER,
};

const NEGATIVE: Signature = Signature {
    operands: Operands::One(NUMBER),
    result: NUMBER,
};

const PARITY: Signature = Signature {
    operands: Operands::One(NUMBER),
    result: TRUTH,
};

const COMPARISON: Signature = Signature {
    operands: Operands::Two(NUMBER, NUMBER),
    result: TRUTH,
};

const CONSTANT: Signature = Signature {
    operands: Operands::None,
    result: TRUTH,
};

const CONNECTIVE: Signature = Signature {
    operands: Operands::Two(TRUTH, TRUTH),
    result: TRUTH,
};

const NEGATION: Signature = Signature {
    operands: Operands::One(TRUTH),
    result: TRUTH,
};

const EQUALITY: Signature = Signature {
    operands: Operands::Two(SAME, SAME),
    result: TRUTH,
};

const CHOICE: Signature = Signature {
    operands: Operands::Three(TRUTH, SAME, SAME),
    result: SAME,
};

// The word of each operator, which `!` follows in a unit, and its signature, in the order of `Operator`.
static OPERATORS: [Entry<(Operator, Signature)>; 25] = [
    Entry(b"addi", (Operator::Addi, ARITHMETIC)),
    Entry(b"subi", (Operator::Subi, ARITHMETIC)),
    Entry(b"negi", (Operator::Negi, NEGATIVE)),
    Entry(b"mul", (Operator::Mul, ARITHMETIC)),
    Entry(b"divi", (Operator::Divi, ARITHMETIC)),
    Entry(b"mod", (Operator::Mod, ARITHMETIC)),
    Entry(b"odd", (Operator::Odd, PARITY)),
    Entry(b"gei", (Operator::Gei, COMPARISON)),
    Entry(b"lei", (Operator::Lei, COMPARISON)),
    Entry(b"gti", (Operator::Gti, COMPARISON)),
    Entry(b"lti", (Operator::Lti, COMPARISON)),
    Entry(b"mini", (Operator::Mini, ARITHMETIC)),
    Entry(b"maxi", (Operator::Maxi, ARITHMETIC)),
    Entry(b"true", (Operator::True, CONSTANT)),
    Entry(b"false", (Operator::False, CONSTANT)),
    Entry(b"and", (Operator::And, CONNECTIVE)),
    Entry(b"or", (Operator::Or, CONNECTIVE)),
    Entry(b"not", (Operator::Not, NEGATION)),
    Entry(b"implies", (Operator::Implies, CONNECTIVE)),
    Entry(b"impliedby", (Operator::Impliedby, CONNECTIVE)),
    Entry(b"notimplies", (Operator::Notimplies, CONNECTIVE)),
    Entry(b"notimpliedby", (Operator::Notimpliedby, CONNECTIVE)),
    Entry(b"equal", (Operator::Equal, EQUALITY)),
    Entry(b"notequal", (Operator::Notequal, EQUALITY)),
    Entry(b"if", (Operator::If, CHOICE)),
];

// The operator of a word, written without its `!`.
pub fn find(word: &[u8]) -> Option<Operator>
    ensures { result ≡ operator_of word.now }
{
    lookup(word, &OPERATORS).map(|(operator, _)| operator)
}

impl Operator {
    // What it takes and gives.
    pub fn signature(self) -> Signature
        ensures { result ≡ signature_of self }
    {
        OPERATORS[self as usize].1.1
    }

    // How many operands it takes.
    pub fn arity(self) -> usize
        ensures { result ≡ arity_of self }
    {
        match self.signature().operands {
            Operands::None => 0,
            Operands::One(_) => 1,
            Operands::Two(_, _) => 2,
            Operands::Three(_, _, _) => 3,
        }
    }

    // Whether each operand that it takes fits its place.
    pub fn takes<X: Copy, F: Fits<X>>(self, test: &F, a: X, b: X, c: X) -> bool
        ensures { result ≡ operands (F.fits test.now) self a b c }
    {
        match self.signature().operands {
            Operands::None => true,
            Operands::One(s) => test.fits(s, a),
            Operands::Two(s, t) => test.fits(s, a) && test.fits(t, b),
            Operands::Three(s, t, u) => test.fits(s, a) && test.fits(t, b) && test.fits(u, c),
        }
    }

    // What it gives for its operands, `None` where that lies outside the span. It ignores what stands past its last operand.
    pub fn compute(self, a: i64, b: i64, c: i64) -> Option<i64>
        ensures { result ≡ spanned (computed self a b c) }
    {
        match self {
            Operator::Addi => in_span(a as i128 + b as i128),
            Operator::Subi => in_span(a as i128 - b as i128),
            Operator::Negi => in_span(-(a as i128)),
            Operator::Mul => in_span(product(a, b)),
            Operator::Divi => in_span(quotient(a, b)),
            Operator::Mod => in_span(remainder(a, b)),
            Operator::Mini => in_span(a.min(b) as i128),
            Operator::Maxi => in_span(a.max(b) as i128),
            Operator::If => in_span(if a == 1 { b as i128 } else { c as i128 }),
            _ => Some(self.decide(a, b) as i64),
        }
    }

    // What an operator whose result is a truth decides.
    fn decide(self, a: i64, b: i64) -> bool
        ensures { result_of self ≡ truths → truth result ≡ computed self a b (pos 0) }
    {
        match self {
            Operator::Odd => a % 2 != 0,
            Operator::Gei => a >= b,
            Operator::Lei => a <= b,
            Operator::Gti => a > b,
            Operator::Lti => a < b,
            Operator::True => true,
            Operator::And => a == 1 && b == 1,
            Operator::Or => a == 1 || b == 1,
            Operator::Not => a != 1,
            Operator::Implies => a != 1 || b == 1,
            Operator::Impliedby => b != 1 || a == 1,
            Operator::Notimplies => a == 1 && b != 1,
            Operator::Notimpliedby => b == 1 && a != 1,
            Operator::Equal => a == b,
            Operator::Notequal => a != b,
            _ => false,
        }
    }
}
