// Words of 32 bits in two's complement: the operations of the document's table, their operand counts, and the demand.
#![tactic(auto)]

pub mod limits;

ghost use Rattle.std.specs.Prelude.{◌≡◌, ◌≢◌, MatchOption};
ghost use Rattle.word.specs.Choice.{bit as bit_of};
ghost use Rattle.word.specs.Word.{with_sign};
ghost use Rattle.word.specs.declared.Operation.{Operation};
ghost use Rattle.word.specs.Table.{number_of};
ghost use Rattle.word.specs.Operation.{add as add_of, subtract as subtract_of, multiply as multiply_of, quotient as quotient_of, remainder as remainder_of, less as less_of, equal as equal_of, absolute as absolute_of, negate as negate_of, select as select_of, operate as operate_of, operands as operands_of, demand as demand_of};

// The words from here on stand for negative numbers.
const HALF: u32 = 2147483648;

pub fn add(a: u32, b: u32) -> u32
    ensures { result ≡ add_of a b }
{
    a.wrapping_add(b)
}

pub fn subtract(a: u32, b: u32) -> u32
    ensures { result ≡ subtract_of a b }
{
    a.wrapping_sub(b)
}

// The low half of the 64-bit product.
pub fn multiply(a: u32, b: u32) -> u32
    ensures { result ≡ multiply_of a b }
{
    (a as u64 * b as u64 % 4294967296) as u32
}

pub fn negate(a: u32) -> u32
    ensures { result ≡ negate_of a }
{
    a.wrapping_neg()
}

pub fn absolute(a: u32) -> u32
    ensures { result ≡ absolute_of a }
{
    if a < HALF { a } else { negate(a) }
}

// A magnitude with its sign.
fn with_sign(positive: bool, m: u32) -> u32
    ensures { result ≡ with_sign positive m }
{
    if positive { m } else { negate(m) }
}

// The quotient of the magnitudes, negative where the signs differ.
pub fn quotient(a: u32, b: u32) -> u32
    ensures { result ≡ quotient_of a b }
{
    if b == 0 {
        return 0;
    }
    with_sign((a < HALF) == (b < HALF), absolute(a) / absolute(b))
}

// The remainder of the magnitudes, with the dividend's sign.
pub fn remainder(a: u32, b: u32) -> u32
    ensures { result ≡ remainder_of a b }
{
    if b == 0 {
        return 0;
    }
    with_sign(a < HALF, absolute(a) % absolute(b))
}

// With the sign bit flipped the words are in the order of their values.
pub fn less(a: u32, b: u32) -> u32
    ensures { result ≡ less_of a b }
{
    bit(a.wrapping_add(HALF) < b.wrapping_add(HALF))
}

#[tactic(auto, unfolding(crate::specs::Operation::equal))]
pub fn equal(a: u32, b: u32) -> u32
    ensures { result ≡ equal_of a b }
{
    bit(a == b)
}

// The second where the first is 0, otherwise the third.
pub fn select(a: u32, b: u32, c: u32) -> u32
    ensures { result ≡ select_of a b c }
{
    if a != 0 { c } else { b }
}

// The operations of the document's table.
#[derive(Clone, Copy, Debug, PartialEq, Eq)]
pub enum Operation {
    Add = 1,
    Subtract = 2,
    Multiply = 3,
    Quotient = 4,
    Remainder = 5,
    Less = 6,
    Equal = 7,
    Absolute = 8,
    Negate = 9,
    Select = 10,
}

impl Operation {
    // The operation of the number `op`, where there is one.
    pub fn numbered(op: u32) -> Option<Operation>
        ensures { MatchOption result ((o : Operation) → number_of o ≢ op) (λ o. number_of o ≡ op) }
    {
        match op {
            1 => Some(Operation::Add),
            2 => Some(Operation::Subtract),
            3 => Some(Operation::Multiply),
            4 => Some(Operation::Quotient),
            5 => Some(Operation::Remainder),
            6 => Some(Operation::Less),
            7 => Some(Operation::Equal),
            8 => Some(Operation::Absolute),
            9 => Some(Operation::Negate),
            10 => Some(Operation::Select),
            _ => None,
        }
    }

    // Its number in the table.
    pub fn number(self) -> u32
        ensures { result ≡ number_of self }
    {
        self as u32
    }

    // How many inputs it has.
    pub fn operands(self) -> u32
        ensures { result ≡ operands_of (number_of self) }
    {
        operands(self.number())
    }

    // Its value; one with fewer inputs does not read the others.
    #[tactic(auto, unfolding(crate::specs::Operation::operate))]
    pub fn value(self, a: u32, b: u32, c: u32) -> u32
        ensures { result ≡ operate_of (number_of self) a b c }
    {
        match self {
            Operation::Add => add(a, b),
            Operation::Subtract => subtract(a, b),
            Operation::Multiply => multiply(a, b),
            Operation::Quotient => quotient(a, b),
            Operation::Remainder => remainder(a, b),
            Operation::Less => less(a, b),
            Operation::Equal => equal(a, b),
            Operation::Absolute => absolute(a),
            Operation::Negate => negate(a),
            Operation::Select => select(a, b, c),
        }
    }
}

// The value of the operation of the number `op`; 0 where there is no such operation.
pub fn operate(op: u32, a: u32, b: u32, c: u32) -> u32
    ensures { result ≡ operate_of op a b c }
{
    match Operation::numbered(op) {
        Some(operation) => operation.value(a, b, c),
        None => 0,
    }
}

// How many inputs an operation has, by its number; there is no operation 0.
const OPERANDS: [u32; 11] = [0, 2, 2, 2, 2, 2, 2, 2, 1, 1, 3];

// The inputs of the operation of the number `op`; 0 where there is no such operation.
pub fn operands(op: u32) -> u32
    ensures { result ≡ operands_of op }
{
    let at = op as usize;
    if at < OPERANDS.len() {
        return OPERANDS[at];
    }
    0
}

// Is a clock of this value a demand?
pub fn demand(clock: u32) -> bool
    ensures { result ≡ demand_of clock }
{
    clock != 0
}

// 1 for true, 0 for false.
pub fn bit(b: bool) -> u32
    ensures { result ≡ bit_of b }
{
    u32::from(b)
}

// A word as an index.
pub fn index(word: u32) -> usize
    ensures { result ≡ word }
{
    word as usize
}
