// The refusals of the document, each named for what it means, with its number and its place.
#![tactic(auto)]

ghost use Rattle.std.specs.Prelude.{◌≡◌};
ghost use Rattle.word.specs.Word.{low};
ghost use Rattle.refusal.specs.Refusals.{number_of, place_of, carried_place};

// The place of the first nine is a line of a column file or a node of a table, that of 16 a node.
#[derive(Clone, Copy, Debug, PartialEq, Eq)]
pub enum Refusal {
    // 1: a line that is not 41 bytes, or a column that is no 32-bit number of the form
    MalformedLine(u32),
    // 2: a node number that is not the line's place
    WrongNodeNumber(u32),
    // 3: no line or node, more than 512, or numbers that are no multiple of three
    WrongNodeCount(u32),
    // 4: a kind that is not 1 to 12
    UnknownKind(u32),
    // 5: a used field out of range, or an unused field that is not 0
    WrongField(u32),
    // 6: a child that is negative, not lower, named twice, or taken before
    WrongChild(u32),
    // 7: no arity rule fits
    NoArityRule(u32),
    // 8: inputs or outputs above 32
    TooWide(u32),
    // 9: a node other than the last that is nobody's child, of several the lowest
    LooseNode(u32),
    // 10: more than 2,048 instructions
    TooManyInstructions,
    // 11: cells that are not 0 to 16,384
    TooManyCells,
    // 12: the buffer to be filled or changed is shorter than needed
    ShortBuffer,
    // 13: numbers that are no flat code
    WrongCode,
    // 14: ticks not 0 to 4,096, inputs that are not ticks times the circuit's, or controls that are not 16
    WrongBlock,
    // 15: an odd count of probe numbers, more than 16 probes, or one that names no output of the table
    WrongProbes,
    // 16: a recursion whose right side has neither inputs nor outputs
    EmptyFeedback(u32),
    // 17: two tables to be joined whose nodes and the joining one are more than 512
    TooManyJoined,
}

// The word of -1, the place of a refusal that has none.
const NO_PLACE: u32 = 4294967295;

impl Refusal {
    // The document's number.
    pub fn number(self) -> u32
        ensures { result ≡ number_of self }
    {
        match self {
            Refusal::MalformedLine(_) => 1,
            Refusal::WrongNodeNumber(_) => 2,
            Refusal::WrongNodeCount(_) => 3,
            Refusal::UnknownKind(_) => 4,
            Refusal::WrongField(_) => 5,
            Refusal::WrongChild(_) => 6,
            Refusal::NoArityRule(_) => 7,
            Refusal::TooWide(_) => 8,
            Refusal::LooseNode(_) => 9,
            Refusal::TooManyInstructions => 10,
            Refusal::TooManyCells => 11,
            Refusal::ShortBuffer => 12,
            Refusal::WrongCode => 13,
            Refusal::WrongBlock => 14,
            Refusal::WrongProbes => 15,
            Refusal::EmptyFeedback(_) => 16,
            Refusal::TooManyJoined => 17,
        }
    }

    // The line or node, where there is one.
    fn carried(self) -> Option<u32>
        ensures { place_of self ≡ carried_place result }
    {
        match self {
            Refusal::MalformedLine(at)
            | Refusal::WrongNodeNumber(at)
            | Refusal::WrongNodeCount(at)
            | Refusal::UnknownKind(at)
            | Refusal::WrongField(at)
            | Refusal::WrongChild(at)
            | Refusal::NoArityRule(at)
            | Refusal::TooWide(at)
            | Refusal::LooseNode(at)
            | Refusal::EmptyFeedback(at) => Some(at),
            Refusal::TooManyInstructions
            | Refusal::TooManyCells
            | Refusal::ShortBuffer
            | Refusal::WrongCode
            | Refusal::WrongBlock
            | Refusal::WrongProbes
            | Refusal::TooManyJoined => None,
        }
    }

    // The document's place, the line or node, or -1, as a 32-bit number in two's complement.
    pub fn place(self) -> u32
        ensures { result ≡ low (place_of self) }
    {
        self.carried().unwrap_or(NO_PLACE)
    }
}
