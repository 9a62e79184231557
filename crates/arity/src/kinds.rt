// The kinds of nodes by their names.
ghost use Rattle.std.specs.Prelude.{◌≡◌, false, leb, MatchOption};
ghost use Rattle.arity.specs.Check.{known_kind, two_children};
ghost use Rattle.arity.specs.Kinds.{number_of};

#[derive(Clone, Copy, Debug, PartialEq, Eq)]
pub enum Kind {
    Number,
    Control,
    Operation,
    Delay,
    Cable,
    Cut,
    Sequence,
    Parallel,
    Split,
    Merge,
    Recursion,
    Ondemand,
}

impl Kind {
    // The kind that a table's number stands for.
    pub fn numbered(number: u32) -> Option<Kind>
        ensures { MatchOption result (known_kind number ≡ false) (λ kind. number_of kind ≡ number) }
    {
        match number {
            1 => Some(Kind::Number),
            2 => Some(Kind::Control),
            3 => Some(Kind::Operation),
            4 => Some(Kind::Delay),
            5 => Some(Kind::Cable),
            6 => Some(Kind::Cut),
            7 => Some(Kind::Sequence),
            8 => Some(Kind::Parallel),
            9 => Some(Kind::Split),
            10 => Some(Kind::Merge),
            11 => Some(Kind::Recursion),
            12 => Some(Kind::Ondemand),
            _ => None,
        }
    }

    // Whether a node has no children.
    pub fn is_primitive(self) -> bool
        ensures { result ≡ leb (number_of self) 6 }
    {
        match self {
            Kind::Number
            | Kind::Control
            | Kind::Operation
            | Kind::Delay
            | Kind::Cable
            | Kind::Cut => true,
            _ => false,
        }
    }

    // Whether a node has a left and a right child.
    pub fn is_composition(self) -> bool
        ensures { result ≡ two_children (number_of self) }
    {
        match self {
            Kind::Sequence | Kind::Parallel | Kind::Split | Kind::Merge | Kind::Recursion => true,
            _ => false,
        }
    }
}
