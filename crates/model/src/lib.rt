// What the definitions and the code hand on to each other: refusals with 01's numbers, and what C is told.
#![tactic(auto)]

ghost use Rattle.std.specs.Prelude.{◌≡◌, MatchResult};
ghost use Rattle.model.specs.Calls.{number_of, refusal, done, gives, found, whether};

use std::error::Error;
use std::fmt;

// Where an index goes in a node: a child, the index in it, and how many children were compared.
#[derive(Clone, Copy)]
pub struct Place {
    pub child: usize,
    pub sub: usize,
    pub compared: usize,
}

// What a lookup gives: the element, and the child lengths compared on the way to it.
#[derive(Clone, Copy)]
pub struct Found {
    pub element: u64,
    pub compared: usize,
}

// What is done for a child of 15 elements before a removal goes into it.
#[derive(Clone, Copy)]
pub enum Repair {
    Nothing,
    FromLeft,
    FromRight,
    WithLeft,
    WithRight,
}

// How an index is removed from a node: inside a child, or at a separator by the last element before it, by the first
// after it, or after a merge.
#[derive(Clone, Copy)]
pub enum Way {
    Inside,
    ByLast,
    ByFirst,
    ByMerge,
}

// Why a call is refused; the text is for callers in Rattle.
#[derive(Clone, Copy, Debug, PartialEq, Eq)]
pub enum Refusal {
    Unsound = 1,
    PastTheEnd = 2,
    NoRoom = 3,
    Misfit = 4,
}

// 01's number.
impl From<Refusal> for u64 {
    ghost from_gives = { λ why n. n ≡ number_of why };

    fn from(why: Refusal) -> u64 {
        why as u64
    }
}

impl fmt::Display for Refusal {
    fn fmt<W: fmt::Write>(&self, f: &mut fmt::Formatter<W>) -> fmt::Result {
        match self {
            Refusal::Unsound => write!(f, "the pool is not sound"),
            Refusal::PastTheEnd => write!(f, "the index is past the end"),
            Refusal::NoRoom => write!(f, "fewer nodes are free than are needed"),
            Refusal::Misfit => write!(f, "the length is not that of a pool"),
        }
    }
}

impl Error for Refusal {}

// A call's answer, as C has it: 01's number, the element or number asked for, and a lookup's comparisons; 0 where there is none.
#[repr(C)]
#[derive(Clone, Copy)]
pub struct Answer {
    pub number: u64,
    pub value: u64,
    pub compared: u64,
}

// A walk's answer, as C has it: 01's number, the element, and the position that the walk has then. A refusal gives a position too,
// so this is no `Result`.
#[repr(C)]
#[derive(Clone, Copy)]
pub struct Walked {
    pub number: u64,
    pub element: u64,
    pub position: u64,
}

// A stretch of one node's elements: the node, the first one's place in it, and how many.
#[derive(Clone, Copy)]
pub struct Stretch {
    pub node: usize,
    pub slot: usize,
    pub count: usize,
}

// ---- what C is told

impl From<Refusal> for Answer {
    ghost from_gives = { λ why a. a ≡ refusal why };

    fn from(why: Refusal) -> Answer {
        Answer {
            number: why.into(),
            value: 0,
            compared: 0,
        }
    }
}

impl From<u64> for Answer {
    ghost from_gives = { λ value a. a ≡ gives value };

    fn from(value: u64) -> Answer {
        Answer {
            number: 0,
            value,
            compared: 0,
        }
    }
}

impl From<()> for Answer {
    ghost from_gives = { λ nothing a. a ≡ done nothing };

    fn from(_nothing: ()) -> Answer {
        Answer::from(0)
    }
}

impl From<bool> for Answer {
    ghost from_gives = { λ b a. a ≡ whether b };

    fn from(b: bool) -> Answer {
        Answer::from(u64::from(b))
    }
}

impl From<Found> for Answer {
    ghost from_gives = { λ f a. a ≡ found f };

    fn from(f: Found) -> Answer {
        Answer {
            number: 0,
            value: f.element,
            compared: f.compared as u64,
        }
    }
}

impl<T: Into<Answer>> From<Result<T, Refusal>> for Answer {
    ghost from_gives = { λ given a. MatchResult given (λ x. T.converts x a) (λ why. a ≡ refusal why) };

    fn from(given: Result<T, Refusal>) -> Answer {
        match given {
            Ok(it) => it.into(),
            Err(why) => why.into(),
        }
    }
}
