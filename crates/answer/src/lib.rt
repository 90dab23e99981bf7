//! What every call answers. A call that refuses says which of the paper's ten refusals it is, in which table or output, and at which
//! row; one that accepts hands over what it found. `Answer` is the same as three numbers, all zero where the call is accepted. Looks
//! are taken in turn, and the first one that finds a fault ends the call: `specs/Turns.antt` says what that comes to.
#![tactic(auto)]

ghost use Rattle.std.specs.Prelude.{◌≡◌, Some};
ghost use Rattle.answer.specs.Numbers.{refusal_number, part_number};
ghost use Rattle.answer.specs.Names.{refusal_name, answer_text};
ghost use Rattle.answer.specs.Results.{Placed};

use std::fmt;

/// Why a call is refused.
#[derive(Clone, Copy, Debug, PartialEq, Eq)]
pub enum Refusal {
    Count = 1,
    Room = 2,
    Month = 3,
    Range = 4,
    Order = 5,
    Link = 6,
    Pair = 7,
    Big = 8,
    Base = 9,
    Text = 10,
}

/// What a refusal speaks of: the head, a table, one of the two outputs, or the divisions of a month.
#[derive(Clone, Copy, Debug, PartialEq, Eq)]
pub enum Part {
    Head = 0,
    Zones = 1,
    Owners = 2,
    Units = 3,
    Accounts = 4,
    Loads = 5,
    Reservations = 6,
    Charges = 7,
    Credits = 8,
    Divisions = 9,
    Firm = 10,
}

impl Refusal {
    /// The paper's number.
    pub fn number(self) -> u64
        ensures { result ≡ refusal_number self }
    {
        self as u64
    }

    /// This refusal at a place.
    pub fn at(self, part: Part, row: u64) -> Refused
        ensures { result ≡ record { refusal = self; part = part; row = row } }
    {
        Refused {
            refusal: self,
            part,
            row,
        }
    }
}

impl Part {
    /// The paper's number.
    pub fn number(self) -> u64
        ensures { result ≡ part_number self }
    {
        self as u64
    }
}

// The paper's name of a refusal.
impl fmt::Display for Refusal {
    ghost output = { λ r. Some (refusal_name r) };

    fn fmt<W: fmt::Write>(&self, f: &mut fmt::Formatter<W>) -> fmt::Result {
        f.write_str(match self {
            Refusal::Count => "COUNT",
            Refusal::Room => "ROOM",
            Refusal::Month => "MONTH",
            Refusal::Range => "RANGE",
            Refusal::Order => "ORDER",
            Refusal::Link => "LINK",
            Refusal::Pair => "PAIR",
            Refusal::Big => "BIG",
            Refusal::Base => "BASE",
            Refusal::Text => "TEXT",
        })
    }
}

/// A refused call: why, and where.
#[derive(Clone, Copy, Debug, PartialEq, Eq)]
pub struct Refused {
    pub refusal: Refusal,
    pub part: Part,
    pub row: u64,
}

/// An outcome whose refusal has no place, with the place that its caller gives it.
pub fn placed<T>(outcome: Result<T, Refusal>, part: Part, row: u64) -> Result<T, Refused>
    ensures { Placed outcome part row result }
{
    outcome.map_err(|refusal| refusal.at(part, row))
}

/// The paper's answer to a call: three numbers, all zero where it is accepted.
#[derive(Clone, Copy, Debug, PartialEq, Eq)]
pub struct Answer {
    pub number: u64,
    pub table: u64,
    pub row: u64,
}

impl From<Refused> for Answer {
    ghost use Rattle.answer.specs.Results.{GivesRefused};

    ghost from_gives = { GivesRefused };

    fn from(refused: Refused) -> Answer {
        Answer {
            number: refused.refusal.number(),
            table: refused.part.number(),
            row: refused.row,
        }
    }
}

impl<T: Drop> From<Result<T, Refused>> for Answer {
    ghost use Rattle.answer.specs.Results.{GivesAnswer};

    ghost from_gives = { GivesAnswer };

    fn from(outcome: Result<T, Refused>) -> Answer {
        match outcome {
            Ok(_) => Answer {
                number: 0,
                table: 0,
                row: 0,
            },
            Err(refused) => Answer::from(refused),
        }
    }
}

impl fmt::Display for Answer {
    ghost output = { λ a. Some (answer_text a) };

    fn fmt<W: fmt::Write>(&self, f: &mut fmt::Formatter<W>) -> fmt::Result {
        write!(f, "{},{},{}", self.number, self.table, self.row)
    }
}
