// What a caller sees: the engine's answer, a refusal, the student states that are lent, and both answers in numbers. `specs/` has the contract.
#![tactic(auto)]

ghost use Rattle.std.specs.Prelude.{◌≡◌};
ghost use Rattle.api.specs.Answers.{report_of};
ghost use Rattle.api.specs.Causes.{number_of};
ghost use Rattle.api.specs.Parts.{part_report_of};

// Why input is refused, by the tables of documents 01 and 02.
#[derive(Clone, Copy, Debug, PartialEq, Eq)]
pub enum Cause {
    CaseLength,
    RecordForm,
    RecordOrder,
    Counts,
    Range,
    Room,
    BookLength,
    NoPair,
    Mark,
    Twice,
    EqualMarks,
    NoStages,
    Lot,
    LineForm,
    LineNames,
}

// The cause of a refusal, and the place that document 01 names for it.
#[derive(Clone, Copy, Debug, PartialEq, Eq)]
pub struct Refusal {
    pub cause: Cause,
    pub place: usize,
}

// The engine's answer where nothing is refused. The places, and the interviews of which it gives the count and what they cost, are in the lent buffers.
#[derive(Clone, Copy, Debug, PartialEq, Eq)]
pub enum Answer {
    Placed {
        visits: usize,
        fares: u32,
    },
    Next {
        student: usize,
        workshop: usize,
        visits: usize,
        fares: u32,
    },
}

// A student's state (document 01: a card): the tier reached, the workshop held or 0, and the open workshops, workshop w as bit w - 1. It has no
// padding: a state that is zero is sixteen bytes of zero.
#[repr(C)]
#[derive(Clone, Copy)]
pub struct StudentState {
    pub reached: u32,
    pub held: u32,
    pub openings: u64,
}

// The answer in numbers, which C reads (`lgs_place`): kind 0 is a placement, 1 a next visit, 2 a refusal.
#[repr(C)]
#[derive(Clone, Copy)]
pub struct Report {
    pub kind: u64,
    pub first: u64,
    pub second: u64,
    pub visits: u64,
    pub fares: u64,
}

// A part's answer in numbers, which C reads (`lgs_stages`): kind 0 is done, 2 a refusal.
#[repr(C)]
#[derive(Clone, Copy)]
pub struct PartReport {
    pub kind: u64,
    pub first: u64,
    pub second: u64,
}

impl Cause {
    // The refusal for this cause, found at this place.
    pub fn at(self, place: usize) -> Refusal
        ensures { result ≡ record { cause = self; place = place } }
    {
        Refusal { cause: self, place }
    }
}

impl From<Cause> for u64 {
    ghost from_gives = { λ cause number. number ≡ number_of cause };

    fn from(cause: Cause) -> u64 {
        match cause {
            Cause::CaseLength => 1,
            Cause::RecordForm => 2,
            Cause::RecordOrder => 3,
            Cause::Counts => 4,
            Cause::Range => 5,
            Cause::Room => 6,
            Cause::BookLength => 7,
            Cause::NoPair => 8,
            Cause::Mark => 9,
            Cause::Twice => 10,
            Cause::EqualMarks => 11,
            Cause::NoStages => 12,
            Cause::Lot => 13,
            Cause::LineForm => 14,
            Cause::LineNames => 15,
        }
    }
}

// The answer in five numbers.
impl From<Result<Answer, Refusal>> for Report {
    ghost from_gives = { λ answer report. report ≡ report_of answer };

    fn from(answer: Result<Answer, Refusal>) -> Report {
        match answer {
            Ok(Answer::Placed { visits, fares }) => Report {
                kind: 0,
                first: 0,
                second: 0,
                visits: visits as u64,
                fares: u64::from(fares),
            },
            Ok(
                Answer::Next {
                    student,
                    workshop,
                    visits,
                    fares,
                },
            ) => Report {
                kind: 1,
                first: student as u64,
                second: workshop as u64,
                visits: visits as u64,
                fares: u64::from(fares),
            },
            Err(Refusal { cause, place }) => Report {
                kind: 2,
                first: u64::from(cause),
                second: place as u64,
                visits: 0,
                fares: 0,
            },
        }
    }
}

// A part's answer in three numbers: of an answer that is no refusal, how many entries or bytes are given.
impl From<Result<usize, Refusal>> for PartReport {
    ghost from_gives = { λ answer report. report ≡ part_report_of answer };

    fn from(answer: Result<usize, Refusal>) -> PartReport {
        let (kind, first, second) = match answer {
            Ok(given) => (0, given as u64, 0),
            Err(Refusal { cause, place }) => (2, u64::from(cause), place as u64),
        };
        PartReport {
            kind,
            first,
            second,
        }
    }
}
