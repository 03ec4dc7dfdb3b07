// Why an input is turned back: one struct for every call.
#![tactic(auto)]

ghost use Rattle.std.specs.Prelude.{◌≡◌};
ghost use Rattle.refusals.specs.Judged.{refusal};

// A refusal: its number in document 01's table, the file (1 the table, 2 the other, 0 none) and the line, counted from 1, or 0.
#[derive(Clone, Copy)]
pub struct Refusal {
    pub number: u32,
    pub file: u32,
    pub line: u32,
}

impl Refusal {
    // Of the call itself, in no file: a number out of range, or lent memory that is too short.
    pub fn of_call(number: u32) -> Refusal
        ensures { result ≡ refusal number 0 0 }
    {
        Refusal {
            number,
            file: 0,
            line: 0,
        }
    }
}
