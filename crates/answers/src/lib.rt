// The answers of the public calls.
#![tactic(auto)]

pub mod refusal;

ghost use Rattle.std.specs.Prelude.{◌≡◌};
ghost use Rattle.answers.specs.Answer.{accepted, refused};

// The answer of a public call: document 01's number, 0 for acceptance, and the two numbers it carries.
#[derive(Clone, Copy, PartialEq, Eq)]
pub struct Answer {
    pub code: u32,
    pub first: u32,
    pub second: u32,
}

impl Answer {
    pub fn accepted(first: u32, second: u32) -> Self
        ensures { result ≡ accepted first second }
    {
        Self {
            code: 0,
            first,
            second,
        }
    }

    pub fn refused(code: u32, first: u32, second: u32) -> Self
        ensures { result ≡ refused code first second }
    {
        Self {
            code,
            first,
            second,
        }
    }
}
