// A reply's four numbers, and how many words of report go with them.
#![tactic(auto)]

ghost use Rattle.std.specs.Prelude.{◌≡◌, [], ◌∷◌};
ghost use Rattle.replies.specs.Codes.{code_number};
ghost use Rattle.replies.specs.Numbers.{written_of};

// The codes of replies that are no type error and no fault of the question, by document 01's names.
#[derive(Clone, Copy)]
pub enum Code {
    BadBudget = 1,
    ShortWork = 2,
    BadLength = 3,
    Budget = 6,
    NoRoom = 7,
}

impl Code {
    pub fn number(self) -> u32
        ensures { result ≡ code_number self }
    {
        self as u32
    }
}

// Four numbers, and so the code too, as C gets them.
#[derive(Clone, Copy)]
pub struct Reply {
    pub code: u32,
    pub at: u32,
    pub len: u32,
    pub units: u32,
}

impl Reply {
    // The four numbers, in the order in which they are handed out.
    pub fn numbers(self) -> [u32; 4]
        ensures { result ≡ self.code ∷ self.at ∷ self.len ∷ self.units ∷ [] }
    {
        [self.code, self.at, self.len, self.units]
    }

    // How many words of report were written: none on NoRoom, whose length is the needed one.
    pub fn written(self) -> usize
        ensures { result ≡ written_of self }
    {
        if self.code == Code::NoRoom.number() {
            0
        } else {
            self.len as usize
        }
    }
}

// A reply that refuses: no report, no units.
pub fn refusal(code: u32, at: u32) -> Reply
    ensures { result ≡ record { code = code; at = at; len = 0; units = 0 } }
{
    Reply {
        code,
        at,
        len: 0,
        units: 0,
    }
}
