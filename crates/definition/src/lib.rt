// The definition of document 01, with the orders that change it, stands in specs/. The program's crates share its limits from here.
#![tactic(auto)]

// A question has at most this many words.
pub const QUESTION_MOST: usize = 2048;

// A budget is 1 to this.
pub const BUDGET_MOST: u32 = 8192;

// Written names are below this; the k-th fresh name is this + k.
pub const FIRST_FRESH: u32 = 1_000_000;

// The codes of type errors are 11 to this.
pub const LAST_ERROR: u32 = 17;
