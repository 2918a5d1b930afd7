// The entry asked in bytes, with the desk program's sizes: what the desk program and the telephone host share.
#![tactic(auto)]

ghost use Rattle.std.specs.Prelude.{◌≡◌, ◌≤◌, replicate};
ghost use Rattle.sized.specs.Sized.{Fit, BytesAnswered, Lent, Told};

use replies::{Code, Reply};

// The desk program's sizes: units of budget, words of work and of report.
const BUDGET: u32 = 384;

pub const WORK: usize = 16384;

pub const REPORT: usize = 4096;

// The memory that a question takes: words for it, work, and a report slice.
#[derive(Drop)]
pub struct Buffers {
    pub words: [u32; definition::QUESTION_MOST],
    pub work: [u32; WORK],
    pub report: [u32; REPORT],
}

impl Buffers {
    pub fn new() -> Buffers
        ensures words { result.words ≡ replicate 2048 0 }
        ensures work { result.work ≡ replicate 16384 0 }
        ensures report { result.report ≡ replicate 4096 0 }
    {
        Buffers {
            words: [0; definition::QUESTION_MOST],
            work: [0; WORK],
            report: [0; REPORT],
        }
    }

    // Answers a question, with the first words of the report slice for the report, as many as there is room for.
    pub fn answer(&mut self, question: &[u8], room: usize) -> Reply
        requires { room ≤ 4096 }
        ensures { Told question.now room self.new.report result }
    {
        answer(
            question,
            &mut self.words,
            &mut self.work,
            &mut self.report,
            room,
        )
    }
}

// Answers a question of little-endian words; the report slice is as long as there is room.
fn answer_words(question: &[u8], words: &mut [u32], work: &mut [u32], report: &mut [u32]) -> Reply
    requires { Fit words.old work.old report.old }
    ensures { BytesAnswered question.now report.old report.new result }
{
    let n = question.len() / 4;
    if definition::QUESTION_MOST < n || 4 * n != question.len() {
        return replies::refusal(Code::BadLength.number(), 0);
    }
    wire::read_words(question, words, n);
    entry::check(&words[..n], BUDGET, work, report)
}

// Answers a question in what the caller lends, with the first words of the report slice for the report, as many as there is room for. Of
// slices, as it was promised: Buffers would ask more of callers.
pub fn answer(
    question: &[u8],
    words: &mut [u32],
    work: &mut [u32],
    report: &mut [u32],
    room: usize,
) -> Reply
    requires { (Lent words.old work.old report.old) × (room ≤ 4096) }
    ensures { Told question.now room report.new result }
{
    answer_words(question, words, work, &mut report[..room])
}
