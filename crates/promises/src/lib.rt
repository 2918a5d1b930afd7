// Calls of both functions for C, and of the library's entry, with nothing known before: they ask for nothing, and what they promise is
// handed on whole. What it comes to stands in specs/ and proofs/.
#![tactic(auto)]

ghost use Rattle.host.specs.Host.{Answered, Checked};
ghost use Rattle.entry.specs.Entry.{Replied};

use replies::Reply;

pub fn answered(question: &[u8], reply: &mut [u8]) -> u32
    ensures { Answered question.now reply.old reply.new result }
{
    host::sporeflask_answer(question, reply)
}

pub fn checked(
    question: &[u32],
    budget: u32,
    work: &mut [u32],
    report: &mut [u32],
    numbers: &mut [u32; 4],
) -> u32
    ensures { Checked budget question.now work.old work.new report.old report.new numbers.new result }
{
    host::sporeflask_check(question, budget, work, report, numbers)
}

pub fn replied(question: &[u32], budget: u32, work: &mut [u32], report: &mut [u32]) -> Reply
    ensures { Replied budget question.now work.old work.new report.old report.new result }
{
    entry::check(question, budget, work, report)
}
