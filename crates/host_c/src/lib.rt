// The C library: the functions of crate host under their names for C.
#![tactic(auto)]

ghost use Rattle.host.specs.Host.{Answered, Checked};

// The telephone host's function: bytes in, bytes out, with the desk program's sizes.
#[unsafe(no_mangle)]
pub extern "C" fn sporeflask_answer(question: &[u8], reply: &mut [u8]) -> u32
    ensures { Answered question.now reply.old reply.new result }
{
    host::sporeflask_answer(question, reply)
}

// The library's entry with every parameter free; the four numbers go to the caller's array.
#[unsafe(no_mangle)]
pub extern "C" fn sporeflask_check(
    question: &[u32],
    budget: u32,
    work: &mut [u32],
    report: &mut [u32],
    numbers: &mut [u32; 4],
) -> u32
    ensures { Checked budget question.now work.old work.new report.old report.new numbers.new result }
{
    host::sporeflask_check(question, budget, work, report, numbers)
}
