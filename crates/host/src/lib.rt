// What the functions for C do: the telephone host's, in bytes, and one with every parameter free, in words. Crate host_c exports them.
#![tactic(auto)]

ghost use Rattle.std.specs.Prelude.{◌≡◌, ◌-◌, ◌/◌, ◌≤◌, min};
ghost use Rattle.host.specs.Host.{Answered, Checked};

use sized::Buffers;

// How many words of report a reply of n bytes has room for.
fn room_for(n: usize) -> usize
    requires { 16 ≤ n }
    ensures { result ≡ min ((n - 16) / 4) 4096 }
{
    ((n - 16) / 4).min(sized::REPORT)
}

// The telephone host's function: bytes in, bytes out, with the desk program's sizes.
pub fn sporeflask_answer(question: &[u8], reply: &mut [u8]) -> u32
    ensures { Answered question.now reply.old reply.new result }
{
    if reply.len() < 16 {
        return 8;
    }
    let mut buffers = Buffers::new();
    let r = buffers.answer(question, room_for(reply.len()));
    wire::put_reply(reply, r.numbers(), &buffers.report[..r.written()]);
    r.code
}

// The library's entry with every parameter free; the four numbers go to the caller's array.
pub fn sporeflask_check(
    question: &[u32],
    budget: u32,
    work: &mut [u32],
    report: &mut [u32],
    numbers: &mut [u32; 4],
) -> u32
    ensures { Checked budget question.now work.old work.new report.old report.new numbers.new result }
{
    let r = entry::check(question, budget, work, report);
    *numbers = r.numbers();
    r.code
}
