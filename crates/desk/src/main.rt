// The desk program: a question's words from standard input, and two lines, the reply's four numbers and the report's words.
#![tactic(auto)]

ghost use Rattle.std.specs.Prelude.{◌≤◌, length};
ghost use Rattle.desk.specs.Said.{Lines, Said};
ghost use Rattle.replies.specs.Numbers.{written_of};

use replies::Reply;
use sized::Buffers;
use std::io;
use std::io::{Read, Write};

// Bytes for one word more than a question may have, so that a longer one is seen.
const INPUT: usize = 4 * definition::QUESTION_MOST + 4;

// 11 bytes for each word of both lines, and 2.
const OUTPUT: usize = 11 * (4 + sized::REPORT) + 2;

// What main lends.
#[derive(Drop)]
struct Lent {
    buffers: Buffers,
    out: [u8; OUTPUT],
}

// The two lines, at the start of out; how many bytes they have.
fn say(out: &mut [u8; OUTPUT], r: Reply, report: &[u32; sized::REPORT]) -> usize
    requires { written_of r ≤ 4096 }
    ensures lines { Lines r report.now out.new result }
    ensures within { result ≤ 45102 }
{
    let next = lines::line(out, 0, &r.numbers());
    lines::line(out, next, &report[..r.written()])
}

impl Lent {
    fn new() -> Lent {
        Lent {
            buffers: Buffers::new(),
            out: [0; OUTPUT],
        }
    }

    // What is said to the input, at the start of out; how many bytes it has.
    fn answer(&mut self, input: &[u8]) -> usize
        ensures said { Said input.now self.new.out result }
        ensures within { result ≤ 45102 }
    {
        let r = self.buffers.answer(input, sized::REPORT);
        say(&mut self.out, r, &self.buffers.report)
    }

    // Reads into bytes, answers and prints.
    fn desk<R: Read, W: Write>(
        &mut self,
        from: &mut R,
        to: &mut W,
        bytes: &mut [u8; INPUT],
    ) -> io::Result<()>
        requires { 8196 ≤ length bytes.old }
    {
        let n = input::read_full(from, bytes)?;
        let z = self.answer(&bytes[..n]);
        to.write_all(&self.out[..z])
    }
}

fn main(rt: HostRuntime) -> io::Result<()> {
    let mut from = rt.stdin();
    let mut to = rt.stdout();
    let mut bytes = [0; INPUT];
    let mut lent = Lent::new();
    lent.desk(&mut from, &mut to, &mut bytes)
}
