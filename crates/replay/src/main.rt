// The replay program: framed questions from standard input, their replies to standard output, in little-endian words.
// A frame: budget, words of work, words of report, words of question, and the question. A reply: the four numbers, then its report.
#![tactic(auto)]

ghost use Rattle.std.specs.Prelude.{◌≡◌, ◌*◌, ◌≤◌, min, length};
ghost use Rattle.replay.specs.Replayed.{LentByMain, Framed, FrameFits, FrameAnswered, Replayed};

use replies::Reply;
use std::io;
use std::io::{Read, Write};

// A frame may ask for this many words of question, and of report.
const FRAME_MOST: usize = 4096;

// What stands before a question.
#[derive(Clone, Copy)]
struct Frame {
    budget: u32,
    work: usize,
    report: usize,
    count: usize,
}

// The reply to the question in bytes, in the parts that its frame asks for.
fn ask(f: Frame, bytes: &[u8], words: &mut [u32], work: &mut [u32], report: &mut [u32]) -> Reply
    requires { FrameFits f bytes.now words.old work.old report.old }
    ensures { FrameAnswered f bytes.now report.new result }
{
    wire::read_words(bytes, words, f.count);
    entry::check(
        &words[..f.count],
        f.budget,
        &mut work[..f.work],
        &mut report[..f.report],
    )
}

// The reply's bytes at the start of out; how many they are. Of slices of any length, as it was promised, and so no struct has the five.
fn answer(
    f: Frame,
    bytes: &[u8],
    words: &mut [u32],
    work: &mut [u32],
    report: &mut [u32],
    out: &mut [u8],
) -> usize
    requires { (FrameFits f bytes.now words.old work.old report.old) × (length report.old ≤ 4096) × (length out.old ≡ 16400) }
    ensures { Replayed f bytes.now out.new result }
{
    let r = ask(f, bytes, words, work, report);
    let n = r.written();
    wire::put_reply(out, r.numbers(), &report[..n]);
    16 + 4 * n
}

// The frame in the first 16 bytes; no budget asks for more work than is lent, so that the rest of it is left out.
fn frame_at_start(bytes: &[u8], lent: usize) -> Frame
    requires { 16 ≤ length bytes.now }
    ensures { Framed bytes.now lent result }
{
    Frame {
        budget: wire::word_at(bytes, 0),
        work: (wire::word_at(bytes, 1) as usize).min(lent),
        report: wire::word_at(bytes, 2) as usize,
        count: wire::word_at(bytes, 3) as usize,
    }
}

// Fills the first n bytes from the input: false where it ends before.
fn fill<R: Read>(from: &mut R, bytes: &mut [u8], n: usize) -> io::Result<bool>
    requires { n ≤ length bytes.old }
{
    Ok(input::read_full(from, &mut bytes[..n])? == n)
}

// One frame: false where the input ends, or a frame asks for more than is lent.
fn turn<R: Read, W: Write>(
    from: &mut R,
    to: &mut W,
    bytes: &mut [u8],
    words: &mut [u32],
    work: &mut [u32],
    report: &mut [u32],
    out: &mut [u8],
) -> io::Result<bool>
    requires { LentByMain bytes.old words.old report.old out.old }
{
    if !fill(from, bytes, 16)? {
        return Ok(false);
    }
    let f = frame_at_start(bytes, work.len());
    if FRAME_MOST < f.count {
        return Ok(false);
    }
    if FRAME_MOST < f.report {
        return Ok(false);
    }
    if !fill(from, bytes, 4 * f.count)? {
        return Ok(false);
    }
    let z = answer(f, bytes, words, work, report, out);
    to.write_all(&out[..z])?;
    Ok(true)
}

// Frame after frame. A proved loop has to end, and nothing says that the input does: no run uses up so many turns.
fn all<R: Read, W: Write>(
    from: &mut R,
    to: &mut W,
    bytes: &mut [u8],
    words: &mut [u32],
    work: &mut [u32],
    report: &mut [u32],
    out: &mut [u8],
) -> io::Result<()>
    requires { LentByMain bytes.old words.old report.old out.old }
{
    for _ in 0..u64::MAX {
        if !turn(from, to, bytes, words, work, report, out)? {
            break;
        }
    }
    Ok(())
}

fn main(rt: HostRuntime) -> io::Result<()> {
    let mut from = rt.stdin();
    let mut to = rt.stdout();
    let mut bytes = [0u8; 4 * FRAME_MOST];
    let mut words = [0u32; FRAME_MOST];
    // what the largest budget needs, and some more
    let mut work = [0u32; 266496];
    let mut report = [0u32; FRAME_MOST];
    let mut out = [0u8; 16 + 4 * FRAME_MOST];
    all(
        &mut from,
        &mut to,
        &mut bytes,
        &mut words,
        &mut work,
        &mut report,
        &mut out,
    )
}
