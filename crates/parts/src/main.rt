// The parts program: a question's words from standard input, and seven lines, the reply's four numbers, the words of each section, and the
// rules of the tree's nodes.
#![tactic(auto)]

ghost use Rattle.std.specs.Prelude.{◌+◌, ◌*◌, ◌≤◌, length};
ghost use Rattle.parts.specs.Shown.{PartsSaid, SectionLines, PartLine, RulesOf, RuleLine};

use replies::Reply;
use sections::Section;
use sized::Buffers;
use std::io;
use std::io::{Read, Write};

// As many nodes as a report has room for: each has eight words at least.
const NODES: usize = sized::REPORT / 8;

// Bytes for one word more than a question may have, so that a longer one is seen.
const INPUT: usize = 4 * definition::QUESTION_MOST + 4;

// 11 bytes for each number, were each of the five sections as long as a report and its nodes as short as can be, and 7.
const OUTPUT: usize = 11 * (4 + 5 * sized::REPORT + NODES) + 7;

// The line of one section, at a place of out; the place past it.
fn part(
    out: &mut [u8; OUTPUT],
    at: usize,
    r: Reply,
    report: &[u32; sized::REPORT],
    s: Section,
) -> usize
    requires { at + 45057 ≤ 230963 }
    ensures { PartLine r s report.now out.old out.new at result }
{
    lines::line(out, at, sections::section_of(report, r, s))
}

// The first six lines, at the start of out; how many bytes they have.
fn say(out: &mut [u8; OUTPUT], r: Reply, report: &[u32; sized::REPORT]) -> usize
    ensures { SectionLines r report.now out.new result }
{
    let a = lines::line(out, 0, &r.numbers());
    let b = part(out, a, r, report, Section::Ty);
    let c = part(out, b, r, report, Section::Context);
    let d = part(out, c, r, report, Section::Tree);
    let e = part(out, d, r, report, Section::First);
    part(out, e, r, report, Section::Second)
}

// The rules of the nodes that a walk through a tree meets, at the start of rules; how many they are. No `for`: where a node ends it says itself.
fn rules_of(tree: &[u32], rules: &mut [u32]) -> usize
    requires { length tree.now ≤ 8 * length rules.old }
    ensures { RulesOf tree.now rules.new result }
{
    let mut at = 0;
    let mut n = 0;
    while let Some(node) = sections::node_at(tree, at) {
        rules[n] = node.rule;
        at = node.end;
        n += 1;
    }
    n
}

// The line of these rules, at a place of out; the place past it.
fn rule_line(out: &mut [u8; OUTPUT], at: usize, r: Reply, report: &[u32; sized::REPORT]) -> usize
    requires { at + 5633 ≤ 230963 }
    ensures line { RuleLine r report.now out.old out.new at result }
    ensures within { result ≤ length out.new }
{
    let mut rules = [0; NODES];
    let n = rules_of(sections::section_of(report, r, Section::Tree), &mut rules);
    lines::line(out, at, &rules[..n])
}

// What main lends.
#[derive(Drop)]
struct Lent {
    buffers: Buffers,
    out: [u8; OUTPUT],
}

// As the desk program's but for what is said, in four lines: one function over that would be a crate more, and its closure's contract longer.
impl Lent {
    fn new() -> Lent {
        Lent {
            buffers: Buffers::new(),
            out: [0; OUTPUT],
        }
    }

    // What is said to the input, at the start of out; how many bytes it has.
    fn answer(&mut self, input: &[u8]) -> usize
        ensures said { PartsSaid input.now self.new.out result }
        ensures within { result ≤ 230963 }
    {
        let r = self.buffers.answer(input, sized::REPORT);
        let z = say(&mut self.out, r, &self.buffers.report);
        rule_line(&mut self.out, z, r, &self.buffers.report)
    }

    // Reads into bytes, answers and prints.
    fn parts<R: Read, W: Write>(
        &mut self,
        from: &mut R,
        to: &mut W,
        bytes: &mut [u8; INPUT],
    ) -> io::Result<()>
        requires { 8196 ≤ length bytes.old }
    {
        let n = input::read_full(from, bytes)?;
        let z = self.answer(&bytes[..n]);
        to.write_all(&self.out[..z])
    }
}

fn main(rt: HostRuntime) -> io::Result<()> {
    let mut from = rt.stdin();
    let mut to = rt.stdout();
    let mut bytes = [0; INPUT];
    let mut lent = Lent::new();
    lent.parts(&mut from, &mut to, &mut bytes)
}
