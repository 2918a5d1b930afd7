// The library's entry: from any words, budget and buffers to exactly one reply.
#![tactic(auto)]

ghost use Rattle.std.specs.Prelude.{◌≡◌, ◌++◌, ◌≤◌, ◌<◌, ◌^◌, length, drop, replicate};
ghost use Rattle.definition.specs.Reply.{work_words};
ghost use Rattle.layout.specs.Kinds.{kind_number};
ghost use Rattle.entry.specs.Entry.{OutsideOf, AskPre, Answers, told_of, length_of, FinishPre, Finishes, ResolvePre, Resolves, OpenPre, Prepares, RunPre, Runs, ZeroBits, ClearedPre, Cleared, Replied};

use contexts::Opened;
use judging::{Answer, Here, Mode, Step, Stop};
use layout::{Kind, Span, State};
use reading::Question;
use replies::{Code, Reply};
use report::NoRoom;

// Work is zeroed in blocks of so many words.
const BLOCK: usize = 256;

// All bits of a block's words in one: 0 where all words are 0, and nowhere else.
fn any_bits(block: &[u32]) -> u32
    ensures { ZeroBits block.now result }
{
    let mut bits = 0;
    for word in block {
        bits |= *word;
    }
    bits
}

// Zeroes a block where it is not zero yet. Most of work is: a call left it so, and to read a word costs less than to write it.
fn clear_block(block: &mut [u32])
    ensures { block.new ≡ replicate (length block.old) 0 }
{
    if any_bits(block) != 0 {
        block.fill(0);
    }
}

// Zeroes the first n words.
fn clear(work: &mut [u32], n: usize)
    requires { n ≤ length work.old }
    ensures { work.new ≡ replicate n 0 ++ drop n work.old }
{
    let whole = n / BLOCK;
    for i in 0..whole {
        clear_block(&mut work[BLOCK * i..BLOCK * (i + 1)]);
    }
    work[BLOCK * whole..n].fill(0);
}

// How many words of work a budget asks for.
fn work_words(budget: usize) -> usize
    requires { budget ≤ 8192 }
    ensures { result ≡ work_words budget }
{
    32 * budget + 4096
}

// Lays the table of ends, and loads the context.
fn prepare(q: &[u32], work: &mut [u32], budget: usize, a: Question) -> Opened
    requires { OpenPre q.now work.old budget a }
    ensures { Prepares q.now work.new budget a result }
{
    loading::ends::fill_ends(q, work);
    let st = layout::start(work_words(budget), budget);
    loading::load_context(q, work, st, a.context, a.entries)
}

// Kind 7's type, resolved by the final context; from is the state in which the judgement began.
fn resolve(q: &[u32], work: &mut [u32], from: State, z: Step) -> Step
    requires { ResolvePre q.now work.old from z }
    ensures { Resolves q.now work.old work.new from z result }
{
    let r = z?;
    let found = substitution::apply_ctx_type(q, work, r.st, r.g, r.ty)?;
    Ok(Answer {
        st: found.st,
        ty: found.ty,
        charge: found.st.charged_since(from),
        ..r
    })
}

// A reply out of budget: the whole budget is spent.
fn spent(budget: usize) -> Reply
    requires { budget < 2 ^ 32 }
    ensures { result ≡ record { code = 6; at = 0; len = 0; units = budget } }
{
    Reply {
        code: Code::Budget.number(),
        at: 0,
        len: 0,
        units: budget as u32,
    }
}

// The four numbers, by what became of the report.
fn told(code: u32, at: u32, units: usize, z: Result<usize, NoRoom>) -> Reply
    requires { (units < 2 ^ 32) × (length_of z < 2 ^ 32) }
    ensures { result ≡ told_of code at units z }
{
    let units = units as u32;
    match z {
        Ok(n) => Reply {
            code,
            at,
            len: n as u32,
            units,
        },
        Err(NoRoom(n)) => Reply {
            code: Code::NoRoom.number(),
            at: 0,
            len: n as u32,
            units,
        },
    }
}

// The reply to what a run came to, whose charge is the units; from is the state in which it began.
fn finish<'a>(
    q: &'a [u32],
    work: &'a [u32],
    kind: Kind,
    from: State,
    z: Step,
    report: &mut [u32],
) -> Reply
    requires { FinishPre q.now work.now from z }
    ensures { Finishes q.now work.now (kind_number kind) from z report.old report.new result }
{
    match z {
        Ok(a) => {
            let y = report::report_result(q, work, kind.number(), a, from.low, report);
            told(0, 0, a.charge, y)
        }
        Err(Stop::Fail(b)) => {
            let y = report::report_error(q, work, b, report);
            told(b.code as u32, b.name, b.charge, y)
        }
        Err(Stop::Spent) => spent(from.left),
    }
}

// What the question's judgement runs in.
fn outside(mode: reading::Mode) -> Here
    ensures { OutsideOf mode result }
{
    let strict = matches!(mode, reading::Mode::Strict);
    judging::outside(Mode {
        compares_parameter: strict,
        applies_branches: strict,
    })
}

// The judgement that the question asks; kind 7 infers, and resolves the type.
fn judge(q: &[u32], work: &mut [u32], a: Question, st: State, g: Span) -> Step
    requires { AskPre q.now work.old a st g }
    ensures { Answers q.now work.old work.new a st result }
{
    let h = outside(a.mode);
    match a.kind {
        Kind::Infer => inference::infer(q, work, h, st, g, a.expr),
        Kind::Check => inference::check(q, work, h, st, g, a.expr, a.right),
        Kind::InferApp => inference::infer_app(q, work, h, st, g, a.left, a.expr),
        Kind::Subtype => subtyping::subtype(q, work, h, st, g, a.left, a.right),
        Kind::InstL => instantiation::inst_l(q, work, h, st, g, a.left, a.right),
        Kind::InstR => instantiation::inst_r(q, work, h, st, g, a.left, a.right),
        Kind::Resolve => {
            let z = inference::infer(q, work, h, st, g, a.expr);
            resolve(q, work, st, z)
        }
    }
}

// The run of a question that was read: work is as long as the budget asks.
fn run(q: &[u32], work: &mut [u32], budget: usize, a: Question, report: &mut [u32]) -> Reply
    requires { RunPre q.now work.old budget a }
    ensures { Runs q.now budget a report.old report.new result }
{
    if budget <= a.entries {
        return spent(budget);
    }
    let o = prepare(q, work, budget, a);
    let z = judge(q, work, a, o.st, o.g);
    finish(q, work, a.kind, o.st, z, report)
}

// The same in the first words of a longer slice, which end as 0.
fn run_cleared(q: &[u32], work: &mut [u32], budget: usize, a: Question, report: &mut [u32]) -> Reply
    requires { ClearedPre q.now work.old budget a }
    ensures { Cleared q.now work.old work.new budget a report.old report.new result }
{
    let need = work_words(budget);
    let r = run(q, &mut work[0..need], budget, a, report);
    clear(work, need);
    r
}

// Answers a question: any words, any budget, any work and any report slice.
pub fn check(question: &[u32], budget: u32, work: &mut [u32], report: &mut [u32]) -> Reply
    ensures { Replied budget question.now work.old work.new report.old report.new result }
{
    if budget < 1 {
        return replies::refusal(Code::BadBudget.number(), 0);
    }
    if definition::BUDGET_MOST < budget {
        return replies::refusal(Code::BadBudget.number(), 0);
    }
    let budget = budget as usize;
    let need = work_words(budget);
    if work.len() < need {
        return replies::refusal(Code::ShortWork.number(), 0);
    }
    if question.len() < 1 {
        return replies::refusal(Code::BadLength.number(), 0);
    }
    if definition::QUESTION_MOST < question.len() {
        return replies::refusal(Code::BadLength.number(), 0);
    }
    match reading::read_question(question) {
        Ok(a) => run_cleared(question, work, budget, a, report),
        Err(fault) => replies::refusal(fault.why.code(), fault.at as u32),
    }
}
