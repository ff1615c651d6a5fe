// The judgement for hosts in other languages: a word and four numbers.
#![tactic(auto)]

ghost use Rattle.std.specs.Prelude.{true, false};
ghost use Rattle.abi.specs.Hosts.{HostJudges, HostInspects, HostLists, HostWritesCase, HostWritesPlan, HostCopies, HostReads, HostMends, HostStacks};
ghost use Rattle.dispatch_tellings.specs.Hosts.{HostDispatches};
ghost use Rattle.tellings.specs.Splitting.{HostSplits};

use dispatch_unit::dispatch_told;
use offers::Offer;
use task_unit::serve;
use tasks::Task;
use tellings::{split, store};

// A plan judged: the word and the figures of the verdict; 5, with nothing done, where `figures` has fewer than four places.
#[unsafe(no_mangle)]
pub extern "C" fn kadunfo_judge(
    case: &[u8],
    plan: &[u8],
    res: &mut [u8],
    figures: &mut [u64],
) -> u64
    ensures { HostJudges case.now plan.now res.old res.new figures.old figures.new result }
{
    if figures.len() < 4 {
        return 5;
    }
    let t = serve(Task::Judge, case, plan, res, figures);
    let word = t.word;
    store(figures, t);
    word
}

// A batch of plans judged: 0, how many plans were judged and the bytes of their completions, or the refusal, of the table by 7 and its bytes; 5, with nothing done,
// where `figures` has fewer than four places.
#[unsafe(no_mangle)]
pub extern "C" fn kadunfo_judge_batch(
    case: &[u8],
    plans: &[u8],
    results: &mut [u8],
    table: &mut [u64],
    figures: &mut [u64],
) -> u64
    ensures { HostStacks case.now plans.now results.old results.new table.old table.new
        figures.old figures.new result }
{
    if figures.len() < 4 {
        return 5;
    }
    let t = serve(Task::Batch, case, plans, results, table);
    let word = t.word;
    store(figures, t);
    word
}

// A case inspected: 0 and the counts, or 2 and the fault; 5, with nothing done, where `figures` has fewer than four places.
#[unsafe(no_mangle)]
pub extern "C" fn kadunfo_inspect(case: &[u8], figures: &mut [u64]) -> u64
    ensures { HostInspects case.now figures.old figures.new result }
{
    if figures.len() < 4 {
        return 5;
    }
    let mut none = [0u8; 1];
    let t = serve(Task::Inspect, case, case, &mut none, figures);
    let word = t.word;
    store(figures, t);
    word
}

// Every broken rule of a plan listed: 0 and how many were listed, or the refusal; 5, with nothing done, where `figures` has fewer than four places.
#[unsafe(no_mangle)]
pub extern "C" fn kadunfo_breaches(
    case: &[u8],
    plan: &[u8],
    list: &mut [u8],
    figures: &mut [u64],
) -> u64
    ensures { HostLists case.now plan.now list.old list.new figures.old figures.new result }
{
    if figures.len() < 4 {
        return 5;
    }
    let t = serve(Task::Breaches, case, plan, list, figures);
    let word = t.word;
    store(figures, t);
    word
}

// A case written in the newest edition: 0 and how many bytes were written, or the refusal; 5, with nothing done, where `figures` has fewer than four places.
#[unsafe(no_mangle)]
pub extern "C" fn kadunfo_write_case(case: &[u8], res: &mut [u8], figures: &mut [u64]) -> u64
    ensures { HostWritesCase case.now res.old res.new figures.old figures.new result }
{
    if figures.len() < 4 {
        return 5;
    }
    let t = serve(Task::WriteCase, case, case, res, figures);
    let word = t.word;
    store(figures, t);
    word
}

// A plan with its case, likewise.
#[unsafe(no_mangle)]
pub extern "C" fn kadunfo_write_plan(
    case: &[u8],
    plan: &[u8],
    res: &mut [u8],
    figures: &mut [u64],
) -> u64
    ensures { HostWritesPlan case.now plan.now res.old res.new figures.old figures.new result }
{
    if figures.len() < 4 {
        return 5;
    }
    let t = serve(Task::WritePlan, case, plan, res, figures);
    let word = t.word;
    store(figures, t);
    word
}

// The market's copy of a plan's completion: 0 and how many bytes were written, 1 and the broken rule with its place, or the refusal, and never the surplus; 5, with nothing done,
// where `figures` has fewer than four places.
#[unsafe(no_mangle)]
pub extern "C" fn kadunfo_market(
    case: &[u8],
    plan: &[u8],
    res: &mut [u8],
    figures: &mut [u64],
) -> u64
    ensures { HostCopies case.now plan.now res.old res.new figures.old figures.new result }
{
    if figures.len() < 4 {
        return 5;
    }
    let t = serve(Task::Copy, case, plan, res, figures);
    let word = t.word;
    store(figures, t);
    word
}

// A completion read back: 0 and how many numbers stand in the table, or the refusal, of the table by 7 and its bytes; 5, with nothing done, where `figures`
// has fewer than four places.
#[unsafe(no_mangle)]
pub extern "C" fn kadunfo_read_completion(
    case: &[u8],
    message: &[u8],
    table: &mut [u64],
    figures: &mut [u64],
) -> u64
    ensures { HostReads true case.now message.now table.old table.new figures.old figures.new result }
{
    if figures.len() < 4 {
        return 5;
    }
    let mut none = [0u8; 1];
    let t = serve(Task::ReadCompletion, case, message, &mut none, table);
    let word = t.word;
    store(figures, t);
    word
}

// A market copy, likewise.
#[unsafe(no_mangle)]
pub extern "C" fn kadunfo_read_market(
    case: &[u8],
    message: &[u8],
    table: &mut [u64],
    figures: &mut [u64],
) -> u64
    ensures { HostReads false case.now message.now table.old table.new figures.old figures.new result }
{
    if figures.len() < 4 {
        return 5;
    }
    let mut none = [0u8; 1];
    let t = serve(Task::ReadMarket, case, message, &mut none, table);
    let word = t.word;
    store(figures, t);
    word
}

// A plan mended: 0 and the surplus, 1 and the interval, device and new online power, 6 where nothing mends the plan, or the refusal; 5, with nothing done, where
// `figures` has fewer than four places.
#[unsafe(no_mangle)]
pub extern "C" fn kadunfo_mend(case: &[u8], plan: &[u8], figures: &mut [u64]) -> u64
    ensures { HostMends case.now plan.now figures.old figures.new result }
{
    if figures.len() < 4 {
        return 5;
    }
    let mut none = [0u8; 1];
    let t = serve(Task::Mend, case, plan, &mut none, figures);
    let word = t.word;
    store(figures, t);
    word
}

// `dispatch` for hosts, whose list is taken apart into an array, dispatched and put back.
// "The caller lends a list of offers, .. and finds it again in merit order", the powers "written over the earlier powers": 0, 2 and the case's fault, or 7 with 8 or 9 and
// what is returned; 5, with nothing done, where `figures` has fewer than four places.
#[unsafe(no_mangle)]
pub extern "C" fn kadunfo_dispatch(
    case: &[u8],
    interval: u64,
    sets: &[u64],
    powers: &mut [u64],
    offers: &mut [Offer],
    target: u64,
    figures: &mut [u64],
) -> u64
    ensures { HostDispatches case.now interval sets.now powers.old powers.new offers.old offers.new target
        figures.old figures.new result }
{
    let mut all = offer_tests::no_offers();
    let count = offers.len();
    let n = offer_tests::held(count);
    all[..n].copy_from_slice(&offers[..n]);
    let done = dispatch_told(case, interval, sets, powers, all, count, target, figures);
    let back = dispatch_tellings::offers_of(done);
    offers[..n].copy_from_slice(&back[..n]);
    dispatch_tellings::word_of(done)
}

// The splitter for hosts: 0 and where the message behind the length at byte `at` stands, 1 at the end, or 2 and the refusal; 5, with nothing done, where
// `figures` has fewer than four places.
#[unsafe(no_mangle)]
pub extern "C" fn kadunfo_split(batch: &[u8], at: usize, figures: &mut [u64]) -> u64
    ensures { HostSplits batch.now at figures.old figures.new result }
{
    split(batch, at, figures)
}
