//! Reads hostile bytes with each of the readers, and tells what they say: case by case, or of very many spoiled ones.
#![tactic(auto)]

mod cases;
mod files;
mod records;
mod spoiling;
mod tally;
mod telling;

use cases::{Case, case_in, kind_in};
use spoiling::{Words, spoiled};
use std::alloc::Global;
use std::io::{BufRead, BufReader, BufWriter, Read, Write};
use std::rt::Runtime;
use std::time::CpuClock;
use std::{env, io};
use tally::Tally;
use telling::told;

/// The cases of standard input, a line each.
fn cases_of(rt: &impl Runtime, alloc: Global) -> io::Result<Vec<Case>> {
    let mut cases = Vec::new(alloc);
    for line in BufReader::new(alloc, rt.reader())?.lines(alloc) {
        if let Some(case) = case_in(alloc, line?.as_str())? {
            cases.push(case)?;
        }
    }
    Ok(cases)
}

/// Standard input as one case of the kind that a word names, if it names one.
fn whole_case(rt: &impl Runtime, alloc: Global, word: &str) -> io::Result<Vec<Case>> {
    let mut cases = Vec::new(alloc);
    if let Some(kind) = kind_in(word) {
        let mut bytes = Vec::new(alloc);
        rt.reader().read_to_end(&mut bytes)?;
        cases.push(Case { kind, bytes })?;
    }
    Ok(cases)
}

/// Prints what is told of each case, a line each.
fn tell_all(rt: &impl Runtime, alloc: Global, cases: &[Case]) -> io::Result<()> {
    let mut out = BufWriter::new(alloc, io::writer(rt))?;
    for case in cases {
        let text = told(alloc, case).unwrap_or(Vec::new(alloc));
        out.write_all(text.as_slice())?;
        out.write_all(b"\n")?;
    }
    out.flush()
}

/// Spoils the cases so many times by the words that a seed begins, and prints what is told of them, counted, and how long
/// the longest took of the processor.
fn spoil_all(
    rt: &(impl CpuClock + Print),
    alloc: Global,
    cases: &[Case],
    seed: u64,
    times: u64,
) -> io::Result<()> {
    let mut words = Words::of(seed);
    let mut tally = Tally::default();
    let mut longest = 0u128;
    let mut begin = rt.thread_cpu_time()?.as_micros();
    for _ in 0..times {
        if let Some(case) = spoiled(alloc, &mut words, cases)? {
            tally.add(alloc, &case);
        }
        let end = rt.thread_cpu_time()?.as_micros();
        longest = longest.max(end.saturating_sub(begin));
        begin = end;
    }
    println!(rt;
        "{times} cases: {} read, {} wanted memory, sum {:016x}, the longest {longest} us",
        tally.read, tally.wanted_memory, tally.sum
    )
}

// Tells what each case of standard input says; with a kind's word what all of its bytes say; with a seed and a number it
// spoils the cases so often, and counts.
fn main(rt: HostRuntime) -> io::Result<()> {
    let alloc = rt.alloc();
    let mut words = env::args(&rt)?.skip(1);
    let Some(word) = words.next() else {
        return tell_all(&rt, alloc, cases_of(&rt, alloc)?.as_slice());
    };
    let Some(times) = words.next() else {
        return tell_all(
            &rt,
            alloc,
            whole_case(&rt, alloc, word.as_str())?.as_slice(),
        );
    };
    let seed = word.parse::<u64>().unwrap_or(0);
    let times = times.parse::<u64>().unwrap_or(0);
    let cases = cases_of(&rt, alloc)?;
    spoil_all(&rt, alloc, cases.as_slice(), seed, times)
}
