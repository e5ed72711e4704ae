// Runs the kept cases of the second program through the proved functions, and holds every number and every list to the answer that
// the second program gave. Writes a line for each case that differs, and how many there are. second/README.md has the formats of
// data/cases and data/answers, and says how they are made.
#![tactic(auto)]

ghost use Rattle.std.specs.Prelude.{◌≡◌, ◌<◌, ◌≤◌, length, IfOk};

use octets::byte_at;
use rows::Given;
use session::Session;
use std::io::Read;
use std::rt::Files;
use std::{fs, io};

// ---- reading the files: a place past the end reads 0, so that a file that was cut shows as a difference

fn number(s: &[u8], at: usize) -> u32 {
    u32::from_be_bytes([
        byte_at(s, at),
        byte_at(s, on(at, 1)),
        byte_at(s, on(at, 2)),
        byte_at(s, on(at, 3)),
    ])
}

// A place further on; no place that a file reaches wraps.
fn on(at: usize, n: usize) -> usize {
    at.wrapping_add(n)
}

fn length_at(s: &[u8], at: usize) -> usize
    ensures { result < 4294967296 }
{
    number(s, at) as usize
}

// The bytes whose length stands at a place; none if they are not all there.
fn bytes(s: &[u8], at: usize) -> &[u8] {
    let from = on(at, 4);
    s.get(from..from.saturating_add(length_at(s, at)))
        .unwrap_or(&[])
}

// Where bytes end.
fn after(s: &[u8], at: usize) -> usize {
    on(on(at, 4), length_at(s, at))
}

// Where numbers end.
fn after_numbers(s: &[u8], at: usize) -> usize {
    on(on(at, 4), 4 * length_at(s, at))
}

// Number k of the numbers at a place; 0 after the last one.
fn nth(s: &[u8], at: usize, k: usize) -> u32
    requires { k < 11 }
{
    if length_at(s, at) <= k {
        return 0;
    }
    number(s, on(at, 4 * k + 4))
}

// The numbers of a call, eleven at most and 0 where it has fewer, and its refusal number.
#[derive(Clone, Copy, PartialEq, Eq)]
struct Numbers {
    values: [u32; 11],
    refusal: u32,
}

fn read_numbers(s: &[u8], at: usize, refusal: u32) -> Numbers {
    let mut values = [0; 11];
    for (k, value) in values.iter_mut().enumerate() {
        *value = nth(s, at, k);
    }
    Numbers { values, refusal }
}

// These numbers, and 0 behind them.
fn padded(first: &[u32], refusal: u32) -> Numbers {
    let mut values = [0; 11];
    for (value, n) in values.iter_mut().zip(first) {
        *value = *n;
    }
    Numbers { values, refusal }
}

// Where the parts of a case stand.
#[derive(Clone, Copy)]
struct Case {
    call: u32,
    image: usize,
    request: usize,
    list: usize,
    numbers: usize,
    end: usize,
}

fn case_at(s: &[u8], at: usize) -> Case {
    let image = after(s, on(at, 4));
    let request = after(s, image);
    let list = after(s, request);
    let numbers = after(s, list);
    Case {
        call: number(s, at),
        image,
        request,
        list,
        numbers,
        end: after_numbers(s, numbers),
    }
}

// ---- the calls: the numbers as they stand after each

fn check(image: &[u8]) -> Numbers {
    let a = lookups::check(image);
    padded(&[a.place], a.refusal)
}

fn open(n: [u32; 11]) -> Numbers {
    let a = session::open(n[0]);
    let x = a.session;
    padded(
        &[n[0], x.case, x.state, x.forwarded, x.last, x.handling],
        a.refusal,
    )
}

fn session_in(n: [u32; 11]) -> Session {
    let [case, state, forwarded, last, handling, ..] = n;
    Session {
        case,
        state,
        forwarded,
        last,
        handling,
    }
}

fn advance(image: &[u8], request: &[u8], n: [u32; 11]) -> Numbers {
    let a = route::advance(session_in(n), image, request);
    let x = a.session;
    Numbers {
        values: [
            x.case,
            x.state,
            x.forwarded,
            x.last,
            x.handling,
            a.place,
            a.outcome,
            a.number,
            a.priority,
            a.examined,
            a.trials,
        ],
        refusal: a.refusal,
    }
}

fn report(n: [u32; 11]) -> Numbers {
    let a = session::report(session_in(n), n[5]);
    let x = a.session;
    padded(
        &[x.case, x.state, x.forwarded, x.last, x.handling, n[5]],
        a.refusal,
    )
}

fn list(image: &[u8], request: &[u8], n: [u32; 11], into: &mut [u8]) -> Numbers {
    let given = Given {
        case: n[0],
        registration: n[1],
    };
    let a = listing::list(image, request, given, into);
    padded(
        &[n[0], n[1], a.place, a.count, a.examined, a.trials],
        a.refusal,
    )
}

fn server(image: &[u8], n: [u32; 11]) -> Numbers {
    let a = lookups::server(image, n[0]);
    padded(&[n[0], a.place, a.start, a.size], a.refusal)
}

fn information(image: &[u8], n: [u32; 11]) -> Numbers {
    let a = lookups::information(image, n[0]);
    let present = u32::from(a.present);
    padded(&[n[0], a.place, present, a.start, a.size], a.refusal)
}

fn call(which: u32, image: &[u8], request: &[u8], n: [u32; 11], into: &mut [u8]) -> Numbers {
    match which {
        0 => check(image),
        1 => open(n),
        2 => advance(image, request, n),
        3 => report(n),
        4 => list(image, request, n, into),
        5 => server(image, n),
        _ => information(image, n),
    }
}

// ---- comparing

// The places that a case lends, with what they hold before the call.
fn room_with(list: &[u8]) -> [u8; 512]
    ensures { 512 ≡ length result }
{
    let mut room = [0; 512];
    for (place, b) in room.iter_mut().zip(list) {
        *place = *b;
    }
    room
}

// Whether a case is answered as the second program answered it; the lent list holds what it does before the call.
fn agrees(cases: &[u8], x: Case, answers: &[u8], at: usize, list: &mut [u8]) -> bool {
    let image = bytes(cases, x.image);
    let request = bytes(cases, x.request);
    let given = read_numbers(cases, x.numbers, 0).values;
    let got = call(x.call, image, request, given, list);
    let told = on(at, 4);
    let numbers_at = after(answers, told);
    let right = read_numbers(answers, numbers_at, number(answers, at));
    length_at(cases, x.numbers) == length_at(answers, numbers_at)
        && got == right
        && &*list == bytes(answers, told)
}

// No kept case lends more than 512 places.
fn agrees_with_room(cases: &[u8], x: Case, answers: &[u8], at: usize) -> bool {
    let before = bytes(cases, x.list);
    let n = before.len();
    if 512 < n {
        return false;
    }
    let mut room = room_with(before);
    agrees(cases, x, answers, at, &mut room[0..n])
}

// Where the next case and its answer begin, and how many differed so far.
#[derive(Clone, Copy)]
struct Standing {
    case: usize,
    answer: usize,
    differ: u32,
}

fn step(
    rt: &impl Print,
    cases: &[u8],
    answers: &[u8],
    k: u32,
    at: Standing,
) -> io::Result<Standing> {
    let x = case_at(cases, at.case);
    let listed = on(at.answer, 4);
    let next = Standing {
        case: x.end,
        answer: after_numbers(answers, after(answers, listed)),
        differ: at.differ,
    };
    if agrees_with_room(cases, x, answers, at.answer) {
        return Ok(next);
    }
    println!(rt; "case {k}, call {call}: differs", call = x.call)?;
    Ok(Standing {
        differ: at.differ.wrapping_add(1),
        ..next
    })
}

// "IFCC" and "IFCA", and one answer for each case.
fn fit_each_other(cases: &[u8], answers: &[u8]) -> bool {
    number(cases, 0) == 0x49464343
        && number(answers, 0) == 0x49464341
        && number(cases, 4) == number(answers, 4)
}

fn run_all(rt: &impl Print, cases: &[u8], answers: &[u8], count: u32) -> io::Result<Standing> {
    let mut at = Standing {
        case: 8,
        answer: 8,
        differ: 0,
    };
    for k in 0..count {
        at = step(rt, cases, answers, k, at)?;
    }
    Ok(at)
}

fn run(rt: &impl Print, cases: &[u8], answers: &[u8]) -> io::Result<()> {
    if !fit_each_other(cases, answers) {
        return println!(rt; "not the cases and their answers");
    }
    let count = number(cases, 4);
    let at = run_all(rt, cases, answers, count)?;
    if at.case != cases.len() || at.answer != answers.len() {
        println!(rt; "a file does not end with its last case")?;
    }
    println!(rt; "{count} cases, {differ} differ", differ = at.differ)
}

// Some more room than the files have, since a file that fills its room may go on.
fn room_for_cases() -> [u8; 1000000] {
    [0; 1000000]
}

fn room_for_answers() -> [u8; 200000] {
    [0; 200000]
}

// Reads a file until the room is full or the file ends: what stands at the start of the room.
fn read<'a>(rt: &impl Files, name: &str, into: &'a mut [u8]) -> io::Result<&'a [u8]>
    ensures { IfOk result (λ s. length s.now ≤ length into.old) }
{
    let mut file = fs::open(rt, name)?;
    let mut done: usize = 0;
    while done < into.len() {
        let n = file.read(&mut into[done..])?;
        if n == 0 {
            break;
        }
        done += n;
    }
    Ok(&into[..done])
}

fn main(rt: HostRuntime) -> io::Result<()> {
    let mut cases = room_for_cases();
    let mut answers = room_for_answers();
    run(
        &rt,
        read(&rt, "cases", &mut cases)?,
        read(&rt, "answers", &mut answers)?,
    )
}
