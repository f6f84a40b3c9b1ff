// Prints answers 5, 6 and 7 for layouts, and where layout bytes lie.
ghost use Rattle.std.specs.Prelude.{◌<◌};

use crate::J_MEMORY;
use crate::sound::SoundLayout;
use key::Refusal;
use layout::{ENTRIES_MAX, Entry, Layout, MemoryOffset};
use std::io;

// Where the second entry of J's layout starts, and where that of L's does.
const J_SECOND_START: u64 = 1028;

const L_SECOND_START: u64 = 1027;

const LAST_OFFSET: u64 = 0xFFFF_FFFF_FFFF_FFFF;

fn make_entry(start: u64, count: u32, skip: u32) -> Entry {
    Entry {
        start: MemoryOffset::new(start),
        count,
        skip,
    }
}

// Returns a layout whose first two entries are given. The others are empty, and count only if `used` says so.
fn make_layout(first: Entry, second: Entry, used: u32, repeat: u32) -> Layout {
    let mut entries = [make_entry(0, 0, 0); ENTRIES_MAX];
    entries[0] = first;
    entries[1] = second;
    Layout {
        entries,
        used,
        repeat,
    }
}

// Returns J's layout, but for the start of its second entry.
fn make_like_j(second_start: u64) -> Layout {
    make_layout(make_entry(0, 512, 4), make_entry(second_start, 8, 0), 2, 2)
}

pub(crate) fn make_j() -> Layout {
    make_like_j(J_SECOND_START)
}

// Returns a layout in which the pieces of two entries, of one byte each, alternate.
fn make_alternating(used: u32, repeat: u32) -> Layout {
    make_layout(make_entry(0, 1, 1), make_entry(1, 1, 1), used, repeat)
}

// Returns a layout of one piece.
fn make_single(start: u64, count: u32) -> Layout {
    make_layout(make_entry(start, count, 0), make_entry(0, 0, 0), 1, 1)
}

// Returns 01's number for the verdict on a layout.
fn answer_number(l: Layout, memory_length: u64) -> u32 {
    match layout::judge(l, memory_length) {
        Ok(()) => 0,
        Err(error) => u32::from(Refusal::from(error)),
    }
}

fn print_answer(rt: &impl Print, label: &str, l: Layout, memory_length: u64) -> io::Result<()> {
    let answer = answer_number(l, memory_length);
    println!(rt; "{label}, memory {memory_length}: answer {answer}")
}

pub(crate) fn print_answers(rt: &impl Print) -> io::Result<()> {
    print_answer(rt, "J", make_j(), J_MEMORY)?;
    print_answer(rt, "K", make_j(), J_MEMORY - 1)?;
    print_answer(rt, "L", make_like_j(L_SECOND_START), J_MEMORY)
}

pub(crate) fn print_malformed(rt: &impl Print) -> io::Result<()> {
    print_answer(rt, "used 0", make_alternating(0, 1), J_MEMORY)?;
    print_answer(rt, "used 17", make_alternating(17, 1), J_MEMORY)?;
    print_answer(rt, "repeat 0", make_alternating(2, 0), J_MEMORY)?;
    print_answer(rt, "a count 0", make_single(0, 0), J_MEMORY)?;
    print_answer(rt, "2 entries x 513 repeats", make_alternating(2, 513), 8)?;
    print_answer(rt, "2 entries x 512 repeats", make_alternating(2, 512), 8)
}

// Prints the answers for pieces at the end of 64 bits, and for two that touch.
pub(crate) fn print_edges(rt: &impl Print) -> io::Result<()> {
    print_answer(
        rt,
        "start 2^64 - 1, count 1",
        make_single(LAST_OFFSET, 1),
        J_MEMORY,
    )?;
    print_answer(
        rt,
        "start 2^64 - 1, count 1",
        make_single(LAST_OFFSET, 1),
        LAST_OFFSET,
    )?;
    print_answer(
        rt,
        "touching pieces (0, 8, 0), (8, 8, 0)",
        make_layout(make_entry(0, 8, 0), make_entry(8, 8, 0), 2, 1),
        16,
    )
}

// Prints where layout byte x lies.
fn print_spot(rt: &impl Print, j: &SoundLayout, x: u64) -> io::Result<()>
    requires { x < j.now.total }
{
    let cursor = j.walk(x);
    let place = cursor.place.number();
    println!(rt;
        "J, layout byte {x}: memory byte {place}, bytes left {}",
        cursor.left
    )
}

// Prints J's total, and where the first and the last byte of some of J's pieces lie.
pub(crate) fn print_spots(rt: &impl Print) -> io::Result<()> {
    let Some(j) = SoundLayout::new(make_j()) else {
        return Ok(());
    };
    println!(rt; "J: total {}", j.total)?;
    for x in [0, 511, 512, 519, 520, 1039] {
        if x < j.total {
            print_spot(rt, &j, x)?;
        }
    }
    Ok(())
}
