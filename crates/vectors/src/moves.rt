// Gathers J's bytes, scatters them over another memory, and prints what is the same then.
ghost use Rattle.std.specs.Prelude.{◌≡◌};

use crate::sound::{J_TOTAL, Memory, SoundLayout};
use crate::{J_MEMORY, layouts};
use std::{array, io};

// Returns a memory with a pattern in which no byte is 0, so that none looks like one that was never stored.
fn pattern() -> Memory {
    array::from_fn(|i| (i % 251) as u8 + 1)
}

// Returns how many bytes are the same in both.
fn count_same(a: &[u8], b: &[u8]) -> usize {
    a.iter().zip(b).filter(|(x, y)| x == y).count()
}

// Gathers J's bytes from one memory, scatters them over another, and gathers them again from there.
fn print_sound_moves(rt: &impl Print, j: &SoundLayout) -> io::Result<()>
    requires { j.now.total ≡ 1040 }
{
    let from = pattern();
    let bytes = j.gather(&from);
    println!(rt;
        "J, gathered: layout byte 512 is {}, 520 is {}",
        bytes[512], bytes[520]
    )?;
    let mut to = [0; J_MEMORY as usize];
    j.scatter(&mut to, &bytes);
    let same = count_same(&from, &to);
    println!(rt;
        "J, scattered over zeros: {same} of {} memory bytes are the same",
        from.len()
    )?;
    let same = count_same(&bytes, &j.gather(&to));
    println!(rt;
        "J, gathered again: {same} of {} layout bytes are the same",
        bytes.len()
    )
}

pub(crate) fn print_moves(rt: &impl Print) -> io::Result<()> {
    match SoundLayout::new(layouts::make_j()) {
        Some(j) if j.total == J_TOTAL => print_sound_moves(rt, &j),
        _ => Ok(()),
    }
}
