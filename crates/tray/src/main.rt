// Makes a module file, reads it through layers, loads it into ports, and leads a socket from one module to another.
#![tactic(auto)]

mod card;
mod change;
mod show;

use anyhow::Context;
use card::{NEW_CHECK_WORD, NEW_WORD, card_bytes};
use change::walk;
use library::{Check, Image, Patch, Window};
use port::{BitTurn, Content, Plane, Port, Record, Tape, load};
use show::{read_file, show_list};

// The words of the file on a card, as far as they are given.
fn read_card(rt: &HostRuntime, bytes: &[u8]) -> anyhow::Result<Vec<u32>> {
    let mut patch = Patch::new(Window::new(Image::new(bytes), 4, 18));
    patch.patch(6, NEW_WORD)?;
    patch.patch(8, NEW_CHECK_WORD)?;
    read_file(rt, &mut Check::new(patch))
}

fn read_copies(rt: &HostRuntime, mut bytes: Vec<u8>) -> anyhow::Result<()> {
    let mut copy = bytes.clone()?;
    if let Some(byte) = copy.get_mut(61) {
        *byte ^= 16;
    }
    println!(rt; "Read a copy of the card with one bit of byte 61 flipped:")?;
    read_card(rt, copy.as_slice())?;
    bytes.truncate(82);
    println!(rt; "Read a copy of the card that was cut off after 82 bytes:")?;
    read_card(rt, bytes.as_slice())?;
    Ok(())
}

fn load_plane(rt: &HostRuntime, words: &[u32]) -> anyhow::Result<()> {
    let mut cells = [0; 160];
    let mut port = BitTurn::new(Plane::new(&mut cells));
    let taken = load(&mut port, 3, words).context("partition 3 is not open to loading")?;
    println!(rt;
        "Loaded the file into partition 3 of a plane, through a bit-turn layer, which took {taken} words:"
    )?;
    show_list(rt, &port, 3)?;
    let plane = port.into_below();
    println!(rt; "In the plane itself they are:")?;
    show_list(rt, &plane, 3)
}

fn load_tape(rt: &HostRuntime, words: &[u32]) -> anyhow::Result<()> {
    let mut records = [Record {
        partition: 0,
        content: Content::Mark,
    }; 20];
    let mut tape = Tape::new(&mut records);
    for s in [3, 5] {
        let taken = load(&mut tape, s, words).context("the partition is not open to loading")?;
        println!(rt;
            "Loaded it into partition {s} of a tape of 20 records, which took {taken} words:"
        )?;
        show_list(rt, &tape, s)?;
    }
    if load(&mut tape, 3, words).is_none() && tape.is_spent() {
        println!(rt;
            "The tape is spent: partition 3 cannot be opened again, and keeps its words."
        )?;
    }
    Ok(())
}

fn run(rt: &HostRuntime) -> anyhow::Result<()> {
    let bytes = card_bytes(rt.alloc())?;
    println!(rt; "Made a module file of 16 words in 2 groups, each with its check word,")?;
    println!(rt;
        "and put it on a card of {} words, from word 4 on.",
        bytes.len() / 4
    )?;
    println!(rt;
        "Read it through a check layer on a patch layer on a window on the card's image,"
    )?;
    println!(rt;
        "with place 6 of the window patched to {NEW_WORD:08x} and its check word to {NEW_CHECK_WORD:08x}:"
    )?;
    let words = read_card(rt, bytes.as_slice())?;
    read_copies(rt, bytes)?;
    load_plane(rt, words.as_slice())?;
    load_tape(rt, words.as_slice())?;
    walk(rt)
}

fn main(rt: HostRuntime) -> anyhow::Result<()> {
    run(&rt)
}
