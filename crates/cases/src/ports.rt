// Each port on tables of calls.
use port::{BitTurn, Content, Plane, Port, Record, Refused, Tape, load, put_all, turn};
use std::test::Fail;

fn mark(partition: u32) -> Record {
    Record {
        partition,
        content: Content::Mark,
    }
}

fn word(partition: u32, word: u32) -> Record {
    Record {
        partition,
        content: Content::Word(word),
    }
}

#[test]
fn the_bits_of_each_byte_are_turned(rt: HostRuntime) {
    let turned = [
        (0, 0),
        (1, 128),
        (0x0102_0380, 0x8040_c001),
        (0x8040_c001, 0x0102_0380),
        (0x0f00_00f0, 0xf000_000f),
        (u32::MAX, u32::MAX),
    ];
    for (before, after) in turned {
        assert_eq!(rt; turn(before), after);
    }
}

#[test]
fn a_plane_is_cut_into_eight(rt: HostRuntime) {
    let mut cells = [9; 17];
    let mut plane = Plane::new(&mut cells);
    assert_eq!(rt; plane.partitions(), 8);
    assert_eq!(rt; plane.opened(), None);
    assert_eq!(rt; plane.room(), 0);
    assert_eq!(rt; plane.put(1), Err(Refused));
    assert_eq!(rt; plane.close(), Err(Refused));
    assert_eq!(rt; plane.open(8), Err(Refused));
    assert_eq!(rt; plane.open(7), Ok(()));
    assert_eq!(rt; plane.open(3), Err(Refused));
    assert_eq!(rt; plane.opened(), Some(7));
    assert_eq!(rt; plane.room(), 2);
    assert_eq!(rt; plane.put(5), Ok(()));
    assert_eq!(rt; plane.put(6), Ok(()));
    assert_eq!(rt; plane.put(7), Err(Refused));
    assert_eq!(rt; plane.length(7), 2);
    assert_eq!(rt; plane.close(), Ok(()));
}

#[test]
fn a_plane_fills_its_partitions(rt: HostRuntime) {
    let mut cells = [9; 17];
    let mut plane = Plane::new(&mut cells);
    assert_eq!(rt; load(&mut plane, 7, &[5, 6, 7]), Some(2));
    assert_eq!(rt; load(&mut plane, 0, &[1]), Some(1));
    assert_eq!(rt; load(&mut plane, 8, &[1]), None);
    assert_eq!(rt; plane.word(7, 0), Some(5));
    assert_eq!(rt; plane.word(7, 1), Some(6));
    assert_eq!(rt; plane.word(7, 2), None);
    assert_eq!(rt; plane.word(0, 0), Some(1));
    assert_eq!(rt; plane.word(0, 1), None);
    assert_eq!(rt; plane.length(8), 0);
    assert_eq!(rt; plane.open(0), Ok(()));
    assert_eq!(rt; plane.length(0), 0);
    assert!(rt; !plane.is_spent());
    drop(plane);
    assert!(rt; cells == [1, 9, 9, 9, 9, 9, 9, 9, 9, 9, 9, 9, 9, 9, 5, 6, 9]);
}

#[test]
fn a_small_plane_has_no_room(rt: HostRuntime) {
    let mut cells = [9; 7];
    let mut plane = Plane::new(&mut cells);
    assert_eq!(rt; plane.open(3), Ok(()));
    assert_eq!(rt; plane.room(), 0);
    assert_eq!(rt; plane.put(1), Err(Refused));
    assert_eq!(rt; put_all(&mut plane, &[1, 2]), 0);
    assert_eq!(rt; plane.length(3), 0);
}

#[test]
fn a_tape_keeps_marks_and_words(rt: HostRuntime) {
    let mut records = [word(3, 77); 6];
    let mut tape = Tape::new(&mut records);
    assert_eq!(rt; tape.length(3), 0);
    assert_eq!(rt; tape.room(), 0);
    assert_eq!(rt; tape.open(3), Ok(()));
    assert_eq!(rt; tape.room(), 5);
    assert_eq!(rt; tape.put(1), Ok(()));
    assert_eq!(rt; tape.put(2), Ok(()));
    assert_eq!(rt; tape.close(), Ok(()));
    assert_eq!(rt; tape.word(3, 1), Some(2));
    assert_eq!(rt; load(&mut tape, 5, &[8]), Some(1));
    assert_eq!(rt; tape.length(3), 2);
    assert_eq!(rt; tape.word(5, 0), Some(8));
    assert_eq!(rt; tape.open(3), Ok(()));
    assert_eq!(rt; tape.length(3), 0);
    assert!(rt; tape.is_spent());
    assert_eq!(rt; tape.put(9), Err(Refused));
    assert_eq!(rt; tape.close(), Ok(()));
    assert_eq!(rt; tape.open(3), Err(Refused));
    drop(tape);
    assert_eq!(rt; records[4], word(5, 8));
    assert_eq!(rt; records[5], mark(3));
}

#[test]
fn a_refused_call_has_a_text(rt: HostRuntime) -> Result<(), Fail> {
    let text = format!(in rt.alloc(); "{}", Refused)?;
    assert_eq!(rt; text.as_str(), "the port does not accept this call");
    Ok(())
}

#[test]
fn a_tape_of_no_records_is_spent(rt: HostRuntime) {
    let mut records: [Record; 0] = [];
    let mut tape = Tape::new(&mut records);
    assert!(rt; tape.is_spent());
    assert_eq!(rt; tape.open(0), Err(Refused));
    assert_eq!(rt; tape.partitions(), 8);
    assert_eq!(rt; tape.opened(), None);
}

// A caller may change a port that it holds by value, and let it go.
fn loaded_plane(mut plane: Plane<'_>, words: &[u32]) -> usize {
    let _ = load(&mut plane, 3, words);
    plane.length(3)
}

fn loaded_tape(mut tape: Tape<'_>, words: &[u32]) -> usize {
    let _ = load(&mut tape, 3, words);
    tape.length(3)
}

fn loaded_through_a_turn(plane: Plane<'_>, words: &[u32]) -> usize {
    let mut port = BitTurn::new(plane);
    let _ = load(&mut port, 3, words);
    port.length(3)
}

#[test]
fn ports_are_changed_by_who_holds_them(rt: HostRuntime) {
    let mut cells = [0; 16];
    assert_eq!(rt; loaded_plane(Plane::new(&mut cells), &[1, 2, 3]), 2);
    assert_eq!(rt; loaded_through_a_turn(Plane::new(&mut cells), &[1]), 1);
    let mut records = [mark(0); 4];
    assert_eq!(rt; loaded_tape(Tape::new(&mut records), &[1, 2]), 2);
    let mut others = [mark(0); 1];
    let mut tapes = [Tape::new(&mut records), Tape::new(&mut others)];
    for tape in tapes.iter_mut() {
        assert_eq!(rt; tape.open(1), Ok(()));
    }
    assert_eq!(rt; tapes[0].room(), 3);
    assert!(rt; tapes[1].is_spent());
}

#[test]
fn three_turns_are_one(rt: HostRuntime) {
    let mut cells = [0; 16];
    let mut port = BitTurn::new(BitTurn::new(BitTurn::new(Plane::new(&mut cells))));
    assert_eq!(rt; load(&mut port, 1, &[0x0102_0380, 7]), Some(2));
    assert_eq!(rt; port.word(1, 0), Some(0x0102_0380));
    assert_eq!(rt; port.length(1), 2);
    assert_eq!(rt; port.partitions(), 8);
    assert!(rt; !port.is_spent());
    let plane = port.into_below().into_below().into_below();
    assert_eq!(rt; plane.word(1, 0), Some(0x8040_c001));
    assert_eq!(rt; plane.word(1, 1), Some(224));
}
