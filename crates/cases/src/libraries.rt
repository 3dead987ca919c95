// Each library and layer on a table of questions.
ghost use Rattle.std.specs.Prelude.{ℕ, Ok};

use library::{
    Cause, Check, Fault, Image, Library, Patch, Refusal, Run, RunTable, Window, to_bytes,
    with_check_words,
};
use std::test::Fail;

fn fault(layer: u8, cause: Cause, place: u32) -> Result<u32, Fault> {
    Err(Fault {
        layer,
        cause,
        place,
    })
}

fn run(kind: u8, count: u16, word: u32) -> Run {
    Run { kind, count, word }
}

#[test]
fn image_words_have_their_most_significant_byte_first(rt: HostRuntime) {
    let mut image = Image::new(&[1, 2, 3, 4, 255, 0, 128, 127, 9, 9, 9]);
    assert_eq!(rt; image.layer_number(), 0);
    assert_eq!(rt; image.ask(0), Ok(0x0102_0304));
    assert_eq!(rt; image.ask(1), Ok(0xff00_807f));
    for place in [2, 3, 0x4000_0000, u32::MAX] {
        assert_eq!(rt; image.ask(place), fault(0, Cause::BeyondEnd, place));
    }
    assert_eq!(rt;
        Image::new(&[0, 0, 0, 1, 0, 0, 2]).ask(1),
        fault(0, Cause::BeyondEnd, 1)
    );
    assert_eq!(rt; Image::new(&[]).ask(0), fault(0, Cause::BeyondEnd, 0));
}

#[test]
fn runs_follow_one_another(rt: HostRuntime) {
    let runs = [
        run(0, 0, 1),
        run(0, 2, 2),
        run(7, 1, 3),
        run(0, 0, 4),
        run(0, 65535, 5),
    ];
    let mut table = RunTable::new(&runs);
    assert_eq!(rt; table.layer_number(), 0);
    let answers = [
        (0, Ok(2)),
        (1, Ok(2)),
        (2, fault(0, Cause::Unreadable, 2)),
        (3, Ok(5)),
        (65537, Ok(5)),
        (65538, fault(0, Cause::BeyondEnd, 65538)),
        (u32::MAX, fault(0, Cause::BeyondEnd, u32::MAX)),
    ];
    for (place, answer) in answers {
        assert_eq!(rt; table.ask(place), answer);
    }
    let none: [Run; 0] = [];
    assert_eq!(rt; RunTable::new(&none).ask(0), fault(0, Cause::BeyondEnd, 0));
}

#[test]
fn records_after_the_sixteenth_do_not_count(rt: HostRuntime) {
    let runs = [run(0, 1, 6); 17];
    let mut table = RunTable::new(&runs);
    assert_eq!(rt; table.ask(15), Ok(6));
    assert_eq!(rt; table.ask(16), fault(0, Cause::BeyondEnd, 16));
}

#[test]
fn a_window_shows_its_part(rt: HostRuntime) {
    let runs = [run(0, 4, 1), run(0, 4, 2)];
    let mut window = Window::new(RunTable::new(&runs), 3, 6);
    assert_eq!(rt; window.layer_number(), 1);
    let answers = [
        (0, Ok(1)),
        (1, Ok(2)),
        (4, Ok(2)),
        (5, fault(0, Cause::BeyondEnd, 8)),
        (6, fault(1, Cause::BeyondEnd, 6)),
        (u32::MAX, fault(1, Cause::BeyondEnd, u32::MAX)),
    ];
    for (place, answer) in answers {
        assert_eq!(rt; window.ask(place), answer);
    }
    let mut last = Window::new(window.into_below(), u32::MAX, 2);
    assert_eq!(rt; last.ask(0), fault(0, Cause::BeyondEnd, u32::MAX));
    assert_eq!(rt; last.ask(1), fault(1, Cause::BeyondEnd, 1));
}

#[test]
fn a_patch_counts_until_the_next(rt: HostRuntime) {
    let mut patch = Patch::new(Image::new(&[0, 0, 0, 1]));
    assert_eq!(rt; patch.layer_number(), 1);
    assert_eq!(rt; patch.ask(0), Ok(1));
    for place in 1..20 {
        assert_eq!(rt; patch.ask(place), fault(0, Cause::BeyondEnd, place));
    }
    for place in 0..16 {
        assert_eq!(rt; patch.patch(place, 100), Ok(()));
    }
    assert_eq!(rt; patch.patch(5, 7), Ok(()));
    assert_eq!(rt; patch.patch(16, 8), Err(Refusal::PatchesFull));
    assert_eq!(rt; patch.patch(u32::MAX, 8), Err(Refusal::PatchesFull));
    assert_eq!(rt; patch.ask(0), Ok(100));
    assert_eq!(rt; patch.ask(5), Ok(7));
    assert_eq!(rt; patch.ask(15), Ok(100));
    assert_eq!(rt; patch.ask(16), fault(0, Cause::BeyondEnd, 16));
    assert_eq!(rt; patch.into_below().ask(0), Ok(1));
}

// Runs of the words 1 to 8, and a ninth that is `check`.
fn group(check: u32) -> [Run; 9] {
    [
        run(0, 1, 1),
        run(0, 1, 2),
        run(0, 1, 3),
        run(0, 1, 4),
        run(0, 1, 5),
        run(0, 1, 6),
        run(0, 1, 7),
        run(0, 1, 8),
        run(0, 1, check),
    ]
}

#[test]
fn a_group_is_given_whole_or_not_at_all(rt: HostRuntime) {
    let right = group(8);
    let wrong = group(9);
    let mut good = Check::new(RunTable::new(&right));
    let mut bad = Check::new(RunTable::new(&wrong));
    assert_eq!(rt; good.layer_number(), 1);
    for place in 0..8 {
        assert_eq!(rt; good.ask(place), Ok(place + 1));
        assert_eq!(rt; bad.ask(place), fault(1, Cause::CheckFailed, place));
    }
    assert_eq!(rt; good.ask(8), fault(0, Cause::BeyondEnd, 9));
    assert_eq!(rt;
        good.ask(3_817_748_703),
        fault(0, Cause::BeyondEnd, 4_294_967_283)
    );
    assert_eq!(rt;
        good.ask(3_817_748_704),
        fault(1, Cause::BeyondEnd, 3_817_748_704)
    );
    assert_eq!(rt; good.into_below().ask(8), Ok(8));
}

#[test]
fn the_first_fault_of_a_group_is_the_answer(rt: HostRuntime) {
    let runs = [run(0, 3, 1), run(1, 2, 1), run(0, 4, 1)];
    let mut stack = Check::new(RunTable::new(&runs));
    for place in 0..8 {
        assert_eq!(rt; stack.ask(place), fault(0, Cause::Unreadable, 3));
    }
}

#[test]
fn layers_stand_on_each_other_in_any_order(rt: HostRuntime) {
    let runs = group(8);
    let mut one = Patch::new(Window::new(Check::new(RunTable::new(&runs)), 2, 4));
    assert_eq!(rt; one.patch(1, 50), Ok(()));
    let mut two = Window::new(one, 0, 3);
    assert_eq!(rt; two.layer_number(), 4);
    let answers = [
        (0, Ok(3)),
        (1, Ok(50)),
        (2, Ok(5)),
        (3, fault(4, Cause::BeyondEnd, 3)),
    ];
    for (place, answer) in answers {
        assert_eq!(rt; two.ask(place), answer);
    }
    let mut patched = Patch::new(RunTable::new(&runs));
    assert_eq!(rt; patched.patch(8, 9), Ok(()));
    assert_eq!(rt; Check::new(patched).ask(2), fault(2, Cause::CheckFailed, 2));
}

// A library of the highest layer, with the place itself at each place.
#[derive(Drop)]
struct Top;

impl Library for Top {
    ghost layer = { λ _. 255 };

    ghost cell = { λ _ p. Ok p };

    fn layer_number(&self) -> u8 {
        255
    }

    fn ask(&mut self, place: u32) -> Result<u32, Fault> {
        Ok(place)
    }
}

#[test]
fn layer_numbers_stop_at_255(rt: HostRuntime) {
    let mut window = Window::new(Top, 10, 1);
    assert_eq!(rt; window.ask(0), Ok(10));
    assert_eq!(rt; window.ask(1), fault(255, Cause::BeyondEnd, 1));
    assert_eq!(rt; Patch::new(Top).layer_number(), 255);
    assert_eq!(rt; Check::new(Top).ask(0), fault(255, Cause::CheckFailed, 0));
}

#[test]
fn a_file_that_was_made_reads_back(rt: HostRuntime) -> Result<(), Fail> {
    let groups = [[1, 2, 3, 4, 5, 6, 7, 8], [9, 0, 0, 0, 0, 0, 0, u32::MAX]];
    let words = with_check_words(rt.alloc(), &groups)?;
    let bytes = to_bytes(rt.alloc(), words.as_slice())?;
    assert_eq!(rt; bytes.len(), 72);
    let mut stack = Check::new(Image::new(bytes.as_slice()));
    let answers = [(0, 1), (7, 8), (8, 9), (14, 0), (15, u32::MAX)];
    for (place, word) in answers {
        assert_eq!(rt; stack.ask(place), Ok(word));
    }
    assert_eq!(rt; stack.ask(16), fault(0, Cause::BeyondEnd, 18));
    Ok(())
}

#[test]
fn causes_and_refusals_have_their_numbers(rt: HostRuntime) -> Result<(), Fail> {
    assert_eq!(rt; Cause::BeyondEnd.number(), 1);
    assert_eq!(rt; Cause::Unreadable.number(), 2);
    assert_eq!(rt; Cause::CheckFailed.number(), 3);
    assert_eq!(rt; Refusal::PatchesFull.number(), 8);
    let found = Fault {
        layer: 2,
        cause: Cause::Unreadable,
        place: u32::MAX,
    };
    let text = format!(in rt.alloc(); "{found}")?;
    assert_eq!(rt;
        text.as_str(),
        "layer 2, cause 2 (unreadable), place 4294967295"
    );
    let full = format!(in rt.alloc(); "{}", Refusal::PatchesFull)?;
    assert_eq!(rt; full.as_str(), "sixteen places are patched already");
    Ok(())
}
