// One socket on tables of calls.
use socket::{
    Answer, Capacity, Command, Error, File, Level, ModuleControl, Refusal, Register, ResetCode,
    Socket, StopKind, Write,
};
use std::process::Abort;

// Hardware then software stop, software start, and a reset of two ticks.
const SLOW: u32 = 54;

fn capacity(rt: &impl Abort, modules: u32, triggers: u32) -> Capacity {
    Capacity::new(modules, triggers).expect(rt, "there are such sockets")
}

fn write(
    socket: &mut Socket,
    capacity: Capacity,
    (bank, select): (u32, u32),
    word: u32,
) -> Result<Answer, Refusal> {
    let register = Register::at(bank, select, capacity)?;
    let write = Write::new(register, word, capacity)?;
    Ok(socket.write(write, capacity))
}

fn read(socket: &Socket, capacity: Capacity, bank: u32, select: u32) -> Result<u32, Refusal> {
    let register = Register::at(bank, select, capacity)?;
    Ok(socket.read(register))
}

fn command(socket: &mut Socket, capacity: Capacity, word: u32) -> Result<Answer, Refusal> {
    write(socket, capacity, (0, 0), word)
}

// Three modules with the same control, and a file in each row; full with module 1.
fn full_socket(rt: &impl Abort, capacity: Capacity, control: u32) -> Socket {
    let mut socket = Socket::new(capacity);
    for m in 0..3 {
        for (bank, select, word) in [
            (2, 2 * m + 1, control),
            (3, 4 * m + 1, 16 * m),
            (3, 4 * m + 2, 8),
        ] {
            assert_eq!(rt;
                write(&mut socket, capacity, (bank, select), word),
                Ok(Answer::Taken)
            );
        }
    }
    assert_eq!(rt;
        command(&mut socket, capacity, 0x0001_0102),
        Ok(Answer::Taken)
    );
    socket
}

// Led from module 1 to module 2 as far as a state.
fn socket_in(rt: &impl Abort, capacity: Capacity, state: u32) -> Socket {
    let mut socket = full_socket(rt, capacity, SLOW);
    if state == 0 {
        assert_eq!(rt; command(&mut socket, capacity, 0), Ok(Answer::Taken));
        socket.step(capacity);
        assert_eq!(rt; command(&mut socket, capacity, 2), Ok(Answer::Taken));
    }
    if state == 0 || state == 7 {
        return socket;
    }
    assert_eq!(rt; write(&mut socket, capacity, (0, 1), 2), Ok(Answer::Taken));
    socket.step(capacity);
    if state >= 2 {
        socket.acknowledge(Level::High);
        socket.step(capacity);
    }
    if state >= 4 {
        assert_eq!(rt; command(&mut socket, capacity, 3), Ok(Answer::Taken));
    }
    if state >= 5 {
        socket.finish_load();
    }
    if state >= 6 {
        assert_eq!(rt; command(&mut socket, capacity, 3), Ok(Answer::Taken));
    }
    socket
}

#[test]
fn there_are_few_capacities(rt: HostRuntime) {
    for (modules, triggers, is_there) in [
        (0, 1, false),
        (1, 1, true),
        (16, 32, true),
        (17, 32, false),
        (3, 0, false),
        (3, 2, true),
        (3, 3, false),
        (3, 4, true),
        (3, 8, true),
        (3, 16, true),
        (3, 33, false),
        (3, 64, false),
        (256, 1, false),
        (257, 1, false),
        (1, 257, false),
        (u32::MAX, u32::MAX, false),
    ] {
        assert_eq!(rt; Capacity::new(modules, triggers).is_some(), is_there);
    }
    let capacity = capacity(&rt, 3, 8);
    assert_eq!(rt; capacity.modules(), 3);
    assert_eq!(rt; capacity.triggers(), 8);
}

#[test]
fn a_new_socket_is_empty_and_in_shutdown(rt: HostRuntime) {
    let capacity = capacity(&rt, 3, 8);
    let socket = Socket::new(capacity);
    assert!(rt; !socket.is_active());
    assert!(rt; !socket.is_waiting());
    assert_eq!(rt; socket.awaited_file(), None);
    assert_eq!(rt; socket.status(), 128);
    assert_eq!(rt; socket.outputs(), 2);
    for (bank, select, word) in [
        (0, 0, 128),
        (0, 1, 0),
        (1, 0, 0),
        (1, 1, 1),
        (1, 2, 2),
        (1, 3, 0),
        (1, 5, 2),
        (1, 7, 1),
        (2, 0, 0),
        (2, 1, 0),
        (2, 2, 1),
        (2, 4, 2),
        (2, 5, 0),
        (3, 0, 0),
        (3, 1, 0),
        (3, 2, 0),
        (3, 10, 0),
    ] {
        assert_eq!(rt; read(&socket, capacity, bank, select), Ok(word));
    }
}

#[test]
fn the_default_is_the_smallest(rt: HostRuntime) {
    let smallest = Capacity::default();
    assert_eq!(rt; smallest.modules(), 1);
    assert_eq!(rt; smallest.triggers(), 1);
    let socket = Socket::default();
    assert_eq!(rt; socket.status(), 128);
    assert_eq!(rt; socket.outputs(), 2);
    // each of its registers, and those that a larger socket would have
    let largest = capacity(&rt, 16, 32);
    let made = Socket::new(capacity(&rt, 1, 1));
    for (bank, selects) in [(0, 3), (1, 32), (2, 32), (3, 64)] {
        for select in 0..selects {
            assert_eq!(rt;
                read(&socket, largest, bank, select),
                read(&made, largest, bank, select)
            );
        }
    }
    // with one module each trigger leads to module 0
    assert_eq!(rt; read(&socket, largest, 1, 31), Ok(0));
}

#[test]
fn registers_stand_at_banks_and_selects(rt: HostRuntime) {
    let none = Err(Refusal::NoRegister);
    let small = capacity(&rt, 1, 1);
    let large = capacity(&rt, 16, 32);
    for (capacity, bank, select, register) in [
        (small, 0, 0, Ok(Register::Status)),
        (small, 0, 1, Ok(Register::SwTrigger)),
        (small, 0, 2, none),
        (small, 1, 0, Ok(Register::Trigger(0))),
        (small, 1, 1, none),
        (small, 2, 0, Ok(Register::FileRow(0))),
        (small, 2, 1, Ok(Register::ModuleControl(0))),
        (small, 2, 2, none),
        (small, 3, 0, Ok(Register::FileId(0))),
        (small, 3, 1, Ok(Register::Address(0))),
        (small, 3, 2, Ok(Register::Size(0))),
        (small, 3, 3, none),
        (small, 3, 4, none),
        (small, 4, 0, none),
        (large, 1, 31, Ok(Register::Trigger(31))),
        (large, 1, 32, none),
        (large, 1, 256, none),
        (large, 2, 30, Ok(Register::FileRow(15))),
        (large, 2, 31, Ok(Register::ModuleControl(15))),
        (large, 2, 32, none),
        (large, 3, 60, Ok(Register::FileId(15))),
        (large, 3, 62, Ok(Register::Size(15))),
        (large, 3, 63, none),
        (large, 3, 64, none),
        (large, 2, u32::MAX, none),
        (large, 256, 0, none),
        (large, u32::MAX, u32::MAX, none),
    ] {
        assert_eq!(rt; Register::at(bank, select, capacity), register);
    }
}

#[test]
fn words_stand_for_commands(rt: HostRuntime) {
    for (word, command) in [
        (0, Ok(Command::Shutdown)),
        (0xffff_ff00, Ok(Command::Shutdown)),
        (1, Ok(Command::Restart)),
        (2, Ok(Command::RestartWithStatus(None))),
        (0x0005_0002, Ok(Command::RestartWithStatus(None))),
        (0x0005_fe02, Ok(Command::RestartWithStatus(None))),
        (0x0005_0102, Ok(Command::RestartWithStatus(Some(5)))),
        (0xffff_ff02, Ok(Command::RestartWithStatus(Some(65535)))),
        (3, Ok(Command::Proceed)),
        (0xabcd_ff04, Ok(Command::UserControl(255))),
        (5, Err(Refusal::BadWord)),
        (255, Err(Refusal::BadWord)),
        (256, Ok(Command::Shutdown)),
    ] {
        assert_eq!(rt; Command::try_from(word), command);
    }
    for (command, word) in [
        (Command::Shutdown, 0),
        (Command::Restart, 1),
        (Command::RestartWithStatus(None), 2),
        (Command::RestartWithStatus(Some(65535)), 0xffff_0102),
        (Command::Proceed, 3),
        (Command::UserControl(255), 0xff04),
    ] {
        assert_eq!(rt; command.word(), word);
        assert_eq!(rt; u32::from(command.number()), word % 256);
    }
}

#[test]
fn words_stand_for_controls(rt: HostRuntime) {
    let all = ModuleControl {
        stop: StopKind::SoftwareThenHardware,
        start: true,
        reset: ResetCode::ActiveHigh,
        duration: 255,
    };
    for (word, control, kept) in [
        (0, ModuleControl::PLAIN, 0),
        (0xffff_e000, ModuleControl::PLAIN, 0),
        (u32::MAX, all, 0x1fff),
        (
            SLOW,
            ModuleControl {
                stop: StopKind::HardwareThenSoftware,
                start: true,
                reset: ResetCode::ActiveLow,
                duration: 1,
            },
            SLOW,
        ),
        (
            0x0009,
            ModuleControl {
                stop: StopKind::Hardware,
                start: false,
                reset: ResetCode::Reserved,
                duration: 0,
            },
            0x0009,
        ),
    ] {
        assert_eq!(rt; ModuleControl::from(word), control);
        assert_eq!(rt; control.word(), kept);
    }
}

#[test]
fn numbers_are_those_of_the_register_map(rt: HostRuntime) {
    assert_eq!(rt; Refusal::NoRegister.number(), 4);
    assert_eq!(rt; Refusal::BadWord.number(), 5);
    assert_eq!(rt; Refusal::BadLevel.number(), 7);
    assert_eq!(rt; Answer::Taken.number(), 0);
    assert_eq!(rt; Answer::Ignored.number(), 1);
    assert_eq!(rt; Error::BadRow.number(), 1);
    assert_eq!(rt; Error::Library.number(), 2);
    assert_eq!(rt; Error::Port.number(), 3);
    assert_eq!(rt; StopKind::SoftwareThenHardware.number(), 3);
    assert_eq!(rt; ResetCode::ActiveLow.number(), 2);
    assert_eq!(rt; Level::High.number(), 1);
    assert_eq!(rt; Level::try_from(0), Ok(Level::Low));
    assert_eq!(rt; Level::try_from(1), Ok(Level::High));
    assert_eq!(rt; Level::try_from(2), Err(Refusal::BadLevel));
    assert_eq!(rt; Level::try_from(256), Err(Refusal::BadLevel));
}

#[test]
fn high_bits_are_dropped(rt: HostRuntime) {
    for (triggers, kept) in [(1, 0), (2, 1), (4, 3), (8, 7), (16, 15), (32, 31)] {
        let capacity = capacity(&rt, 3, triggers);
        let mut socket = Socket::new(capacity);
        for (bank, select, word) in [
            (1, 0, kept),
            (2, 2, 0xff),
            (2, 3, 0x1fff),
            (3, 1, u32::MAX),
            (3, 2, u32::MAX),
        ] {
            let written = write(&mut socket, capacity, (bank, select), u32::MAX);
            assert_eq!(rt; written, Ok(Answer::Taken));
            assert_eq!(rt; read(&socket, capacity, bank, select), Ok(word));
        }
        assert_eq!(rt;
            write(&mut socket, capacity, (0, 1), u32::MAX),
            Ok(Answer::Ignored)
        );
        assert_eq!(rt;
            command(&mut socket, capacity, 0xffff_0001),
            Ok(Answer::Taken)
        );
        assert_eq!(rt;
            write(&mut socket, capacity, (0, 1), u32::MAX),
            Ok(Answer::Taken)
        );
        assert_eq!(rt; read(&socket, capacity, 0, 1), Ok(0x8000_0000 + kept));
    }
}

#[test]
fn an_active_socket_takes_shutdown_triggers_and_proceed_alone(rt: HostRuntime) {
    let capacity = capacity(&rt, 3, 8);
    for (state, status, outputs, proceeds, after) in [
        (0, 0, 2, Answer::Ignored, 0),
        (1, 256 + 1, 1, Answer::Ignored, 256 + 1),
        (2, 256 + 2, 4, Answer::Taken, 512 + 4),
        (4, 512 + 4, 2, Answer::Ignored, 512 + 4),
        (5, 512 + 5, 10, Answer::Taken, 512 + 6),
        (6, 512 + 6, 16, Answer::Ignored, 512 + 6),
        (7, 256 + 7, 0, Answer::Ignored, 256 + 7),
    ] {
        let led = socket_in(&rt, capacity, state);
        assert_eq!(rt; led.status(), status);
        assert_eq!(rt; led.outputs(), outputs);
        for (word, answer, status_after) in [
            (0, Answer::Taken, status),
            (1, Answer::Ignored, status),
            (2, Answer::Ignored, status),
            (0x0002_0102, Answer::Ignored, status),
            (3, proceeds, after),
            (0x1f04, Answer::Ignored, status),
        ] {
            let mut socket = led;
            assert_eq!(rt; command(&mut socket, capacity, word), Ok(answer));
            assert_eq!(rt; socket.status(), status_after);
        }
        let mut socket = led;
        assert_eq!(rt; command(&mut socket, capacity, 0), Ok(Answer::Taken));
        assert_eq!(rt; command(&mut socket, capacity, 0), Ok(Answer::Taken));
        for trigger in [5, 2] {
            assert_eq!(rt;
                write(&mut socket, capacity, (0, 1), trigger),
                Ok(Answer::Taken)
            );
            assert_eq!(rt; read(&socket, capacity, 0, 1), Ok(0x8000_0000 + trigger));
        }
        for (bank, select) in [(1, 0), (2, 2), (2, 3), (3, 4), (3, 5), (3, 6)] {
            let written = write(&mut socket, capacity, (bank, select), 0);
            assert_eq!(rt; written, Ok(Answer::Ignored));
            assert_eq!(rt; read(&socket, capacity, bank, select), Ok(0));
        }
        assert_eq!(rt;
            write(&mut socket, capacity, (3, 4), 1),
            Err(Refusal::BadWord)
        );
        assert_eq!(rt; command(&mut socket, capacity, 5), Err(Refusal::BadWord));
        assert_eq!(rt; socket.status(), status);
        assert_eq!(rt; socket.outputs(), outputs);
    }
}

// Led into shutdown: empty, full with module 1, or full with it after a bad row.
fn socket_out(rt: &impl Abort, capacity: Capacity, loaded: bool, bad_row: bool) -> Socket {
    let mut socket = socket_in(rt, capacity, if loaded { 7 } else { 0 });
    assert_eq!(rt; command(&mut socket, capacity, 0), Ok(Answer::Taken));
    socket.step(capacity);
    if bad_row {
        assert_eq!(rt; write(&mut socket, capacity, (3, 10), 6), Ok(Answer::Taken));
        assert_eq!(rt; command(&mut socket, capacity, 1), Ok(Answer::Taken));
        assert_eq!(rt; write(&mut socket, capacity, (0, 1), 2), Ok(Answer::Taken));
        socket.step(capacity);
    }
    socket
}

#[test]
fn a_socket_in_shutdown_takes_restarts_and_user_control(rt: HostRuntime) {
    let capacity = capacity(&rt, 3, 8);
    for (loaded, bad_row, status, restarted) in [
        (false, false, 128, 0),
        (true, false, 256 + 128, 256 + 7),
        (true, true, 256 + 128 + 8, 256 + 7),
        (false, true, 128 + 8, 0),
    ] {
        let led = socket_out(&rt, capacity, loaded, bad_row);
        let rest = if loaded { 0 } else { 2 };
        assert_eq!(rt; led.status(), status);
        assert_eq!(rt; led.outputs(), rest);
        for (word, answer, status_after, outputs) in [
            (0, Answer::Ignored, status, rest),
            (1, Answer::Taken, restarted, rest),
            (2, Answer::Taken, 0, 2),
            (0x0003_0002, Answer::Taken, 0, 2),
            (0x0002_0102, Answer::Taken, 512 + 7, 0),
            (0x0003_0102, Answer::Ignored, status, rest),
            (0x0102_0102, Answer::Ignored, status, rest),
            (3, Answer::Ignored, status, rest),
            (0x1504, Answer::Taken, status, 21),
            (0xffe4_ff04, Answer::Taken, status, 31),
        ] {
            let mut socket = led;
            assert_eq!(rt; command(&mut socket, capacity, word), Ok(answer));
            assert_eq!(rt; socket.status(), status_after);
            assert_eq!(rt; socket.outputs(), outputs);
        }
        let mut socket = led;
        assert_eq!(rt;
            write(&mut socket, capacity, (0, 1), 2),
            Ok(Answer::Ignored)
        );
        assert_eq!(rt; read(&socket, capacity, 0, 1), Ok(0));
        assert_eq!(rt; write(&mut socket, capacity, (3, 4), 0), Ok(Answer::Taken));
        assert_eq!(rt; command(&mut socket, capacity, 0x1504), Ok(Answer::Taken));
        socket.acknowledge(Level::High);
        socket.step(capacity);
        socket.reset();
        socket.finish_load();
        socket.fail_load(Error::Port);
        assert_eq!(rt; socket.status(), status + 1);
        assert_eq!(rt; socket.outputs(), 21);
        assert_eq!(rt; command(&mut socket, capacity, 1), Ok(Answer::Taken));
        assert_eq!(rt; socket.outputs(), rest);
    }
}

#[test]
fn the_stop_steps_are_those_of_the_kind(rt: HostRuntime) {
    let capacity = capacity(&rt, 3, 8);
    for (kind, states) in [
        (0, [4, 4, 4, 4]),
        (1, [1, 1, 4, 4]),
        (2, [1, 1, 2, 4]),
        (3, [2, 1, 4, 4]),
    ] {
        let mut socket = full_socket(&rt, capacity, kind);
        assert_eq!(rt; write(&mut socket, capacity, (0, 1), 2), Ok(Answer::Taken));
        socket.step(capacity);
        assert_eq!(rt; socket.status() % 8, states[0]);
        let _ = command(&mut socket, capacity, 3);
        assert_eq!(rt; socket.status() % 8, states[1]);
        socket.acknowledge(Level::High);
        socket.step(capacity);
        assert_eq!(rt; socket.status() % 8, states[2]);
        let _ = command(&mut socket, capacity, 3);
        assert_eq!(rt; socket.status() % 8, states[3]);
        assert!(rt; socket.is_waiting());
        assert_eq!(rt;
            socket.awaited_file(),
            Some(File {
                address: 32,
                size: 8
            })
        );
    }
}

#[test]
fn a_reset_of_duration_d_lasts_d_plus_1_steps(rt: HostRuntime) {
    let capacity = capacity(&rt, 3, 8);
    for (control, state) in [
        (0x08, 7),
        (0x10, 6),
        (0x18, 6),
        (0x14, 5),
        (0x04, 5),
        (0, 7),
    ] {
        let mut socket = full_socket(&rt, capacity, control);
        assert_eq!(rt; write(&mut socket, capacity, (0, 1), 2), Ok(Answer::Taken));
        socket.step(capacity);
        socket.finish_load();
        assert_eq!(rt; socket.status(), 512 + state);
    }
    for duration in [0, 1, 255] {
        let mut socket = full_socket(&rt, capacity, 0x10 + duration * 32);
        assert_eq!(rt; write(&mut socket, capacity, (0, 1), 2), Ok(Answer::Taken));
        socket.step(capacity);
        socket.finish_load();
        for _ in 0..duration + 1 {
            assert_eq!(rt; socket.status(), 512 + 6);
            socket.step(capacity);
        }
        assert_eq!(rt; socket.status(), 512 + 7);
    }
}

#[test]
fn a_bad_row_keeps_what_is_loaded(rt: HostRuntime) {
    let capacity = capacity(&rt, 3, 8);
    for ((bank, select), word) in [
        ((1, 2), 3),
        ((2, 4), 3),
        ((2, 4), 255),
        ((3, 10), 0),
        ((3, 10), 6),
        ((3, 9), 34),
    ] {
        let mut socket = socket_out(&rt, capacity, true, false);
        assert_eq!(rt;
            write(&mut socket, capacity, (bank, select), word),
            Ok(Answer::Taken)
        );
        assert_eq!(rt; command(&mut socket, capacity, 1), Ok(Answer::Taken));
        assert_eq!(rt; write(&mut socket, capacity, (0, 1), 2), Ok(Answer::Taken));
        assert_eq!(rt; socket.status(), 256 + 7);
        socket.step(capacity);
        assert_eq!(rt; socket.status(), 256 + 128 + 8);
        assert_eq!(rt; socket.outputs(), 0);
        assert_eq!(rt; read(&socket, capacity, 0, 1), Ok(0));
    }
    // at the making no row has a file
    let mut socket = Socket::new(capacity);
    assert_eq!(rt; command(&mut socket, capacity, 2), Ok(Answer::Taken));
    assert_eq!(rt; write(&mut socket, capacity, (0, 1), 0), Ok(Answer::Taken));
    socket.step(capacity);
    assert_eq!(rt; socket.status(), 128 + 8);
    assert_eq!(rt; socket.outputs(), 2);
}

#[test]
fn a_shutdown_waits_for_a_step_at_rest_and_goes_first(rt: HostRuntime) {
    let capacity = capacity(&rt, 3, 8);
    for (state, status, outputs) in [(0, 128, 2), (7, 256 + 128, 0)] {
        let mut socket = socket_in(&rt, capacity, state);
        let before = socket.status();
        assert_eq!(rt; write(&mut socket, capacity, (0, 1), 2), Ok(Answer::Taken));
        assert_eq!(rt; command(&mut socket, capacity, 0), Ok(Answer::Taken));
        assert_eq!(rt; socket.status(), before);
        socket.step(capacity);
        assert_eq!(rt; socket.status(), status);
        assert_eq!(rt; socket.outputs(), outputs);
        assert_eq!(rt; command(&mut socket, capacity, 1), Ok(Answer::Taken));
        socket.step(capacity);
        assert_eq!(rt; socket.status(), before);
    }
    // in the middle of a change it is held until the socket is full
    let mut socket = socket_in(&rt, capacity, 1);
    assert_eq!(rt; command(&mut socket, capacity, 0), Ok(Answer::Taken));
    socket.acknowledge(Level::High);
    socket.step(capacity);
    assert_eq!(rt; command(&mut socket, capacity, 3), Ok(Answer::Taken));
    socket.finish_load();
    assert_eq!(rt; command(&mut socket, capacity, 3), Ok(Answer::Taken));
    socket.step(capacity);
    socket.step(capacity);
    assert_eq!(rt; socket.status(), 512 + 7);
    socket.step(capacity);
    assert_eq!(rt; socket.status(), 512 + 128 + 1);
}

#[test]
fn a_failed_load_leaves_a_socket_empty_and_in_shutdown(rt: HostRuntime) {
    let capacity = capacity(&rt, 3, 8);
    for (error, status) in [
        (Error::BadRow, 128 + 8 + 1),
        (Error::Library, 128 + 16 + 1),
        (Error::Port, 128 + 24 + 1),
    ] {
        let mut socket = socket_in(&rt, capacity, 4);
        socket.fail_load(error);
        assert_eq!(rt; socket.status(), status);
        assert_eq!(rt; socket.outputs(), 2);
        socket.acknowledge(Level::Low);
        assert_eq!(rt; socket.status(), status - 1);
        assert_eq!(rt; command(&mut socket, capacity, 1), Ok(Answer::Taken));
        assert_eq!(rt; socket.status(), 0);
    }
    for state in [0, 1, 2, 5, 6, 7] {
        let mut socket = socket_in(&rt, capacity, state);
        let status = socket.status();
        assert!(rt; socket.is_active());
        assert!(rt; !socket.is_waiting());
        assert_eq!(rt; socket.awaited_file(), None);
        socket.fail_load(Error::Library);
        socket.finish_load();
        assert_eq!(rt; socket.status(), status);
    }
}

#[test]
fn a_reset_empties_a_load_and_starts_what_is_there(rt: HostRuntime) {
    let capacity = capacity(&rt, 3, 8);
    for (state, status) in [
        (0, 0),
        (1, 256 + 5),
        (2, 256 + 5),
        (4, 0),
        (5, 512 + 5),
        (6, 512 + 5),
        (7, 256 + 5),
    ] {
        let mut socket = socket_in(&rt, capacity, state);
        assert_eq!(rt; command(&mut socket, capacity, 0), Ok(Answer::Taken));
        assert_eq!(rt; write(&mut socket, capacity, (0, 1), 1), Ok(Answer::Taken));
        socket.reset();
        assert_eq!(rt; socket.status(), status);
        assert_eq!(rt; read(&socket, capacity, 0, 1), Ok(0));
        let _ = command(&mut socket, capacity, 3);
        for _ in 0..3 {
            socket.step(capacity);
        }
        assert!(rt; socket.is_active());
    }
}
