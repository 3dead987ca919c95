// Managers on tables of calls.
use library::{Cause, Fault, Image};
use manager::{Call, LoadCause, LoadFault, Manager, Refusal, Reply, Tick};
use port::{Plane, Port, Record, Tape};
use socket::Answer;

// Words 1 to 4.
const CARD: [u8; 16] = [0, 0, 0, 1, 0, 0, 0, 2, 0, 0, 0, 3, 0, 0, 0, 4];

#[test]
fn the_smallest_cabinet_loads_its_file(rt: HostRuntime) {
    let mut cells = [0; 16];
    let (mut manager, answer) = Manager::new(
        1,
        1,
        1,
        u32::MAX,
        Image::new(&CARD),
        Plane::new(&mut cells),
    );
    assert_eq!(rt; answer, Ok(()));
    assert_eq!(rt; manager.read(0, 0, 0), Ok(128));
    assert_eq!(rt; manager.outputs(0), Ok(2));
    assert_eq!(rt; manager.write(0, 3, 2, 8), Ok(Answer::Taken));
    assert_eq!(rt; manager.write(0, 0, 0, 1), Ok(Answer::Taken));
    assert_eq!(rt; manager.write(0, 3, 2, 4), Ok(Answer::Ignored));
    assert_eq!(rt; manager.write(0, 0, 1, 0), Ok(Answer::Taken));
    assert_eq!(rt; manager.tick(), Ok(Tick::Granted(0)));
    assert_eq!(rt; manager.outputs(0), Ok(2));
    assert_eq!(rt; manager.tick(), Ok(Tick::Word(0)));
    assert_eq!(rt; manager.tick(), Ok(Tick::Done(0)));
    assert_eq!(rt; manager.tick(), Ok(Tick::Idle));
    assert_eq!(rt; manager.read(0, 0, 0), Ok(7));
    assert_eq!(rt; manager.outputs(0), Ok(0));
    let (_library, plane) = manager.into_parts();
    assert_eq!(rt; plane.length(0), 2);
    assert_eq!(rt; plane.word(0, 0), Some(1));
    assert_eq!(rt; plane.word(0, 1), Some(2));
    assert_eq!(rt; plane.opened(), None);
}

#[test]
fn makings_are_refused_by_number(rt: HostRuntime) {
    let numbers = [
        (0, 1, 1, 1),
        (9, 1, 1, 1),
        (1, 0, 1, 1),
        (1, 17, 1, 1),
        (1, 1, 0, 1),
        (1, 1, 3, 1),
        (1, 1, 64, 1),
        (1, 1, 1, 0),
    ];
    for (sockets, modules, triggers, ceiling) in numbers {
        let mut cells = [0; 16];
        let image = Image::new(&CARD);
        let plane = Plane::new(&mut cells);
        let (mut manager, answer) = Manager::new(sockets, modules, triggers, ceiling, image, plane);
        assert_eq!(rt; answer, Err(Refusal::BadNumber));
        assert_eq!(rt; manager.tick(), Err(Refusal::CeilingReached));
        assert_eq!(rt; manager.read(0, 0, 0), Err(Refusal::NoSocket));
    }
}

#[test]
fn an_open_port_stays_open(rt: HostRuntime) {
    let mut cells = [0; 16];
    let mut plane = Plane::new(&mut cells);
    assert_eq!(rt; plane.open(5), Ok(()));
    let (mut manager, answer) = Manager::new(8, 16, 32, 9, Image::new(&CARD), plane);
    assert_eq!(rt; answer, Err(Refusal::BadPort));
    assert_eq!(rt; manager.reset(), None);
    let (_library, plane) = manager.into_parts();
    assert_eq!(rt; plane.opened(), Some(5));
}

#[test]
fn wrong_calls_are_refused_by_the_lowest_number(rt: HostRuntime) {
    let mut cells = [0; 16];
    let (mut manager, answer) = Manager::new(1, 2, 4, 1, Image::new(&CARD), Plane::new(&mut cells));
    assert_eq!(rt; answer, Ok(()));
    assert_eq!(rt; manager.write(1, 9, 9, 99), Err(Refusal::NoSocket));
    assert_eq!(rt; manager.read(u32::MAX, 0, 0), Err(Refusal::NoSocket));
    assert_eq!(rt; manager.acknowledge(1, 2), Err(Refusal::NoSocket));
    assert_eq!(rt; manager.outputs(1), Err(Refusal::NoSocket));
    for (bank, select) in [
        (0, 2),
        (1, 4),
        (2, 4),
        (3, 3),
        (3, 8),
        (4, 0),
        (u32::MAX, 0),
    ] {
        assert_eq!(rt;
            manager.write(0, bank, select, 99),
            Err(Refusal::NoRegister)
        );
        assert_eq!(rt; manager.read(0, bank, select), Err(Refusal::NoRegister));
    }
    assert_eq!(rt; manager.write(0, 0, 0, 5), Err(Refusal::BadWord));
    assert_eq!(rt; manager.write(0, 3, 4, 1), Err(Refusal::BadWord));
    assert_eq!(rt; manager.acknowledge(0, 2), Err(Refusal::BadLevel));
    assert_eq!(rt; manager.tick(), Ok(Tick::Idle));
    assert_eq!(rt; manager.tick(), Err(Refusal::CeilingReached));
    assert_eq!(rt; manager.reset(), None);
    assert_eq!(rt; manager.tick(), Err(Refusal::CeilingReached));
}

#[test]
fn faults_tell_the_words_moved(rt: HostRuntime) {
    let mut cells = [0; 24];
    let mut manager = Manager::new(1, 1, 1, 99, Image::new(&CARD), Plane::new(&mut cells)).0;
    // a file of three words, of which the last is beyond the end
    assert_eq!(rt; manager.write(0, 3, 1, 8), Ok(Answer::Taken));
    assert_eq!(rt; manager.write(0, 3, 2, 12), Ok(Answer::Taken));
    assert_eq!(rt; manager.write(0, 0, 0, 1), Ok(Answer::Taken));
    assert_eq!(rt; manager.write(0, 0, 1, 0), Ok(Answer::Taken));
    assert_eq!(rt; manager.tick(), Ok(Tick::Granted(0)));
    assert_eq!(rt; manager.tick(), Ok(Tick::Word(0)));
    assert_eq!(rt; manager.tick(), Ok(Tick::Word(0)));
    let fault = Fault {
        layer: 0,
        cause: Cause::BeyondEnd,
        place: 4,
    };
    let told = LoadFault {
        moved: 2,
        cause: LoadCause::Library(fault),
    };
    assert_eq!(rt; manager.tick(), Ok(Tick::Fault(0, told)));
    assert_eq!(rt; manager.read(0, 0, 0), Ok(144));
    assert_eq!(rt; manager.outputs(0), Ok(2));
    let (_library, plane) = manager.into_parts();
    assert_eq!(rt; plane.opened(), None);
    assert_eq!(rt; plane.length(0), 2);
}

#[test]
fn a_full_partition_is_a_fault_of_the_port(rt: HostRuntime) {
    let mut cells = [0; 8];
    let mut manager = Manager::new(1, 1, 1, 99, Image::new(&CARD), Plane::new(&mut cells)).0;
    assert_eq!(rt; manager.write(0, 3, 2, 8), Ok(Answer::Taken));
    assert_eq!(rt; manager.write(0, 0, 0, 1), Ok(Answer::Taken));
    assert_eq!(rt; manager.write(0, 0, 1, 0), Ok(Answer::Taken));
    assert_eq!(rt; manager.tick(), Ok(Tick::Granted(0)));
    assert_eq!(rt; manager.tick(), Ok(Tick::Word(0)));
    let told = LoadFault {
        moved: 1,
        cause: LoadCause::Port,
    };
    assert_eq!(rt; manager.tick(), Ok(Tick::Fault(0, told)));
    assert_eq!(rt; manager.read(0, 0, 0), Ok(152));
}

#[test]
fn a_spent_tape_bars_a_socket(rt: HostRuntime) {
    let mut records: [Record; 0] = [];
    let mut manager = Manager::new(1, 1, 1, 99, Image::new(&CARD), Tape::new(&mut records)).0;
    assert_eq!(rt; manager.write(0, 3, 2, 8), Ok(Answer::Taken));
    // full with module 0
    assert_eq!(rt; manager.write(0, 0, 0, 0x102), Ok(Answer::Taken));
    assert_eq!(rt; manager.read(0, 0, 0), Ok(7));
    assert_eq!(rt; manager.write(0, 0, 1, 0), Ok(Answer::Taken));
    assert_eq!(rt; manager.tick(), Ok(Tick::Barred(0)));
    assert_eq!(rt; manager.read(0, 0, 0), Ok(152));
    assert_eq!(rt; manager.tick(), Ok(Tick::Idle));
}

#[test]
fn sockets_have_the_port_in_a_circle(rt: HostRuntime) {
    let mut cells = [0; 64];
    let mut manager = Manager::new(3, 1, 1, 99, Image::new(&CARD), Plane::new(&mut cells)).0;
    for s in [2, 0, 1] {
        assert_eq!(rt; manager.write(s, 3, 2, 4), Ok(Answer::Taken));
        assert_eq!(rt; manager.write(s, 0, 0, 1), Ok(Answer::Taken));
        assert_eq!(rt; manager.write(s, 0, 1, 0), Ok(Answer::Taken));
    }
    for s in [0, 1, 2] {
        assert_eq!(rt; manager.tick(), Ok(Tick::Granted(s)));
        assert_eq!(rt; manager.tick(), Ok(Tick::Done(s)));
    }
    assert_eq!(rt; manager.tick(), Ok(Tick::Idle));
}

#[test]
fn the_old_module_is_stopped_before_the_grant(rt: HostRuntime) {
    let mut cells = [0; 64];
    let mut manager = Manager::new(2, 2, 2, 99, Image::new(&CARD), Plane::new(&mut cells)).0;
    // module 0 wants a hardware stop, and row 1 has a file
    assert_eq!(rt; manager.write(1, 2, 1, 1), Ok(Answer::Taken));
    assert_eq!(rt; manager.write(1, 3, 6, 4), Ok(Answer::Taken));
    assert_eq!(rt; manager.write(1, 0, 0, 0x102), Ok(Answer::Taken));
    assert_eq!(rt; manager.write(1, 0, 1, 1), Ok(Answer::Taken));
    assert_eq!(rt; manager.tick(), Ok(Tick::Idle));
    assert_eq!(rt; manager.read(1, 0, 0), Ok(1));
    assert_eq!(rt; manager.outputs(1), Ok(1));
    assert_eq!(rt; manager.tick(), Ok(Tick::Idle));
    assert_eq!(rt; manager.acknowledge(1, 1), Ok(()));
    assert_eq!(rt; manager.tick(), Ok(Tick::Granted(1)));
    assert_eq!(rt; manager.read(1, 0, 0), Ok(260));
    assert_eq!(rt; manager.outputs(1), Ok(2));
    assert_eq!(rt; manager.tick(), Ok(Tick::Done(1)));
    assert_eq!(rt; manager.read(1, 0, 0), Ok(263));
}

#[test]
fn a_reset_takes_the_grant_back(rt: HostRuntime) {
    let mut cells = [0; 64];
    let mut manager = Manager::new(2, 1, 1, 99, Image::new(&CARD), Plane::new(&mut cells)).0;
    assert_eq!(rt; manager.write(1, 3, 2, 16), Ok(Answer::Taken));
    assert_eq!(rt; manager.write(1, 0, 0, 1), Ok(Answer::Taken));
    assert_eq!(rt; manager.write(1, 0, 1, 0), Ok(Answer::Taken));
    assert_eq!(rt; manager.tick(), Ok(Tick::Granted(1)));
    assert_eq!(rt; manager.tick(), Ok(Tick::Word(1)));
    assert_eq!(rt; manager.reset(), Some(1));
    assert_eq!(rt; manager.read(1, 0, 0), Ok(0));
    assert_eq!(rt; manager.tick(), Ok(Tick::Idle));
    assert_eq!(rt; manager.reset(), None);
    let (_library, plane) = manager.into_parts();
    assert_eq!(rt; plane.opened(), None);
    assert_eq!(rt; plane.word(1, 0), Some(1));
    assert_eq!(rt; plane.length(1), 1);
}

#[test]
fn calls_are_made_by_value(rt: HostRuntime) {
    let mut cells = [0; 16];
    let mut manager = Manager::new(1, 1, 1, 99, Image::new(&CARD), Plane::new(&mut cells)).0;
    let calls = [
        (
            Call::Write {
                socket: 0,
                bank: 0,
                select: 0,
                word: 1,
            },
            Ok(Reply::Written(Answer::Taken)),
        ),
        (
            Call::Read {
                socket: 0,
                bank: 0,
                select: 0,
            },
            Ok(Reply::Read(0)),
        ),
        (
            Call::Acknowledge {
                socket: 0,
                level: 1,
            },
            Ok(Reply::Acknowledged),
        ),
        (Call::Outputs { socket: 0 }, Ok(Reply::Outputs(2))),
        (Call::Outputs { socket: 1 }, Err(Refusal::NoSocket)),
        (Call::Tick, Ok(Reply::Ticked(Tick::Idle))),
        (Call::Reset, Ok(Reply::Reset(None))),
    ];
    for (call, reply) in calls {
        assert_eq!(rt; manager.call(call), reply);
    }
}

#[test]
fn answers_and_refusals_have_their_numbers(rt: HostRuntime) {
    let told = LoadFault {
        moved: 3,
        cause: LoadCause::Port,
    };
    let ticks = [
        (Tick::Idle, 0, 0),
        (Tick::Granted(7), 1, 7),
        (Tick::Word(1), 2, 1),
        (Tick::Done(2), 3, 2),
        (Tick::Fault(3, told), 4, 3),
        (Tick::Barred(4), 5, 4),
    ];
    for (tick, number, socket) in ticks {
        assert_eq!(rt; tick.number(), number);
        assert_eq!(rt; tick.socket(), socket);
    }
    let refusals = [
        (Refusal::BadNumber, 1),
        (Refusal::BadPort, 2),
        (Refusal::NoSocket, 3),
        (Refusal::NoRegister, 4),
        (Refusal::BadWord, 5),
        (Refusal::CeilingReached, 6),
        (Refusal::BadLevel, 7),
    ];
    for (refusal, number) in refusals {
        assert_eq!(rt; refusal.number(), number);
    }
}
