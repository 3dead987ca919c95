// A socket led from one module to another by hand.
use anyhow::{Context, anyhow};
use socket::{
    Answer, Capacity, Command, Level, ModuleControl, Register, ResetCode, Socket, StopKind, Write,
};

// Writes a word as a master of the registers does.
fn write(
    socket: &mut Socket,
    capacity: Capacity,
    bank: u32,
    select: u32,
    word: u32,
) -> anyhow::Result<()> {
    let register = Register::at(bank, select, capacity)
        .ok()
        .context("there is no such register")?;
    let write = Write::new(register, word, capacity)
        .ok()
        .context("the register takes no such word")?;
    match socket.write(write, capacity) {
        Answer::Taken => Ok(()),
        Answer::Ignored => Err(anyhow!("the socket ignored a write")),
    }
}

fn show(rt: &HostRuntime, socket: &Socket, event: &str) -> anyhow::Result<()> {
    let status = socket.status();
    let outputs = socket.outputs();
    println!(rt; "  status {status:08x}, outputs {outputs:05b}: {event}")?;
    Ok(())
}

// Two modules of files of 64 bytes, one of which asks for stop steps and the other for start steps.
fn set_up(socket: &mut Socket, capacity: Capacity) -> anyhow::Result<()> {
    let stopped = ModuleControl {
        stop: StopKind::HardwareThenSoftware,
        ..ModuleControl::PLAIN
    };
    let started = ModuleControl {
        start: true,
        reset: ResetCode::ActiveHigh,
        duration: 1,
        ..ModuleControl::PLAIN
    };
    write(socket, capacity, 2, 1, stopped.word())?;
    write(socket, capacity, 2, 3, started.word())?;
    write(socket, capacity, 3, 2, 64)?;
    write(socket, capacity, 3, 5, 64)?;
    write(socket, capacity, 3, 6, 64)
}

fn command(socket: &mut Socket, capacity: Capacity, command: Command) -> anyhow::Result<()> {
    write(socket, capacity, 0, 0, command.word())
}

fn stop_old(rt: &HostRuntime, socket: &mut Socket, capacity: Capacity) -> anyhow::Result<()> {
    write(socket, capacity, 0, 1, 1)?;
    show(rt, socket, "trigger 1 is pending")?;
    socket.step(capacity);
    show(rt, socket, "it was taken up: hardware stop")?;
    socket.acknowledge(Level::High);
    socket.step(capacity);
    show(rt, socket, "the tray acknowledged it: software stop")?;
    command(socket, capacity, Command::Proceed)?;
    show(rt, socket, "proceeded: uncoupled, and waiting for module 1")?;
    if let Some(file) = socket.awaited_file() {
        let address = file.address;
        let size = file.size;
        println!(rt; "  the file has {size} bytes from byte {address} on")?;
    }
    Ok(())
}

fn start_new(rt: &HostRuntime, socket: &mut Socket, capacity: Capacity) -> anyhow::Result<()> {
    socket.acknowledge(Level::Low);
    socket.finish_load();
    show(rt, socket, "loaded: software start")?;
    command(socket, capacity, Command::Proceed)?;
    show(rt, socket, "proceeded: module reset")?;
    for _ in 0..2 {
        socket.step(capacity);
        show(rt, socket, "a tick later")?;
    }
    command(socket, capacity, Command::Shutdown)?;
    show(rt, socket, "shutdown is held until the next tick")?;
    socket.step(capacity);
    show(rt, socket, "in shutdown, with module 1")
}

// Leads a socket from module 0 to module 1, and prints what it shows after each call.
pub(crate) fn walk(rt: &HostRuntime) -> anyhow::Result<()> {
    let capacity = Capacity::new(2, 2).context("there is no such socket")?;
    let mut socket = Socket::new(capacity);
    println!(rt;
        "Made a socket of 2 modules and 2 triggers, and led it from module 0 to module 1:"
    )?;
    show(rt, &socket, "made, empty and in shutdown")?;
    set_up(&mut socket, capacity)?;
    command(&mut socket, capacity, Command::RestartWithStatus(Some(0)))?;
    show(rt, &socket, "restarted, full with module 0")?;
    stop_old(rt, &mut socket, capacity)?;
    start_new(rt, &mut socket, capacity)
}
