// What libraries and ports hold, printed.
use library::Library;
use port::Port;

// Prints the words of the file, from the first, until one is not given, and returns them.
pub(crate) fn read_file<L: Library>(rt: &HostRuntime, library: &mut L) -> anyhow::Result<Vec<u32>> {
    let mut words = Vec::new(rt.alloc());
    for place in 0..16 {
        match library.ask(place) {
            Ok(word) => {
                println!(rt; "  place {place:>2}: {word:08x}")?;
                words.push(word)?;
            }
            Err(fault) => {
                println!(rt; "  place {place:>2}: no word; fault: {fault}")?;
                return Ok(words);
            }
        }
    }
    println!(rt; "  the whole file was read")?;
    Ok(words)
}

// Prints the list of partition `s`, eight words to a line.
pub(crate) fn show_list<P: Port>(rt: &HostRuntime, port: &P, s: u32) -> anyhow::Result<()> {
    // By index, since a port is asked for one word at a time.
    for index in 0..port.length(s) {
        if let Some(word) = port.word(s, index) {
            print!(rt; " {word:08x}")?;
        }
        if index % 8 == 7 {
            println!(rt; "")?;
        }
    }
    if port.length(s) % 8 != 0 {
        println!(rt; "")?;
    }
    Ok(())
}
