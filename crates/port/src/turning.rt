// The eight bits of each byte of a word in reverse.
ghost use Rattle.std.specs.Prelude.{◌≡◌};
ghost use Rattle.port.specs.Turn.{turned_word};

// Each byte of `word` with its eight bits in reverse: all bits are reversed, and the bytes put back in their order.
pub fn turn(word: u32) -> u32
    ensures value { result ≡ turned_word word }
    ensures twice { turned_word result ≡ word }
{
    word.reverse_bits().swap_bytes()
}
