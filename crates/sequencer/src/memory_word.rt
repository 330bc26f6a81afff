// A word of the lent memory (document 01, "Registers", Memory). The definitions are in specs/MemoryWord.antt.
ghost use Rattle.std.specs.Prelude.{◌≡◌};
ghost use Rattle.sequencer.specs.MemoryWord.{is_ok_word, class_in_of, code_in, accept_in};

// [Memory.2] [Memory.3] level 1 OK, with a class
pub fn is_ok_word(word: u16) -> bool
    ensures { result ≡ is_ok_word word }
{
    (word / 1 % 2 == 1) & ((word / 2 % 2 == 1) | ((word / 4 % 2 == 1) | (word / 8 % 2 == 1)))
}

// [Memory.3] the lowest class bit, 0 where there is none
pub fn class_in(word: u16) -> u8
    ensures { result ≡ class_in_of word }
{
    if word / 2 % 2 == 1 {
        return 1;
    }
    if word / 4 % 2 == 1 {
        return 2;
    }
    if word / 8 % 2 == 1 {
        return 3;
    }
    0
}

// [Memory.2]
pub fn code_in(word: u16) -> u8
    ensures { result ≡ code_in word }
{
    (word / 16 % 16) as u8
}

pub fn accept_in(word: u16) -> u8
    ensures { result ≡ accept_in word }
{
    (word / 256 % 256) as u8
}
