// A filled memory for customers who bring none (document 02, N7): the shipped words, which words the generator takes, and the
// word at every place. The definitions are in specs/; crate `calls` has the call that fills, with its declines.
#![tactic(auto)]

ghost use Rattle.std.specs.Prelude.{◌≡◌, ◌<◌, length};
ghost use Rattle.std.specs.List.{list_all};
ghost use Rattle.table.specs.Shipped.{shipped_words};
ghost use Rattle.table.specs.Table.{is_taken_word, are_taken, over_of, table_word_of, table_of};

// [Tick.1] a word for each
pub const INPUTS: usize = 12;

// [Table.2a] [Table.2b] [Table.2c] [Table.2d] [Table.3] one for each input
pub const SHIPPED: [u16; 12] = [
    0x0119, 0x0229, 0x0439, 0x0849, 0x1055, 0x2065, 0x4075, 0x8085, 0x0193, 0x02A3, 0x04B3, 0x08C3,
];

// [Memory.2] bits 8–15, the accept pattern
const ACCEPT: u16 = 0xFF00;

// The constant, for a caller that goes by its contract.
pub fn shipped_words() -> [u16; 12]
    ensures { result ≡ shipped_words }
{
    SHIPPED
}

// [Table.8b] level 1 OK, and exactly one class
fn is_taken_word(word: u16) -> bool
    ensures { result ≡ is_taken_word word }
{
    let w = word as u32;
    let classes = bits::one_if(bits::bit_at(w, 1))
        + bits::one_if(bits::bit_at(w, 2))
        + bits::one_if(bits::bit_at(w, 3));
    bits::bit_at(w, 0) & (classes == 1)
}

fn all_taken(words: &[u16]) -> bool
    ensures { result ≡ list_all is_taken_word words.now }
{
    words.iter().all(|word| is_taken_word(*word))
}

// [Table.8b] all twelve
pub fn are_taken(words: [u16; 12]) -> bool
    ensures { result ≡ are_taken words }
{
    all_taken(&words)
}

// An input's word over what the inputs above it have made: bits 0–7 are its own, the accept bits are those of both. The second
// clause is what a loop over such words asks.
fn over(word: u16, rest: u16) -> u16
    ensures value { result ≡ over_of word rest }
    ensures upper_bound { result < 65536 }
{
    word | (rest & ACCEPT)
}

// [Table.5] [Table.6a] from input 12 down to 1, so that bits 0–7 are the lowest input's in the end
fn word_at(words: [u16; 12], place: usize) -> u16
    ensures { result ≡ table_word_of words place }
{
    let mut word: u16 = 0;
    for i in (0..INPUTS).rev() {
        if (place >> i) % 2 == 1 {
            word = over(words[i], word);
        }
    }
    word
}

// [Table.4] every place of what is lent
pub fn fill(memory: &mut [u16], words: [u16; 12])
    ensures { memory.new ≡ table_of (length memory.old) words }
{
    for place in 0..memory.len() {
        memory[place] = word_at(words, place);
    }
}
