// The bytes that a script and its answers are made of: hexadecimal digits, and the page that answers are printed on
// (document 01, "Console program"; specs/Text.antt). Every function that prints has one contract, `Wrote`: the page after it is the page
// before it with its text written on (specs/Written.antt). A full page takes nothing more, so none asks how much room is left.
#![tactic(auto)]

ghost use Rattle.std.specs.Prelude.{◌≡◌, ◌/◌, ◌%◌, ◌^◌, ◌<◌, ◌≤◌, [], ◌∷◌, IfSome};
ghost use Rattle.std.specs.Bool.{then_some};
ghost use Rattle.text.specs.Text.{is_digit_of, digit_of, hex_digit, hex};

// ---- digits read

// [Console.3]
pub fn is_digit(b: u8) -> bool
    ensures { result ≡ is_digit_of b }
{
    digit_value(b).is_some()
}

// 0 for a byte that is no digit
#[tactic(auto, unfolding(crate::specs::Text::is_digit_of, crate::specs::Text::digit_of))]
pub fn digit(b: u8) -> u32
    ensures value { result ≡ digit_of b }
    ensures upper_bound { result < 16 }
{
    digit_value(b).unwrap_or(0)
}

// [Console.3] the value of a digit, if the byte is one. The second clause is what a number of such digits asks: that it fits.
#[tactic(auto, unfolding(crate::specs::Text::is_digit_of, crate::specs::Text::digit_of))]
pub fn digit_value(b: u8) -> Option<u32>
    ensures value { result ≡ then_some (is_digit_of b) (digit_of b) }
    ensures upper_bound { IfSome result (λ d. d < 16) }
{
    match b {
        b'0'..=b'9' => Some((b - b'0') as u32),
        b'A'..=b'F' => Some((b - b'A') as u32 + 10),
        _ => None,
    }
}

// ---- digits printed

fn hex_digit(d: u8) -> u8
    requires { d ≤ 15 }
    ensures { result ≡ hex_digit d }
{
    if d < 10 { b'0' + d } else { b'A' + (d - 10) }
}

// Digit i of a word, counted from the low end, printed.
#[tactic(auto, using(crate::proofs::PageLaws::power_of_digits))]
fn digit_byte(v: u32, i: u32) -> u8
    requires { i ≤ 7 }
    ensures { result ≡ hex_digit (v / 16 ^ i % 16) }
{
    hex_digit(((v >> (4 * i)) % 16) as u8)
}

// How many hexadecimal digits a word is written in; a word has no more than eight.
#[derive(Clone, Copy)]
pub struct Digits {
    pub count: u32,
    ghost bound: { count ≤ 8 },
}

// ---- the page

// The buffer that answers are printed in, and the place after what is printed so far.
#[derive(Drop)]
pub struct Page<'a> {
    out: &'a mut [u8],
    at: usize,
}

impl<'a> Page<'a> {
    ghost use Rattle.text.specs.Page.{page};
    ghost use Rattle.text.specs.Written.{Wrote};

    pub fn new(out: &'a mut [u8]) -> Page<'a>
        ensures same_buffer { result.out.ghost_name ≡ out.entry.ghost_name }
        ensures at_start { page result.out.now result.at ≡ page out.old 0 }
    {
        Page::starting_at(out, 0)
    }

    // Printing goes on at any place of the buffer.
    pub fn starting_at(out: &'a mut [u8], at: usize) -> Page<'a>
        ensures same_buffer { result.out.ghost_name ≡ out.entry.ghost_name }
        ensures at_place { page result.out.now result.at ≡ page out.old at }
    {
        Page { out, at }
    }

    // How many bytes are printed.
    pub fn len(&self) -> usize
        ensures { result ≡ self.now.at }
    {
        self.at
    }

    // One byte.
    #[tactic(auto, unfolding(crate::specs::Page::write, crate::specs::Page::write_byte))]
    pub fn put(&mut self, b: u8)
        ensures { Wrote (b ∷ []) self.old self.new }
    {
        if self.at < self.out.len() {
            self.out[self.at] = b;
            self.at += 1;
        }
    }

    #[tactic(auto, using(crate::proofs::PageLaws::write_next), unfolding(crate::specs::Page::write))]
    pub fn put_all(&mut self, text: &[u8])
        ensures { Wrote text.now self.old self.new }
    {
        for b in text {
            self.put(*b);
        }
    }

    // [Console.7] [Console.8] so many digits of a word, the highest first
    #[tactic(auto, using(crate::proofs::PageLaws::write_hex), unfolding(crate::specs::Page::write, crate::specs::Text::hex))]
    pub fn put_hex(&mut self, digits: Digits, v: u32)
        ensures { Wrote (hex digits.count v) self.old self.new }
    {
        for i in (0..digits.count).rev() {
            self.put(digit_byte(v, i));
        }
    }
}
