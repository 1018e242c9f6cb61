// Texts written into a lent buffer, one after another: a word of a table, a number of a base, a byte. What does not fit is lost.

#![tactic(auto)]

ghost use Rattle.std.specs.Prelude.{◌≡◌, ◌≤◌, [], ◌∷◌, drop};
ghost use Rattle.hex_text.specs.Digits.{character_of};
ghost use Rattle.hex_text.specs.Bytes.{hex_of};
ghost use Rattle.formats.specs.Words.{words, word_at};
ghost use Rattle.formats.specs.Numerals.{digits_of};
ghost use Rattle.formats.specs.Numbers.{radix_of};
ghost use Rattle.format_writers.specs.Pages.{Writes};

use formats::Base;

// A lent buffer, and the place in it where the next text is written.
#[derive(Drop)]
pub struct Page<'a> {
    pub out: &'a mut [u8],
    pub at: usize,
}

// The first word of a table; empty if it has none.
#[tactic(auto, using(crate::proofs::StartLaws::first_inside, crate::proofs::StartLaws::first_taken))]
fn first_word(table: &[u8]) -> &[u8]
    ensures { result.now ≡ word_at (words table.now) 0 }
{
    &table[..formats::word_end(table, 0)]
}

// What follows the first `count` characters of a text.
fn behind(text: &[u8], count: usize) -> &[u8]
    ensures { result.now ≡ drop count text.now }
{
    text.get(count..).unwrap_or(&[])
}

// The table without its first word.
#[tactic(auto, using(crate::proofs::StartLaws::later_are))]
fn later_words(table: &[u8]) -> &[u8]
    ensures { words result.now ≡ drop 1 (words table.now) }
{
    let end = formats::word_end(table, 0);
    behind(behind(table, end), 1)
}

// Word `index` of a table; empty if it has no such word.
#[tactic(auto, using(crate::proofs::StartLaws::no_word, crate::proofs::StartLaws::word_later))]
fn word(table: &[u8], index: u64) -> &[u8]
    ensures { result.now ≡ word_at (words table.now) index }
{
    let mut rest = table;
    for _before in 0..index {
        if rest.is_empty() {
            return rest;
        }
        rest = later_words(rest);
    }
    first_word(rest)
}

impl Page<'_> {
    fn text(&mut self, text: &[u8])
        ensures { Writes self.old self.new text.now }
    {
        let from = self.at.min(self.out.len());
        let count = (self.out.len() - from).min(text.len());
        self.out[from..from + count].copy_from_slice(&text[..count]);
        self.at = from + count;
    }

    fn character(&mut self, character: u8)
        ensures { Writes self.old self.new (character ∷ []) }
    {
        if self.at < self.out.len() {
            self.out[self.at] = character;
            self.at += 1;
        } else {
            self.at = self.out.len();
        }
    }

    // Word `index` of the table.
    pub fn word(&mut self, table: &[u8], index: u64)
        ensures { Writes self.old self.new (word_at (words table.now) index) }
    {
        self.text(word(table, index));
    }

    fn digit(&mut self, d: u8)
        ensures { Writes self.old self.new (character_of d ∷ []) }
    {
        self.character(hex_text::character(d));
    }

    // `as`, proved to keep the number: a `try_from` would have an Err that no value reaches.
    fn digits(&mut self, base: u64, n: u64)
        requires { (2 ≤ base) × (base ≤ 16) }
        ensures { Writes self.old self.new (digits_of base n) }
    {
        if n < base {
            self.digit(n as u8);
        } else {
            self.digits(base, n / base);
            self.digit((n % base) as u8);
        }
    }

    pub fn number(&mut self, base: Base, n: u64)
        ensures { Writes self.old self.new (digits_of (radix_of base) n) }
    {
        self.digits(formats::radix(base), n);
    }

    // A byte's two hex digits.
    pub fn byte(&mut self, byte: u8)
        ensures { Writes self.old self.new (hex_of (byte ∷ [])) }
    {
        self.digit(byte / 16);
        self.digit(byte % 16);
    }
}
