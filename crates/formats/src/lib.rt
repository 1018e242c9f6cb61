// Texts read: a word of a table, and a number of a base and a range.

#![tactic(auto)]

ghost use Rattle.std.specs.Prelude.{◌≡◌, ◌+◌, ◌*◌, ◌≤◌, ◌<◌, ◌==◌, length, drop, position};
ghost use Rattle.formats.specs.Words.{words, one_of};
ghost use Rattle.formats.specs.Numbers.{number, radix_of};
ghost use Rattle.formats.specs.Format.{got};
ghost use Rattle.formats.specs.Told.{told, ended_by};
ghost use Rattle.formats.specs.Mirror.Scan.{common, word_of, in_word, alike_at, better};
ghost use Rattle.formats.specs.Mirror.Digits.{value_of, goes_on, more_digits, begins};

// A position in a text; it may lie past the end.
// The text stands beside it: a cursor is a position, handed on by value. Not `reader::Cursor`, which reads kernels and refuses with a `Refusal`.
#[derive(Clone, Copy)]
pub struct Cursor {
    pub at: usize,
}

// Where reading stops: the position of the first character with which no such text goes on.
#[derive(Clone, Copy)]
pub struct Stop {
    pub at: usize,
}

#[derive(Clone, Copy)]
pub enum Base {
    Decimal,
    Hexadecimal,
}

// The longest start of a text that a word so far has too; whether a word is just that, and which. The number stands beside the flag, and not in an
// Option, since the definitions `better` and `scan` (specs/Mirror/Scan.antt) speak of both.
#[derive(Clone, Copy)]
struct Best {
    reach: usize,
    full: bool,
    word: u64,
}

// Whether the table has a character of a word at `j`.
#[tactic(auto, unfolding(crate::specs::Mirror::Scan::in_word))]
pub fn in_word(table: &[u8], j: usize) -> bool
    ensures { result ≡ in_word table.now j }
{
    j < table.len() && table[j] != b'|'
}

// The place of the first bar of a text.
fn first_bar(text: &[u8]) -> Option<usize>
    ensures { result ≡ position (λ c. c == 124) text.now }
{
    text.iter().position(|character| *character == b'|')
}

// How long the first word of a table is.
fn word_length(table: &[u8]) -> usize
    ensures { result ≡ length (word_of table.now) }
{
    first_bar(table).unwrap_or(table.len())
}

// Where the word ends that has a character at `from`, or ends there.
#[tactic(auto, using(crate::proofs::ScanLaws::words_inside))]
pub fn word_end(table: &[u8], from: usize) -> usize
    ensures { result ≡ from + length (word_of (drop from table.now)) }
{
    match table.get(from..) {
        Some(rest) => from + word_length(rest),
        None => from,
    }
}

// Whether the text has at `i` the character that a word has at `j`.
#[tactic(auto, using(crate::proofs::ScanLaws::letter_turns), unfolding(crate::specs::Mirror::Scan::alike_at))]
fn alike(text: &[u8], i: usize, table: &[u8], j: usize) -> bool
    ensures { result ≡ alike_at text.now i table.now j }
{
    in_word(table, j) && i < text.len() && text[i] == table[j]
}

// How many characters the text from `at` on has in common with the word from `from` on. By two places: over a chain (`zip`, `take_while`, `count`)
// the proof didn't close.
#[tactic(auto, using(crate::proofs::ScanLaws::alike_turns))]
fn agreement(text: &[u8], at: usize, table: &[u8], from: usize) -> usize
    ensures { result ≡ common (drop at text.now) (word_of (drop from table.now)) }
{
    let mut i = at;
    let mut j = from;
    while alike(text, i, table, j) {
        i += 1;
        j += 1;
    }
    i - at
}

// With the next word, of which the text has `n` characters; of two that are just the longest start the first stays.
#[tactic(auto, unfolding(crate::specs::Mirror::Scan::better))]
fn with_word(best: Best, n: usize, full: bool, word: u64) -> Best
    ensures { result ≡ better best n full word }
{
    if best.reach < n || best.reach == n && full && !best.full {
        Best {
            reach: n,
            full,
            word,
        }
    } else {
        best
    }
}

impl Cursor {
    // One word of a table; its number is how many words stand before it.
    // A number and no enum: the table is the caller's, and `one_of` of specs/ tells which word by how many stand before it.
    #[tactic(auto, using(crate::proofs::ScanLaws::word_turns))]
    pub fn one_of(self, text: &[u8], table: &[u8]) -> Result<(u64, Cursor), Stop>
        ensures { told result ≡ (one_of (words table.now)).read text.now self.at }
    {
        let at = self.at;
        let mut best = Best {
            reach: 0,
            full: false,
            word: 0,
        };
        let mut from = 0;
        let mut word = 0u64;
        // from word to word: a step is as long as the word, which is searched for in the turn
        while from < table.len() {
            let n = agreement(text, at, table, from);
            let end = word_end(table, from + n);
            best = with_word(best, n, end == from + n, word);
            from = end + 1;
            word += 1;
        }
        let end = at + best.reach;
        if best.full {
            Ok((best.word, Cursor { at: end }))
        } else {
            Err(Stop { at: end })
        }
    }

    // A number from `low` to `high` without leading zeros; `low` is 0 or 1.
    #[tactic(auto, using(crate::proofs::DigitLaws::number_cases))]
    pub fn number(self, text: &[u8], base: Base, low: u64, high: u64) -> Result<(u64, Cursor), Stop>
        ensures { told result ≡ (number (radix_of base) low high).read text.now self.at }
    {
        let at = self.at;
        let radix = radix(base);
        if at >= text.len() {
            return Err(Stop { at });
        }
        let digit = value(text[at]);
        if !starts(radix, low, high, digit) {
            return Err(Stop { at });
        }
        if digit == 0 {
            return Ok((0, Cursor { at: at + 1 }));
        }
        Ok(more_digits(text, at + 1, radix, high, digit))
    }
}

// What was read, with the word of a table that ends it.
pub fn ended<T: Copy>(
    read: Result<(T, Cursor), Stop>,
    text: &[u8],
    end: &[u8],
) -> Result<(T, Cursor), Stop>
    ensures { told result ≡ ended_by (told read) text.now end.now }
{
    let (value, cursor) = read?;
    let (_, cursor) = cursor.one_of(text, end)?;
    Ok((value, cursor))
}

pub fn radix(base: Base) -> u64
    ensures { result ≡ radix_of base }
{
    match base {
        Base::Decimal => 10,
        Base::Hexadecimal => 16,
    }
}

// The value of a digit; 16 for any other character.
// 16 and no Option, as in `value_of`: no base has such a digit.
#[tactic(auto, unfolding(crate::specs::Mirror::Digits::value_of, hex_text::specs::Digits::is_decimal, hex_text::specs::Digits::is_letter))]
fn value(character: u8) -> u64
    ensures { result ≡ value_of character }
{
    match character {
        b'0'..=b'9' => u64::from(character - b'0'),
        b'a'..=b'f' => u64::from(character - b'a' + 10),
        _ => 16,
    }
}

// Whether the digit `d` begins a number from `low` to `high`.
#[tactic(auto, unfolding(crate::specs::Mirror::Digits::begins))]
fn starts(base: u64, low: u64, high: u64, d: u64) -> bool
    ensures { result ≡ begins base low high d }
{
    d < base && low <= d && d <= high
}

// Whether the digit `d` goes on with the number `v`, `most * base + last` at most.
#[tactic(auto, unfolding(crate::specs::Mirror::Digits::goes_on))]
fn goes_on(base: u64, most: u64, last: u64, v: u64, d: u64) -> bool
    requires { last < base }
    ensures { result ≡ goes_on base (most * base + last) v d }
{
    d < base && (v < most || v == most && d <= last)
}

// The number whose digits before `at` are `first`, with the digits from `at` on that go on with it.
#[tactic(auto, using(crate::proofs::DigitLaws::digit_turns))]
fn more_digits(text: &[u8], at: usize, base: u64, high: u64, first: u64) -> (u64, Cursor)
    requires base { 2 ≤ base }
    requires inside { at ≤ length text.now }
    ensures { got result.0 result.1.at ≡ more_digits base high first at (drop at text.now) }
{
    let most = high / base;
    let last = high % base;
    let mut v = first;
    for i in at..text.len() {
        let d = value(text[i]);
        if !goes_on(base, most, last, v, d) {
            return (v, Cursor { at: i });
        }
        v = v * base + d;
    }
    (v, Cursor { at: text.len() })
}
