// The verdict line: the answer of a run, and what it tells beside its number, as one line of text.

#![tactic(auto)]

ghost use Rattle.std.specs.Prelude.{◌≡◌, ◌≤◌, length};
ghost use Rattle.format_writers.specs.Writing.{wrote, written};
ghost use Rattle.format_writers.specs.Pages.{Writes};
ghost use Rattle.verdict_line.specs.VerdictLine.{detail_text, verdict_line};

use format_writers::Page;
use formats::Base;
use refusal::Detail;

// What the answer tells beside its number.
fn put_detail(page: &mut Page<'_>, detail: Detail)
    ensures { (Writes page.old page.new (detail_text detail)) × (length (detail_text detail) ≤ 21) }
{
    match detail {
        Detail::None => page.word(b"|", 0),
        Detail::Operand(place) => {
            page.word(b" operand |", 0);
            page.number(Base::Decimal, u64::from(place));
        }
        Detail::Pair(channel, lane) => {
            page.word(b" channel |", 0);
            page.number(Base::Decimal, u64::from(channel));
            page.word(b" lane |", 0);
            page.number(Base::Decimal, u64::from(lane));
        }
    }
}

// The whole line.
fn put_line(page: &mut Page<'_>, number: u8, completed: usize, position: usize, detail: Detail)
    ensures { (Writes page.old page.new (verdict_line number completed position detail)) × (length (verdict_line number completed position detail) ≤ 67) }
{
    // Kept: `as u64`, since there is no `u64::from` of a `usize`; 64 bits hold each.
    page.number(Base::Decimal, u64::from(number));
    page.word(b" |", 0);
    page.number(Base::Decimal, completed as u64);
    page.word(b" |", 0);
    page.number(Base::Decimal, position as u64);
    put_detail(page, detail);
    page.word(b"\n|", 0);
}

// The line, to the buffer's start, and how many characters it has; what does not fit is lost.
// A number and no Refusal: 14, and the 13 of a case that is not run, are refusals of no run.
pub fn put_verdict(
    out: &mut [u8],
    number: u8,
    completed: usize,
    position: usize,
    detail: Detail,
) -> usize
    ensures { (wrote result out.new ≡ written out.old 0 (verdict_line number completed position detail)) × (length (verdict_line number completed position detail) ≤ 67) }
{
    let mut page = Page { out, at: 0 };
    put_line(&mut page, number, completed, position, detail);
    page.at
}
