// What stands before the operands in an instruction's line, predicate and exec byte, written into a page. What does not fit is lost.

#![tactic(auto)]

ghost use Rattle.std.specs.Prelude.{◌≡◌};
ghost use Rattle.format_writers.specs.Pages.{Writes};
ghost use Rattle.control_texts.specs.Mirror.Predicate.{ending, predicate};
ghost use Rattle.control_texts.specs.Mirror.Exec.{mask, mask_place, size_place, exec, scatter_exec};

use exec_byte::Exec;
use format_writers::Page;
use formats::Base;

// What ends a predicate.
fn put_ending(page: &mut Page<'_>, opening: u64, id: u64, end: u64)
    ensures { Writes page.old page.new ((ending opening id).print end) }
{
    if control_texts::is_p0(opening, id) {
        page.word(b".any) |.all) |", end);
    } else {
        page.word(b".any) |.all) |) |", end);
    }
}

pub fn put_predicate(page: &mut Page<'_>, pred: u16)
    ensures { Writes page.old page.new (predicate.print pred) }
{
    if pred == 0 {
        page.word(b"|(P|(!P|", 0);
        return;
    }
    let word = u64::from(pred);
    let opening = 1 + word / 32768;
    let id = word % 4096;
    page.word(b"|(P|(!P|", opening);
    page.number(Base::Decimal, id);
    put_ending(page, opening, id, (word / 8192 % 4 + 2) % 3);
}

fn put_mask(page: &mut Page<'_>, code: u64)
    ensures { Writes page.old page.new (mask.print code) }
{
    page.word(b"(M|", 0);
    page.number(Base::Decimal, code % 8 + 1);
    page.word(b",|_NM,|", code / 8);
}

// A mask's place among M1 to M8 and M1_NM to M8_NM.
#[tactic(auto, unfolding(control_texts::specs::Mirror::Exec::mask_place))]
fn mask_place(exec: Exec) -> u64
    ensures { result ≡ mask_place exec }
{
    let number = u64::from(exec.offset / 4);
    if exec.unmasked { number + 8 } else { number }
}

// A size's place among those that a line may show.
#[tactic(auto, unfolding(control_texts::specs::Mirror::Exec::size_place))]
fn size_place(size: u8) -> u64
    ensures { result ≡ size_place size }
{
    match size {
        1 => 0,
        2 => 1,
        4 => 2,
        8 => 3,
        16 => 4,
        32 => 5,
        _ => 6,
    }
}

pub fn put_exec(page: &mut Page<'_>, byte: u8)
    ensures { Writes page.old page.new (exec.print byte) }
{
    let e = exec_byte::split(byte);
    put_mask(page, mask_place(e));
    page.word(b"1) |2) |4) |8) |16) |32) |", size_place(e.size));
}

pub fn put_scatter_exec(page: &mut Page<'_>, byte: u8)
    ensures { Writes page.old page.new (scatter_exec.print byte) }
{
    let e = exec_byte::split(byte);
    put_mask(page, mask_place(e));
    let place = size_place(e.size).saturating_sub(3);
    page.word(b"8) |16) |", place);
}
