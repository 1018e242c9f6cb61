// An instruction's line, written into a page. What does not fit is lost.

#![tactic(auto)]

ghost use Rattle.std.specs.Prelude.{◌≡◌, ◌++◌};
ghost use Rattle.decoder.specs.declared.Instruction.TheVariants as instruction;
ghost use Rattle.formats.specs.Words.{words, word_at, after};
ghost use Rattle.format_writers.specs.Pages.{Writes};
ghost use Rattle.control_texts.specs.Mirror.Predicate.{zeros, predicate};
ghost use Rattle.operand_texts.specs.Mirror.Region.{source_region, destination_region_from, destination_region};
ghost use Rattle.operand_texts.specs.Mirror.Operand.{as_general, source, destination};
ghost use Rattle.operand_texts.specs.Texts.{general_text};
ghost use Rattle.line_parts.specs.Mirror.Braces.{gather_braces, scatter_braces};
ghost use Rattle.line_parts.specs.Mirror.Parts.{space, scalar_and_raws, surface, message};
ghost use Rattle.lines.specs.Mirror.Bodies.{shl, gather, scatter, raw_send};
ghost use Rattle.lines.specs.Mirror.Line.{names, line};

use decoder::{Gather, Instruction, RawSend, Scatter, Shl};
use field_groups::Message;
use format_writers::Page;
use operand_fields::{General, Operand, Raw};

fn put_source_region(page: &mut Page<'_>, region: u16)
    ensures { Writes page.old page.new (source_region.print region) }
{
    let word = u64::from(region);
    page.word(b"<n;|<0;|<1;|<2;|<4;|<8;|<16;|<32;|", word % 16);
    page.word(b"n,|0,|1,|2,|4,|8,|16,|32,|", word / 16 % 16);
    page.word(b"n>|0>|1>|2>|4>|8>|16>|32>|", word / 256 % 16);
}

// How a destination's region begins, by its number in the table: V, or H alone where V and W are Null and H is not.
fn region_opening(word: u64) -> u64
    ensures { result ≡ (destination_region_from word).0 }
{
    if word % 256 == 0 && word / 256 != 0 {
        7 + word / 256
    } else {
        word % 16
    }
}

fn put_destination_region(page: &mut Page<'_>, region: u16)
    ensures { Writes page.old page.new (destination_region.print region) }
{
    let word = u64::from(region);
    let first = region_opening(word);
    page.word(
        b"<n;|<0;|<1;|<2;|<4;|<8;|<16;|<32;|<0>|<1>|<2>|<4>|<8>|<16>|<32>|",
        first,
    );
    if first < 8 {
        page.word(b"n,|0,|1,|2,|4,|8,|16,|32,|", word / 16 % 16);
        page.word(b"n>|0>|1>|2>|4>|8>|16>|32>|", word / 256 % 16);
    }
}

// A General operand before its region, `v300(1,2)`.
fn put_general(page: &mut Page<'_>, g: General)
    ensures { Writes page.old page.new (general_text g) }
{
    let index = u64::from(g.index);
    let row = u64::from(g.row);
    let column = u64::from(g.column);
    page.word(b"v|", 0);
    part_writers::put_decimal(page, b"(|", index);
    part_writers::put_decimal(page, b",|", row);
    part_writers::put_decimal(page, b")|", column);
}

fn put_source(page: &mut Page<'_>, o: Operand)
    ensures { Writes page.old page.new (source.print o) }
{
    match o {
        Operand::General(g) => {
            put_general(page, g);
            put_source_region(page, g.region);
        }
        Operand::Immediate(i) => {
            page.word(b"v|0x|", 1);
            part_writers::put_immediate(page, i);
        }
    }
}

// No immediate is a destination: zeros stand for one, and are never printed.
fn as_general(o: Operand) -> General
    ensures { result ≡ as_general o }
{
    match o {
        Operand::General(g) => g,
        Operand::Immediate(_) => General {
            index: 0,
            row: 0,
            column: 0,
            region: 0,
        },
    }
}

fn put_destination(page: &mut Page<'_>, o: Operand)
    ensures { Writes page.old page.new (destination.print o) }
{
    let g = as_general(o);
    put_general(page, g);
    put_destination_region(page, g.region);
}

fn put_spaced_source(page: &mut Page<'_>, o: Operand)
    ensures { Writes page.old page.new ((after source space).print o) }
{
    put_source(page, o);
    page.word(b" |", 0);
}

fn put_scalar_and_raws(page: &mut Page<'_>, scalar: Operand, first: Raw, second: Raw)
    ensures { Writes page.old page.new (scalar_and_raws.print (scalar, (first, second))) }
{
    put_spaced_source(page, scalar);
    part_writers::put_raw(page, first);
    page.word(b" |", 0);
    part_writers::put_raw(page, second);
}

fn carries_nothing(size: u64, scale: u64) -> bool
    ensures { result ≡ zeros (size, scale) }
{
    size == 0 && scale == 0
}

// Block_size and Scale of a gather.
fn put_gather_braces(page: &mut Page<'_>, size: u8, scale: u16)
    ensures { Writes page.old page.new (gather_braces.print (size, scale)) }
{
    let first = u64::from(size);
    let second = u64::from(scale);
    if carries_nothing(first, second) {
        page.word(b"| {|", 0);
        return;
    }
    page.word(b"| {|", 1);
    part_writers::put_decimal(page, b",|", first);
    part_writers::put_decimal(page, b"}|", second);
}

// Scale of a scatter.
fn put_scatter_braces(page: &mut Page<'_>, scale: u16)
    ensures { Writes page.old page.new (scatter_braces.print scale) }
{
    if scale == 0 {
        page.word(b"| {|", 0);
        return;
    }
    page.word(b"| {|", 1);
    part_writers::put_decimal(page, b"}|", u64::from(scale));
}

fn put_shl(page: &mut Page<'_>, x: Shl)
    ensures { Writes page.old page.new ((shl x.control.pred).print (instruction.Shl x)) }
{
    let to = x.destination;
    let from = x.source;
    let count = x.count;
    control_writers::put_exec(page, x.control.exec);
    put_destination(page, to);
    page.word(b" |", 0);
    put_spaced_source(page, from);
    put_source(page, count);
}

fn put_surface(page: &mut Page<'_>, number: u8)
    ensures { Writes page.old page.new (surface.print number) }
{
    page.word(b"T|", 0);
    part_writers::put_decimal(page, b" |", u64::from(number));
}

fn put_gather(page: &mut Page<'_>, x: Gather)
    ensures { Writes page.old page.new ((gather x.control.pred).print (instruction.Gather x)) }
{
    let offset = x.offset;
    page.word(b"1 |2 |4 |", u64::from(x.access.num_blocks));
    control_writers::put_exec(page, x.control.exec);
    put_surface(page, x.access.surface);
    put_scalar_and_raws(page, offset, x.element_offset, x.destination);
    put_gather_braces(page, x.access.block_size, x.access.scale);
}

// Word k of the letters is of the channels k + 1.
fn put_scatter(page: &mut Page<'_>, x: Scatter)
    ensures { Writes page.old page.new ((scatter x.control.pred).print (instruction.Scatter x)) }
{
    let address = x.address;
    let letters = u64::from(x.channels).saturating_sub(1);
    page.word(
        b"R |G |RG |B |RB |GB |RGB |A |RA |GA |RGA |BA |RBA |GBA |RGBA |",
        letters,
    );
    control_writers::put_scatter_exec(page, x.control.exec);
    put_scalar_and_raws(page, address, x.element_offset, x.source);
    put_scatter_braces(page, x.scale);
}

fn put_message(page: &mut Page<'_>, m: Message)
    ensures { Writes page.old page.new (message.print (m.extended, (m.num_src, m.num_dst))) }
{
    let extended = u64::from(m.extended);
    let sources = u64::from(m.num_src);
    let destinations = u64::from(m.num_dst);
    part_writers::put_hexadecimal(page, b" |", extended);
    part_writers::put_decimal(page, b" |", sources);
    part_writers::put_decimal(page, b" |", destinations);
}

fn put_raw_send(page: &mut Page<'_>, x: RawSend)
    ensures { Writes page.old page.new ((raw_send x.control.pred).print (instruction.RawSend x)) }
{
    let descriptor = x.descriptor;
    page.word(b" |c |", u64::from(x.modifiers));
    control_writers::put_exec(page, x.control.exec);
    put_message(page, x.message);
    put_scalar_and_raws(page, descriptor, x.source, x.destination);
}

// The predicate and the name.
fn put_opening(page: &mut Page<'_>, pred: u16, name: u64)
    ensures { Writes page.old page.new (predicate.print pred ++ word_at (words names) name) }
{
    control_writers::put_predicate(page, pred);
    page.word(b"SHL |GATHER_SCALED.|SVM_SCATTER4_SCALED.|raw_send|", name);
}

// The line of an instruction.
pub fn put_line(page: &mut Page<'_>, instruction: Instruction)
    ensures { Writes page.old page.new (line.print instruction) }
{
    match instruction {
        Instruction::Shl(x) => {
            put_opening(page, x.control.pred, 0);
            put_shl(page, x);
        }
        Instruction::Gather(x) => {
            put_opening(page, x.control.pred, 1);
            put_gather(page, x);
        }
        Instruction::Scatter(x) => {
            put_opening(page, x.control.pred, 2);
            put_scatter(page, x);
        }
        Instruction::RawSend(x) => {
            put_opening(page, x.control.pred, 3);
            put_raw_send(page, x);
        }
    }
}
