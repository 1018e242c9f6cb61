// Kernels as text: an instruction printed as a line, and a text read.

#![tactic(auto)]

ghost use Rattle.std.specs.Prelude.{◌≡◌, ◌≤◌, true, length, OnOk};
ghost use Rattle.reader.specs.Reply.{done, outcome};
ghost use Rattle.format_writers.specs.Writing.{wrote, written};
ghost use Rattle.lines.specs.Mirror.Line.{line, line_fits};
ghost use Rattle.text.specs.Printing.{fields_judged, printed_in, printed_into};
ghost use Rattle.text.specs.Assembling.{number_of, column_of, assembly_of, assembled_in, assembled_into};
ghost use Rattle.text.specs.declared.Unassembled.TheVariants.{NoLine, Encoding};

use decoder::Instruction;
use format_writers::Page;
use refusal::Refusal;

// Why a text is not assembled.
#[derive(Clone, Copy)]
pub enum Unassembled {
    // 16: it is no line
    NoLine(lines::NoLine),
    // by the encoder
    Encoding(Refusal),
}

impl From<lines::NoLine> for Unassembled {
    ghost from_gives = { λ e r. r ≡ NoLine e };

    fn from(e: lines::NoLine) -> Unassembled {
        Unassembled::NoLine(e)
    }
}

impl From<Refusal> for Unassembled {
    ghost from_gives = { λ e r. r ≡ Encoding e };

    fn from(e: Refusal) -> Unassembled {
        Unassembled::Encoding(e)
    }
}

impl Unassembled {
    // The number that is given back.
    pub fn number(self) -> u8
        ensures { result ≡ number_of self }
    {
        match self {
            Unassembled::NoLine(_) => 16,
            Unassembled::Encoding(refusal) => refusal.number(),
        }
    }

    // The column that 16 tells; 0 for any other number.
    pub fn column(self) -> usize
        ensures { result ≡ column_of self }
    {
        match self {
            Unassembled::NoLine(no_line) => no_line.column,
            Unassembled::Encoding(_) => 0,
        }
    }
}

// Whether the fields are taken: the encoder's answer judges them, given room for every encoding.
fn judge(instruction: Instruction, bytes: &mut [u8]) -> Result<(), Refusal>
    requires { 34 ≤ length bytes.old }
    ensures answer { outcome result ≡ fields_judged instruction }
    ensures fits { OnOk result (line_fits instruction ≡ true) }
{
    encoder::encode(instruction, bytes)?;
    Ok(())
}

// The line at the buffer's start, and the place past it.
fn put_line(instruction: Instruction, out: &mut [u8]) -> usize
    ensures { wrote result out.new ≡ written out.old 0 (line.print instruction) }
{
    let mut page = Page { out, at: 0 };
    line_writers::put_line(&mut page, instruction);
    page.at
}

// The line of an instruction whose fields are taken.
fn put_taken(instruction: Instruction, buffer: &mut [u8]) -> Result<usize, Refusal>
    requires taken { done (tt {0}) ≡ fields_judged instruction }
    requires fits { line_fits instruction ≡ true }
    ensures answer { outcome result ≡ printed_in (length buffer.old) instruction }
    ensures line { buffer.new ≡ printed_into buffer.old instruction }
{
    let mut text = [0u8; 128];
    let end = put_line(instruction, &mut text);
    if part_writers::put_whole(buffer, &text[..end]) {
        Ok(end)
    } else {
        Err(Refusal::Room)
    }
}

// Prints at the buffer's start. On a refusal the buffer is untouched; bytes past a line stay.
#[tactic(auto)]
pub fn print(instruction: Instruction, buffer: &mut [u8]) -> Result<usize, Refusal>
    ensures answer { outcome result ≡ printed_in (length buffer.old) instruction }
    ensures line { buffer.new ≡ printed_into buffer.old instruction }
{
    let mut bytes = [0u8; 64];
    judge(instruction, &mut bytes)?;
    put_taken(instruction, buffer)
}

// Reads a text and encodes its instruction at the buffer's start. On a refusal the buffer is untouched; bytes past an encoding stay.
#[tactic(auto, unfolding(crate::specs::Assembling::assembled_in, crate::specs::Assembling::assembled_into))]
pub fn read_into(text: &[u8], buffer: &mut [u8]) -> Result<usize, Unassembled>
    ensures answer { assembly_of result ≡ assembled_in (length buffer.old) text.now }
    ensures bytes { buffer.new ≡ assembled_into buffer.old text.now }
{
    let instruction = lines::read(text)?;
    let count = encoder::encode(instruction, buffer)?;
    Ok(count)
}
