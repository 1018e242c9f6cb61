// The table of exec bytes, a line for each of the 256, to standard output.

#![tactic(auto)]

ghost use Rattle.std.specs.Prelude.{◌≡◌, ◌≤◌, length};
ghost use Rattle.format_writers.specs.Writing.{wrote, written};
ghost use Rattle.format_writers.specs.Pages.{Writes};
ghost use Rattle.exec_table.specs.ExecLines.{meaning_text, entry_line, exec_lines};

use exec_byte::Exec;
use format_writers::Page;
use formats::Base;
use streams::Failure;

// The rest of a byte's line.
fn put_meaning(page: &mut Page<'_>, exec: Exec)
    ensures { Writes page.old page.new (meaning_text exec) }
{
    if exec.reserved {
        page.word(b"reserved\n|", 0);
        return;
    }
    let size = u64::from(exec.size);
    let offset = u64::from(exec.offset);
    page.number(Base::Decimal, size);
    page.word(b" |", 0);
    page.number(Base::Decimal, offset);
    if exec.unmasked {
        page.word(b" NM\n|", 0);
    } else {
        page.word(b"\n|", 0);
    }
}

fn put_entry(page: &mut Page<'_>, byte: u8)
    ensures { Writes page.old page.new (entry_line byte) }
{
    page.byte(byte);
    page.word(b" |", 0);
    put_meaning(page, exec_byte::split(byte));
}

#[tactic(auto, using(crate::proofs::LineLaws::no_lines))]
fn put_lines(page: &mut Page<'_>)
    requires { page.old.at ≡ 0 }
    ensures { Writes page.old page.new exec_lines }
{
    for byte in 0..=u8::MAX {
        put_entry(page, byte);
    }
}

fn put_table(out: &mut [u8]) -> usize
    ensures { wrote result out.new ≡ written out.old 0 exec_lines }
{
    let mut page = Page { out, at: 0 };
    put_lines(&mut page);
    page.at
}

// What is handed on to be written.
fn output_bytes(out: &mut [u8]) -> &mut [u8]
    requires { 4096 ≤ length out.old }
    ensures { result.now ≡ exec_lines }
{
    let used = put_table(out);
    &mut out[..used]
}

fn main(rt: HostRuntime) {
    let mut out = [0u8; 4096];
    let bytes = output_bytes(&mut out);
    if rt.write_all(bytes).is_err() {
        let _ = eprintln!(rt; "exec_table: {}", Failure::Unwritten);
    }
}
