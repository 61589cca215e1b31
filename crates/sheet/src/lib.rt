// The page sheet in a lent buffer.
// What takes a Layout or asks for room here is no call of the device: its callers ask first.
#![tactic(auto)]

ghost use Rattle.std.specs.Prelude.{◌≡◌, IfOk, ◌+◌, ◌*◌, ◌≤◌, length};
ghost use Rattle.words.specs.Decline.{verdict_from};
ghost use Rattle.std.proofs.lemmas.List.Edits.{sets};
ghost use Rattle.geometry.specs.Banks.{pages_of};
ghost use Rattle.sheet_page.specs.State.{kind_pages_of};
ghost use Rattle.sheet.specs.Sheet.{kind_lines_of, bank_lines_of, page_sheet_decline_of, given_from, page_sheet_of};

use common_declines::common_decline::common_decline;
use device::record::Device;
use geometry::banks::Geometry;
use geometry::layout::Layout;
use geometry::lent::Lent;
use sheet_line::{LINE_BYTES, put_line};
use sheet_page::{SheetBank, kind_pages};
use words::decline::Decline;

// Writes the lines of a bank's pages of a kind at a position. Inlined, as the next: a bank that is handed on stands in memory, where its
// geometry is read in other widths than it was just written in, for which the processor waits.
#[inline(always)]
fn put_kind(out: &mut [u8], at: usize, bank: SheetBank, program: bool)
    requires { at + 17 * kind_pages_of bank.layout.geometry program ≤ length out.old }
    ensures { out.new ≡ sets out.old at (kind_lines_of bank.entry.layout.geometry bank.entry.d bank.entry.words.now bank.entry.second program) }
{
    for page in 0..kind_pages(bank.layout.geometry, program) {
        let state = bank.page_state(program, page);
        put_line(out, at + LINE_BYTES * page as usize, state);
    }
}

// Writes the lines of a bank at a position: its boot pages, then its program pages.
#[inline(always)]
fn put_bank(out: &mut [u8], at: usize, bank: SheetBank)
    requires { at + 17 * pages_of bank.layout.geometry ≤ length out.old }
    ensures { out.new ≡ sets out.old at (bank_lines_of bank.entry.layout.geometry bank.entry.d bank.entry.words.now bank.entry.second) }
{
    put_kind(out, at, bank, false);
    put_kind(
        out,
        at + LINE_BYTES * bank.layout.geometry.b as usize,
        bank,
        true,
    );
}

// Declines 1, 2, 3 and 18, by the lengths of the banks and the buffer.
#[tactic(auto, unfolding(crate::specs::Sheet::page_sheet_decline_of))]
fn page_sheet_decline(
    g: Geometry,
    d: Device,
    one: usize,
    two: usize,
    buffer: usize,
) -> Result<Layout, Decline>
    ensures verdict { verdict_from result ≡ page_sheet_decline_of g d one two buffer }
    ensures layout { IfOk result (λ layout. layout.geometry ≡ g) }
{
    let layout = common_decline(g, d, Lent::Banks(one, two), 0)?;
    if buffer < 2 * LINE_BYTES * layout.pages() as usize {
        return Err(Decline::SheetBuffer);
    }
    Ok(layout)
}

// Writes a line for each page of both banks, bank 1 first, into a buffer, and gives the bytes of the sheet; the bytes after the
// last line stay.
#[tactic(auto, unfolding(crate::specs::Sheet::page_sheet_of))]
pub fn page_sheet(
    g: Geometry,
    d: Device,
    one: &[u32],
    two: &[u32],
    out: &mut [u8],
) -> Result<usize, Decline>
    ensures { given_from result out.new ≡ page_sheet_of g d one.now two.now out.old }
{
    let layout = page_sheet_decline(g, d, one.len(), two.len(), out.len())?;
    let first = SheetBank {
        layout,
        d,
        words: one,
        second: false,
    };
    let other = SheetBank {
        layout,
        d,
        words: two,
        second: true,
    };
    let bank = LINE_BYTES * layout.pages() as usize;
    put_bank(out, 0, first);
    put_bank(out, bank, other);
    Ok(2 * bank)
}
