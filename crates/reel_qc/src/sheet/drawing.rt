//! The pixels of the sheet, drawn line by line from the top.
ghost use Rattle.std.specs.Prelude.{◌≡◌, ◌++◌, ◌+◌, ◌*◌, ◌/◌, ◌%◌, ◌<◌, ◌≤◌, ℕ, List, Option, length, max, slice_index, OnOk};
ghost use Rattle.std.specs.List.{fold};
ghost use Rattle.cf_base.specs.Rgb.{codes_of};
ghost use Rattle.reel_qc.specs.inside.Boxes.{AreCells, DrawsCells, at_pixel, pictured_line, pictured_row, IsPictured};
ghost use Rattle.reel_qc.specs.Sheet.{sheet_width, toned, toned_bytes};

use crate::sheet::boxes::{Boxes, boxes_of, cell_colour};
use crate::sheet::tone::Tone;
use byteorder::{BigEndian, ByteOrder};
use cf_base::{LARGEST, Rgb};
use conform_job::Job;
use dpx_pack::word_of;
use printed_text::put_bytes;
use std::alloc::AllocError;

/// What is drawn of a sheet: its bytes so far, and the greatest code so far, before the tone.
#[derive(Drop)]
pub(crate) struct Drawing {
    pub(crate) bytes: Vec<u8>,
    pub(crate) greatest: u16,
}

/// Draws a row of cells: its lines from the top.
pub(crate) fn draw_cells(
    job: &Job,
    tone: &Tone,
    cells: &[Option<Boxes>],
    row: u32,
    drawing: &mut Drawing,
) -> Result<(), AllocError>
    requires row { row ≤ LARGEST }
    requires cells { length cells.now ≡ 8 }
    requires pictures { (pictures : List (Option (List ℕ))) × AreCells job.now pictures cells.now }
    ensures { OnOk result (DrawsCells tone.now.table job.now cells.now (λ ps. pictured_row job.now ps row) drawing.old drawing.new) }
{
    job.recall();
    let lines = boxes_of(job.height());
    let first = row * lines;
    for v in 0..lines {
        draw_line(job, tone, cells, first + v, drawing)?;
    }
    Ok(())
}

/// Draws line `y` of the sheet, which goes through these cells.
fn draw_line(
    job: &Job,
    tone: &Tone,
    cells: &[Option<Boxes>],
    y: u32,
    drawing: &mut Drawing,
) -> Result<(), AllocError>
    requires cells { length cells.now ≡ 8 }
    requires pictures { (pictures : List (Option (List ℕ))) × AreCells job.now pictures cells.now }
    ensures { OnOk result (DrawsCells tone.now.table job.now cells.now (λ ps. pictured_line job.now ps y) drawing.old drawing.new) }
{
    job.recall();
    let columns = boxes_of(job.width());
    for x in 0..8 * columns {
        draw_pixel(job, tone, cells, x, y, drawing)?;
    }
    Ok(())
}

/// Draws column `x` of line `y`.
fn draw_pixel(
    job: &Job,
    tone: &Tone,
    cells: &[Option<Boxes>],
    x: u32,
    y: u32,
    drawing: &mut Drawing,
) -> Result<(), AllocError>
    requires column { x < sheet_width job.now }
    requires cells { length cells.now ≡ 8 }
    requires pictures { (pictures : List (Option (List ℕ))) × AreCells job.now pictures cells.now }
    ensures { OnOk result (DrawsCells tone.now.table job.now cells.now (λ ps. at_pixel job.now ps x y) drawing.old drawing.new) }
{
    let colour = pixel_colour(job, cells, x, y);
    draw_colour(tone, colour, drawing)?;
    Ok(())
}

/// The mean colour at column `x` of line `y`.
fn pixel_colour(job: &Job, cells: &[Option<Boxes>], x: u32, y: u32) -> Rgb
    requires column { x < sheet_width job.now }
    requires cells { length cells.now ≡ 8 }
    requires pictures { (pictures : List (Option (List ℕ))) × AreCells job.now pictures cells.now }
    ensures { IsPictured job.now cells.now x y (codes_of result) }
{
    job.recall();
    let columns = boxes_of(job.width());
    let lines = boxes_of(job.height());
    cell_colour(job, &cells[(x / columns) as usize], x % columns, y % lines)
}

/// Draws a colour under the tone.
fn draw_colour(tone: &Tone, colour: Rgb, drawing: &mut Drawing) -> Result<(), AllocError>
    ensures bytes { OnOk result (drawing.new.bytes.items
        ≡ drawing.old.bytes.items ++ toned_bytes tone.now.table (codes_of colour)) }
    ensures greatest { OnOk result (drawing.new.greatest ≡ fold max drawing.old.greatest (codes_of colour)) }
{
    let mut bytes = [0; 4];
    BigEndian::write_u32(&mut bytes, word_of(toned(tone, colour)));
    drawing.greatest = greatest_of(drawing.greatest, colour);
    put_bytes(&mut drawing.bytes, &bytes)
}

/// The greatest of a code and those of a colour.
fn greatest_of(code: u16, colour: Rgb) -> u16
    ensures { result ≡ fold max code (codes_of colour) }
{
    code.max(colour.r).max(colour.g).max(colour.b)
}

/// A colour with each code replaced by the tone's.
fn toned(tone: &Tone, colour: Rgb) -> Rgb
    ensures { codes_of result ≡ toned tone.now.table (codes_of colour) }
{
    Rgb {
        r: toned_code(tone, colour.r),
        g: toned_code(tone, colour.g),
        b: toned_code(tone, colour.b),
    }
}

/// The tone's code for a code.
fn toned_code(tone: &Tone, code: u16) -> u16
    requires { code ≤ 1023 }
    ensures value { result ≡ slice_index tone.now.table code }
    ensures small { result ≤ 1023 }
{
    tone.at(code)
}
