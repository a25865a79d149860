//! The boxes of a picture: what their pixels add up to, and their mean colours.
ghost use Rattle.std.specs.Prelude.{◌≡◌, ◌+◌, ◌*◌, ◌/◌, ◌<◌, ◌≤◌, ℕ, List, Option, Some, set, length, slice_index, IfOk};
ghost use Rattle.std.specs.List.{sum_by};
ghost use Rattle.cf_base.specs.Rgb.{codes_of};
ghost use Rattle.reel_qc.specs.inside.Boxes.{HasPicture, HasRoomAt, HasSums, IsBoxAt, mean_at, run_start};
ghost use Rattle.reel_qc.specs.Counts.{blue_of, green_of, red_of};
ghost use Rattle.reel_qc.specs.Sheet.{boxes_of, box_colour, cell_height, cell_width, rounded_mean};

use crate::words::PIXELS;
use cf_base::{LARGEST, Rgb};
use conform_job::Job;
use std::alloc::{AllocError, Global};

/// What the pixels of each box add up to by channel, and how many they are: line by line of boxes, from the left.
#[derive(Drop)]
pub struct Boxes {
    red: Vec<u64>,
    green: Vec<u64>,
    blue: Vec<u64>,
    pixels: Vec<u64>,
}

impl Boxes {
    /// The sums of a picture of this size, 1 to 4096 pixels wide and high.
    pub(crate) fn of(
        alloc: Global,
        words: &[u32],
        width: u32,
        height: u32,
    ) -> Result<Boxes, AllocError>
        requires some_width { 1 ≤ width }
        requires most_width { width ≤ LARGEST }
        requires most_height { height ≤ LARGEST }
        requires whole { length words.now ≡ width * height }
        ensures { IfOk result (λ boxes. HasSums words.now width (width * height) (boxes_of width) (boxes_of height) boxes) }
    {
        let mut boxes = Boxes::empty(alloc, boxes_of(width), boxes_of(height))?;
        for y in 0..height {
            boxes.add_line(words, width, height, y);
        }
        Ok(boxes)
    }

    /// No pixels in any of so many boxes.
    fn empty(alloc: Global, columns: u32, lines: u32) -> Result<Boxes, AllocError>
        requires columns { columns ≤ 256 }
        requires lines { lines ≤ 256 }
        ensures { IfOk result (λ boxes. (words : List ℕ) (width : ℕ) → HasSums words width 0 columns lines boxes) }
    {
        let count = columns as usize * lines as usize;
        let red = vec![in alloc; 0u64; count]?;
        let green = vec![in alloc; 0u64; count]?;
        let blue = vec![in alloc; 0u64; count]?;
        let pixels = vec![in alloc; 0u64; count]?;
        Ok(Boxes {
            red,
            green,
            blue,
            pixels,
        })
    }

    /// Adds the pixels of line `y`, behind those of the lines before it.
    fn add_line(&mut self, words: &[u32], width: u32, height: u32, y: u32)
        requires some_width { 1 ≤ width }
        requires most_width { width ≤ LARGEST }
        requires most_height { height ≤ LARGEST }
        requires line { y < height }
        requires whole { length words.now ≡ width * height }
        requires sums { HasSums words.now width (y * width) (boxes_of width) (boxes_of height) self.old }
        ensures { HasSums words.now width ((y + 1) * width) (boxes_of width) (boxes_of height) self.new }
    {
        for u in 0..boxes_of(width) {
            self.add_run(words, width, height, u, y);
        }
    }

    /// Adds the pixels of line `y` that lie in column `u` of the boxes, behind those before them.
    fn add_run(&mut self, words: &[u32], width: u32, height: u32, u: u32, y: u32)
        requires most_width { width ≤ LARGEST }
        requires most_height { height ≤ LARGEST }
        requires column { u < boxes_of width }
        requires line { y < height }
        requires whole { length words.now ≡ width * height }
        requires sums { HasSums words.now width (y * width + run_start width u) (boxes_of width) (boxes_of height) self.old }
        ensures { HasSums words.now width (y * width + run_start width (u + 1)) (boxes_of width) (boxes_of height) self.new }
    {
        let start = place_of(width, run_start(width, u), y);
        let end = place_of(width, run_start(width, u + 1), y);
        let run = sums_of(&words[start..end]);
        self.add_sums(place_of(boxes_of(width), u, y / 16), run);
    }

    /// Adds some pixels to a box.
    fn add_sums(&mut self, at: usize, run: Sums)
        requires { HasRoomAt self.old at }
        ensures red { self.new.red.items ≡ set self.old.red.items at (slice_index self.old.red.items at + run.red) }
        ensures green { self.new.green.items ≡ set self.old.green.items at (slice_index self.old.green.items at + run.green) }
        ensures blue { self.new.blue.items ≡ set self.old.blue.items at (slice_index self.old.blue.items at + run.blue) }
        ensures pixels { self.new.pixels.items ≡ set self.old.pixels.items at (slice_index self.old.pixels.items at + run.pixels) }
    {
        let Boxes {
            red,
            green,
            blue,
            pixels,
        } = self;
        add(red, at, run.red);
        add(green, at, run.green);
        add(blue, at, run.blue);
        add(pixels, at, run.pixels);
    }

    /// The mean colour of a box, each code rounded, and a half up.
    fn mean(&self, at: usize) -> Rgb
        requires { IsBoxAt self.now at }
        ensures { codes_of result ≡ mean_at self.now at }
    {
        let pixels = self.pixels[at];
        Rgb {
            r: mean_of(self.red[at], pixels),
            g: mean_of(self.green[at], pixels),
            b: mean_of(self.blue[at], pixels),
        }
    }
}

/// What the codes of some pixels add up to by channel, and how many they are.
#[derive(Clone, Copy)]
struct Sums {
    red: u32,
    green: u32,
    blue: u32,
    pixels: u32,
}

/// The sums of at most 16 words.
fn sums_of(words: &[u32]) -> Sums
    requires { length words.now ≤ 16 }
    ensures red { result.red ≡ sum_by red_of words.now }
    ensures green { result.green ≡ sum_by green_of words.now }
    ensures blue { result.blue ≡ sum_by blue_of words.now }
    ensures pixels { result.pixels ≡ length words.now }
{
    let mut red = 0;
    let mut green = 0;
    let mut blue = 0;
    for word in words {
        red += red_in(*word);
        green += green_in(*word);
        blue += blue_in(*word);
    }
    Sums {
        red,
        green,
        blue,
        pixels: words.len() as u32,
    }
}

/// The column of a line's pixels at which those of column `u` of the boxes begin, and those before it end.
fn run_start(width: u32, u: u32) -> u32
    requires width { width ≤ LARGEST }
    requires u { u ≤ 256 }
    ensures start { result ≡ run_start width u }
    ensures most { result ≤ LARGEST }
{
    width.min(16 * u)
}

/// How many boxes of 16 pixels a number of pixels needs.
pub(crate) fn boxes_of(pixels: u32) -> u32
    requires { pixels ≤ LARGEST }
    ensures boxes { result ≡ boxes_of pixels }
    ensures most { result ≤ 256 }
{
    (pixels + 15) / 16
}

/// The place of column `x` of line `y`, where lines are so wide.
fn place_of(width: u32, x: u32, y: u32) -> usize
    requires width { width ≤ LARGEST }
    requires x { x ≤ LARGEST }
    requires y { y ≤ LARGEST }
    ensures { result ≡ y * width + x }
{
    y as usize * width as usize + x as usize
}

/// The red code of a word.
fn red_in(word: u32) -> u32
    ensures red { result ≡ red_of word }
    ensures code { result ≤ 1023 }
{
    word >> 22
}

/// The green code of a word.
fn green_in(word: u32) -> u32
    ensures green { result ≡ green_of word }
    ensures code { result ≤ 1023 }
{
    (word >> 12) & 1023
}

/// The blue code of a word.
fn blue_in(word: u32) -> u32
    ensures blue { result ≡ blue_of word }
    ensures code { result ≤ 1023 }
{
    (word >> 2) & 1023
}

/// Adds to a sum.
fn add(sums: &mut Vec<u64>, at: usize, more: u32)
    requires within { at < length sums.old.items }
    requires small { slice_index sums.old.items at ≤ 17180000000 }
    ensures { sums.new.items ≡ set sums.old.items at (slice_index sums.old.items at + more) }
{
    sums[at] += u64::from(more);
}

/// The mean of so many codes with this sum, rounded, and a half up.
fn mean_of(sum: u64, pixels: u64) -> u16
    requires some { 0 < pixels }
    requires few { pixels ≤ PIXELS }
    requires sum { sum ≤ 1023 * pixels }
    ensures mean { result ≡ rounded_mean sum pixels }
    ensures code { result ≤ 1023 }
{
    ((2 * sum + pixels) / (2 * pixels)) as u16
}

/// The mean colour of the box in column `u` and line `v` of a cell's boxes, and black where the cell has no picture.
pub(crate) fn cell_colour(job: &Job, cell: &Option<Boxes>, u: u32, v: u32) -> Rgb
    requires column { u < cell_width job.now }
    requires line { v < cell_height job.now }
    requires picture { (picture : Option (List ℕ)) × HasPicture job.now picture cell.now }
    ensures { (picture : Option (List ℕ)) → HasPicture job.now picture cell.now
        → codes_of result ≡ box_colour job.now picture u v }
{
    match cell {
        Some(boxes) => mean_in(job, boxes, u, v),
        None => job.project().black,
    }
}

/// The mean colour of the box in column `u` and line `v` of a picture's boxes.
fn mean_in(job: &Job, boxes: &Boxes, u: u32, v: u32) -> Rgb
    requires column { u < cell_width job.now }
    requires line { v < cell_height job.now }
    requires picture { (words : List ℕ) × HasPicture job.now (Some words) (Some boxes.now) }
    ensures { (words : List ℕ) → HasPicture job.now (Some words) (Some boxes.now)
        → codes_of result ≡ box_colour job.now (Some words) u v }
{
    job.recall();
    boxes.mean(place_of(boxes_of(job.width()), u, v))
}
