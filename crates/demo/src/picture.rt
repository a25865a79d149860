//! The source frames.
ghost use Rattle.std.specs.Prelude.{◌≡◌, ◌<◌, ◌++◌, ◌%◌, length, OnOk, IfOk};
ghost use Rattle.dpx_header.specs.Writing.{IsOutHead};
ghost use Rattle.demo.specs.Pictures.{source_word, line_words, source_line, picture, source_head, source_file};

use cf_base::{HEADER, Rgb, TitleText};
use dpx_header::{OutHead, write_header};
use dpx_pack::{pack, word_of};
use std::alloc::{AllocError, Global};

const WIDTH: usize = 32;

const HEIGHT: usize = 18;

/// The bytes of a source file: 2048 of header, and four for each pixel.
const SIZE: usize = HEADER + 4 * WIDTH * HEIGHT;

/// The file of a source frame.
pub(crate) fn source_file(alloc: Global, reel: u16, frame: u32) -> Result<Vec<u8>, AllocError>
    requires reel { reel < 4 }
    requires frame { frame < 100000 }
    ensures { IfOk result (λ file. file.items ≡ source_file reel frame) }
{
    let mut file = Vec::with_capacity(alloc, SIZE)?;
    let mut header = [0; HEADER];
    write_header(&source_head(reel, frame), &mut header);
    file.extend_from_slice(&header)?;
    put_picture(&mut file, reel, frame)?;
    Ok(file)
}

/// The header of a source frame, which has no title and no timecode.
fn source_head(reel: u16, frame: u32) -> OutHead
    requires reel { reel < 4 }
    requires frame { frame < 100000 }
    ensures head { result ≡ source_head reel frame }
    ensures valid { IsOutHead result }
{
    OutHead {
        width: WIDTH as u32,
        height: HEIGHT as u32,
        reel,
        frame,
        position: frame,
        length: 1,
        timecode: None,
        title: TitleText::empty(),
    }
}

/// Appends the lines of a source frame, from the top.
fn put_picture(file: &mut Vec<u8>, reel: u16, frame: u32) -> Result<(), AllocError>
    requires reel { reel < 4 }
    requires frame { frame < 100000 }
    ensures { OnOk result (file.new.items ≡ file.old.items ++ picture reel frame) }
{
    for y in 0..HEIGHT as u32 {
        put_line(file, reel, frame, y)?;
    }
    Ok(())
}

/// Appends line `y` of a source frame.
fn put_line(file: &mut Vec<u8>, reel: u16, frame: u32, y: u32) -> Result<(), AllocError>
    requires reel { reel < 4 }
    requires frame { frame < 100000 }
    requires line { y < 18 }
    ensures { OnOk result (file.new.items ≡ file.old.items ++ source_line reel frame y) }
{
    let mut words = [0; WIDTH];
    fill_words(reel, frame, y, &mut words);
    let mut bytes = [0; 4 * WIDTH];
    pack(&words, &mut bytes);
    file.extend_from_slice(&bytes)?;
    Ok(())
}

/// Sets the words of line `y`, from left to right.
fn fill_words(reel: u16, frame: u32, y: u32, out: &mut [u32])
    requires reel { reel < 4 }
    requires frame { frame < 100000 }
    requires line { y < 18 }
    requires room { length out.old ≡ 32 }
    ensures { out.new ≡ line_words reel frame y }
{
    for x in 0..WIDTH as u32 {
        out[x as usize] = source_word(reel, frame, x, y);
    }
}

/// The word of the pixel in column `x` of line `y`.
#[tactic(auto, unfolding(crate::specs::Pictures::source_word))]
fn source_word(reel: u16, frame: u32, x: u32, y: u32) -> u32
    requires reel { reel < 4 }
    requires frame { frame < 100000 }
    requires column { x < 32 }
    requires line { y < 18 }
    ensures { result ≡ source_word reel frame x y }
{
    let reel = u32::from(reel);
    word_of(Rgb {
        r: code(7 * frame + 3 * x + 101 * reel),
        g: code(5 * frame + 11 * y + 37 * reel),
        b: code(frame + x * y),
    })
}

/// The ten lowest bits of a number.
fn code(number: u32) -> u16
    ensures { result ≡ number % 1024 }
{
    (number % 1024) as u16
}
