//! Pixel words under a table of three dimensions, eight at a time: where their ways start, the order of their parts, and
//! then their colours. Each is a loop over arrays of its own; only the third reads entries.
ghost use Rattle.std.specs.Prelude.{◌≡◌, ℕ, ◌≤◌, ◌<◌, true, length, slice_index, EachIndex};
ghost use Rattle.dpx_pack.specs.Pixels.{word_codes};
ghost use Rattle.tetra_look.specs.inside.Words.{cube_word};
ghost use Rattle.tetra_look.specs.inside.Ways.{IsStart, IsWay};
ghost use Rattle.tetra_look.specs.inside.Lanes.{start_of, way_of};

use crate::grid::{Grid, colour_of};
use crate::way::Way;
use dpx_pack::{rgb_of, word_of};

/// Where the ways of eight words start, and their parts by channel.
#[derive(Clone, Copy)]
struct Starts {
    places: [u32; 8],
    reds: [u32; 8],
    greens: [u32; 8],
    blues: [u32; 8],
}

/// The steps of eight ways, and the weights of their entries.
#[derive(Clone, Copy)]
struct Steps {
    firsts: [u32; 8],
    seconds: [u32; 8],
    at_starts: [u32; 8],
    at_firsts: [u32; 8],
    at_seconds: [u32; 8],
    at_ends: [u32; 8],
}

impl Grid {
    /// Words under a table of three dimensions.
    pub fn shade(&self, words: &mut [u32])
        requires { self.now.is_3d ≡ true }
        ensures { EachIndex words.new (λ k.
            slice_index words.new k ≡ cube_word self.now (slice_index words.old k)) }
    {
        let mut starts = Starts {
            places: [0; 8],
            reds: [0; 8],
            greens: [0; 8],
            blues: [0; 8],
        };
        let mut steps = Steps {
            firsts: [0; 8],
            seconds: [0; 8],
            at_starts: [0; 8],
            at_firsts: [0; 8],
            at_seconds: [0; 8],
            at_ends: [0; 8],
        };
        let mut sums = [[0; 4]; 8];
        let whole = words.len() / 8;
        for n in 0..whole {
            self.shade_eight(
                &mut words[8 * n..8 * n + 8],
                &mut starts,
                &mut steps,
                &mut sums,
            );
        }
        for i in 8 * whole..words.len() {
            words[i] = self.shade_one(words[i]);
        }
    }

    /// One word.
    fn shade_one(&self, word: u32) -> u32
        requires { self.now.is_3d ≡ true }
        ensures { result ≡ cube_word self.now word }
    {
        word_of(self.cube_colour(rgb_of(word)))
    }

    /// Eight words. The three rooms are written over.
    fn shade_eight(
        &self,
        words: &mut [u32],
        starts: &mut Starts,
        steps: &mut Steps,
        sums: &mut [[u32; 4]; 8],
    )
        requires three { self.now.is_3d ≡ true }
        requires count { length words.old ≡ 8 }
        ensures { EachIndex words.new (λ k.
            slice_index words.new k ≡ cube_word self.now (slice_index words.old k)) }
    {
        self.find_starts(words, starts);
        steps.find(self.green_step, self.blue_step, starts);
        for k in 0..8 {
            sums[k] = self.way_sums(starts.places[k], steps.way(k));
        }
        for i in 0..8 {
            words[i] = word_of(colour_of(&sums[i]));
        }
    }

    /// Finds where the ways of eight words start.
    fn find_starts(&self, words: &[u32], starts: &mut Starts)
        requires { length words.now ≡ 8 }
        ensures each { (k : ℕ) → k < 8
            → IsStart self.now (word_codes (slice_index words.now k)) (start_of starts.new k) }
        ensures red { (k : ℕ) → k < 8 → slice_index starts.new.reds k ≤ 65536 }
        ensures green { (k : ℕ) → k < 8 → slice_index starts.new.greens k ≤ 65536 }
        ensures blue { (k : ℕ) → k < 8 → slice_index starts.new.blues k ≤ 65536 }
    {
        for k in 0..8 {
            let start = self.start(rgb_of(words[k]));
            starts.places[k] = start.place;
            starts.reds[k] = start.r;
            starts.greens[k] = start.g;
            starts.blues[k] = start.b;
        }
    }
}

impl Steps {
    /// Finds the ways that start there, if the entries of neighbours along green and along blue are so far apart.
    fn find(&mut self, green_step: u32, blue_step: u32, starts: &Starts)
        requires green_step { green_step ≤ 65536 }
        requires blue_step { blue_step ≤ 65536 }
        requires red { (k : ℕ) → k < 8 → slice_index starts.now.reds k ≤ 65536 }
        requires green { (k : ℕ) → k < 8 → slice_index starts.now.greens k ≤ 65536 }
        requires blue { (k : ℕ) → k < 8 → slice_index starts.now.blues k ≤ 65536 }
        ensures { (k : ℕ) → k < 8
            → IsWay green_step blue_step (slice_index starts.now.reds k)
            (slice_index starts.now.greens k) (slice_index starts.now.blues k) (way_of self.new k) }
    {
        for k in 0..8 {
            let way = Way::of(
                green_step,
                blue_step,
                starts.reds[k],
                starts.greens[k],
                starts.blues[k],
            );
            self.firsts[k] = way.first;
            self.seconds[k] = way.second;
            self.at_starts[k] = way.at_start;
            self.at_firsts[k] = way.at_first;
            self.at_seconds[k] = way.at_second;
            self.at_ends[k] = way.at_end;
        }
    }

    /// The way of place `k`.
    fn way(&self, k: usize) -> Way
        requires { k < 8 }
        ensures { result ≡ way_of self.now k }
    {
        Way {
            first: self.firsts[k],
            second: self.seconds[k],
            at_start: self.at_starts[k],
            at_first: self.at_firsts[k],
            at_second: self.at_seconds[k],
            at_end: self.at_ends[k],
        }
    }
}
