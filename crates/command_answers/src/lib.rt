//! What the words of a command line come to on one thread, over a scan, two folders and an output that are handed in.
//!
//! `frame PATH` reads one DPX file and puts the same pixels under the station's own header; `list FILE RATE` reads an edit list and
//! puts its event table; `plan PROJECT` reads a project and puts what each record frame shows; `run PROJECT` renders its reel, and
//! `part PROJECT K/N` a part of it; `status PROJECT` puts how much of it is rendered, `verify PROJECT` whether that is still whole,
//! `sums PROJECT` the digests of its files, and `qc PROJECT` counts over it by the functions that were handed in; `sheet
//! PROJECT` writes its contact sheet; `adopt PROJECT OLD` takes over frames of an old
//! reel; `pull PROJECT MARGIN` puts which ranges of source frames it needs; `demo N` renders a job of N events that is made in
//! memory. The words become a `Command`, the command a reply, and the reply is put on the output in one piece.
//!
//! What each command means is one record of `specs/Commands`, and `specs/Commands.antt` has a row for each.
#![tactic(auto)]

mod frame;
mod house;
mod laws;
mod list;
mod one_thread;
mod plan;
mod pull;

pub use house::House;
pub use laws::parts_law;
pub use one_thread::{answer, answer_found, put_line, put_result};
