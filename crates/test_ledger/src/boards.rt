//! Runs of two workers over four frames, with and without a stop, and a reel that was done already.
use cf_base::{Fail as Failed, Key, Never};
use dpx_header::FrameInfo;
use render_board::{Board, Claim, Step, Turn, Why, board_laws};
use source_reels::Seen;
use std::alloc::Global;

/// Two workers over four frames, of which the second is done.
fn board_of_four(alloc: Global) -> Result<Board, Failed<Never>> {
    Board::new(alloc, &[false, true, false, false], 0, 4, 2)
}

/// Claims a frame, if the worker is idle.
fn claim(board: &mut Board, worker: u16) -> Option<Claim> {
    if worker >= board.workers() {
        return None;
    }
    match board.turn(worker) {
        Turn::Idle => Some(board.claim(worker)),
        Turn::Holds(_) | Turn::Stopped => None,
    }
}

/// Finishes the frame that the worker holds, if it holds one.
fn finish(board: &mut Board, worker: u16) -> Option<u32> {
    if worker >= board.workers() {
        return None;
    }
    match board.turn(worker) {
        Turn::Holds(frame) => {
            board.finished(worker, frame);
            Some(frame)
        }
        Turn::Idle | Turn::Stopped => None,
    }
}

/// Stops the worker, and says whether it had not stopped before.
fn stop(board: &mut Board, worker: u16, why: Why) -> bool {
    if worker >= board.workers() {
        return false;
    }
    match board.turn(worker) {
        Turn::Idle | Turn::Holds(_) => {
            board.stop(worker, why);
            true
        }
        Turn::Stopped => false,
    }
}

fn turn(board: &Board, worker: u16) -> Option<Turn> {
    (worker < board.workers()).then(|| board.turn(worker))
}

#[test]
fn a_run_without_a_stop_takes_each_free_frame_once(rt: HostRuntime) {
    let mut board = board_of_four(rt.alloc()).ok().expect(&rt, "a board");
    assert!(rt; board.workers() == 2);
    assert!(rt; turn(&board, 0) == Some(Turn::Idle));
    assert!(rt; claim(&mut board, 0) == Some(Claim::Take(0)));
    assert!(rt; claim(&mut board, 1) == Some(Claim::Take(2)));
    assert!(rt; turn(&board, 0) == Some(Turn::Holds(0)));
    assert!(rt; finish(&mut board, 1) == Some(2));
    assert!(rt; turn(&board, 1) == Some(Turn::Idle));
    assert!(rt; claim(&mut board, 1) == Some(Claim::Take(3)));
    assert!(rt; finish(&mut board, 0) == Some(0));
    assert!(rt; claim(&mut board, 0) == Some(Claim::NoneLeft));
    assert!(rt; finish(&mut board, 1) == Some(3));
    assert!(rt; claim(&mut board, 1) == Some(Claim::NoneLeft));
    let steps = [
        Step::Claim {
            worker: 0,
            frame: 0,
        },
        Step::Claim {
            worker: 1,
            frame: 2,
        },
        Step::Finish {
            worker: 1,
            frame: 2,
        },
        Step::Claim {
            worker: 1,
            frame: 3,
        },
        Step::Finish {
            worker: 0,
            frame: 0,
        },
        Step::Finish {
            worker: 1,
            frame: 3,
        },
    ];
    assert!(rt; board.history() == steps.as_slice());
    assert!(rt; board.into_history().items() == steps.as_slice());
    board_laws();
}

#[test]
fn after_a_stop_none_is_claimed_and_others_may_finish(rt: HostRuntime) {
    let was = FrameInfo {
        little: false,
        width: 2,
        height: 2,
        start: 2048,
        pad: 0,
    };
    let changed = Why::Changed {
        key: Key {
            reel: 1,
            source: 86_400,
        },
        was,
        now: Seen::Absent,
    };
    let mut board = board_of_four(rt.alloc()).ok().expect(&rt, "a board");
    assert!(rt; claim(&mut board, 1) == Some(Claim::Take(0)));
    assert!(rt; claim(&mut board, 0) == Some(Claim::Take(2)));
    assert!(rt; stop(&mut board, 1, changed));
    assert!(rt; turn(&board, 1) == Some(Turn::Stopped));
    assert!(rt; finish(&mut board, 1) == None);
    assert!(rt; finish(&mut board, 0) == Some(2));
    assert!(rt; claim(&mut board, 0) == Some(Claim::Stopped));
    assert!(rt; stop(&mut board, 0, Why::Disk));
    assert!(rt; !stop(&mut board, 0, Why::Memory));
    assert!(rt;
        board.into_history().items()
            == [
                Step::Claim {
                    worker: 1,
                    frame: 0
                },
                Step::Claim {
                    worker: 0,
                    frame: 2
                },
                Step::Stop {
                    worker: 1,
                    why: changed
                },
                Step::Finish {
                    worker: 0,
                    frame: 2
                },
                Step::Stop {
                    worker: 0,
                    why: Why::Disk
                },
            ]
            .as_slice()
    );
}

#[test]
fn a_reel_that_was_done_has_no_frame_left(rt: HostRuntime) {
    let done = Board::new(rt.alloc(), &[true, true], 0, 2, 16);
    let mut board = done.ok().expect(&rt, "a board");
    assert!(rt; claim(&mut board, 15) == Some(Claim::NoneLeft));
    assert!(rt; claim(&mut board, 16) == None);
    assert!(rt; board.history().is_empty());
    assert!(rt; stop(&mut board, 15, Why::Source));
    assert!(rt; claim(&mut board, 0) == Some(Claim::Stopped));
}
