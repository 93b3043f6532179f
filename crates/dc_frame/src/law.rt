//! The law of a frame that is used again.

ghost use Rattle.std.specs.Prelude.{◌≡◌, ℕ};
ghost use Rattle.dc_code.specs.Codes.{CodeLists};
ghost use Rattle.dc_code.specs.Frames.{Frame};
ghost use Rattle.dc_code.specs.Machine.{new_frame};
ghost use Rattle.dc_frame.specs.Units.{BeganAt, restarted};

/// A frame whose outermost unit is one of a part is, when it is reset, a new frame of that part.
pub fn a_frame_that_is_reset_is_new()
    ensures { (code : CodeLists) (entry : ℕ) (frame : Frame)
        → BeganAt code entry frame → restarted frame ≡ new_frame code entry }
{}
