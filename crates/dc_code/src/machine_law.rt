//! Laws of the machine.

ghost use Rattle.std.specs.Prelude.{◌≡◌, ℕ, slice_get};
ghost use Rattle.dc_code.specs.Codes.{CodeLists};
ghost use Rattle.dc_code.specs.Frames.{Frame};
ghost use Rattle.dc_code.specs.Machine.{machine, fetched};

/// A run from a place is the instruction there, and then a run from where that goes on.
pub fn the_machine_carries_out_one_instruction()
    ensures { (code : CodeLists) (at : ℕ) (frame : Frame) (turns : ℕ)
        → machine code at frame turns ≡ fetched code (machine code) (slice_get code.instructions at) at frame turns }
{}
