//! What was given to a layer, as it is written.

ghost use Rattle.std.specs.Prelude.{◌≡◌, ◌++◌, OnOk};
ghost use Rattle.qc_frame.specs.Frame.{owned};
ghost use Rattle.qc_frame.specs.FrameSpelling.{spelling};

use qc_frame::{OwnedFrame, put_frames};
use std::alloc::AllocError;
use std::marker::Model;
use std::slice;

/// What was given.
#[derive(Drop)]
pub enum Part {
    /// Bytes of the handshake.
    Bytes(Vec<u8>),
    /// A frame, which is spelled where it is asked for.
    Frame(OwnedFrame),
}

/// What was given to a layer. Contracts see it as it is written.
#[derive(Drop)]
pub struct Given {
    part: Part,
}

impl Model for Given {
    ghost use Rattle.std.specs.Prelude.{ℕ, List};
    ghost use Rattle.qc_state.specs.Given.{written};

    ghost Value = { List ℕ };

    ghost view = { λ g. written g.part };
}

/// Appends a frame as it is written. Want of memory is the only refusal.
fn put_spelled(out: &mut Vec<u8>, frame: &OwnedFrame) -> Result<(), AllocError>
    ensures { OnOk result (out.new.items ≡ out.old.items ++ spelling (owned frame.now)) }
{
    put_frames(out, slice::from_ref(frame))
}

impl Given {
    /// Bytes of the handshake.
    pub fn of_bytes(bytes: Vec<u8>) -> Given
        ensures { result ≡ bytes.items }
    {
        Given {
            part: Part::Bytes(bytes),
        }
    }

    /// A frame.
    pub fn of_frame(frame: OwnedFrame) -> Given
        ensures { result ≡ spelling (owned frame) }
    {
        Given {
            part: Part::Frame(frame),
        }
    }

    /// Appends it as it is written. Want of memory is the only refusal.
    pub fn put(&self, out: &mut Vec<u8>) -> Result<(), AllocError>
        ensures { OnOk result (out.new.items ≡ out.old.items ++ self.now) }
    {
        match &self.part {
            Part::Bytes(bytes) => out.extend_from_slice(bytes.as_slice()),
            Part::Frame(frame) => put_spelled(out, frame),
        }
    }
}
