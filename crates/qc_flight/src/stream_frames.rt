//! The STREAM frames of a packet that was sent, without their bytes.

ghost use Rattle.std.specs.Prelude.{◌≡◌, [], ◌∷◌, ◌++◌, OnOk, OnErr};

use qc_base::StreamId;
use std::alloc::{AllocError, Global};
use std::marker::Model;
use std::slice;

/// Which bytes of a stream a STREAM frame held, and whether the stream's end was with them (RFC 9000, section 19.8). The bytes
/// themselves stay with the stream until they are acknowledged.
#[derive(Clone, Copy, Debug, PartialEq, Eq, Drop)]
pub struct StreamMeta {
    /// The stream's id.
    pub id: StreamId,
    /// The offset of the first byte.
    pub start: u64,
    /// The offset behind the last byte.
    pub end: u64,
    /// Whether the stream ends behind them.
    pub fin: bool,
}

/// The STREAM frames of a packet, in their order.
#[derive(Debug, Drop)]
pub struct StreamMetaVec {
    // one that is alone, which takes no memory; then there are no several
    one: Option<StreamMeta>,
    several: Vec<StreamMeta>,
}

impl Model for StreamMetaVec {
    ghost use Rattle.std.specs.Prelude.{List};
    ghost use Rattle.qc_flight.specs.declared.stream_frames.StreamMeta.{StreamMeta};

    ghost Value = { List StreamMeta };

    ghost use Rattle.qc_flight.specs.StreamFrames.{frames_held};

    ghost view = { λ l. frames_held l.one l.several.items };
}

impl StreamMetaVec {
    /// None, which holds no memory.
    pub fn new(alloc: Global) -> StreamMetaVec
        ensures { result ≡ [] }
    {
        StreamMetaVec {
            one: None,
            several: Vec::new(alloc),
        }
    }

    /// Appends a frame. After want of memory the list is as before.
    pub fn push(&mut self, frame: StreamMeta) -> Result<(), AllocError>
        ensures ok { OnOk result (self.new ≡ self.old ++ frame ∷ []) }
        ensures err { OnErr result (self.new ≡ self.old) }
    {
        match self.one {
            Some(one) => {
                push_both(&mut self.several, one, frame)?;
                self.one = None;
                Ok(())
            }
            None => {
                if self.several.is_empty() {
                    self.one = Some(frame);
                    return Ok(());
                }
                self.several.push(frame)?;
                Ok(())
            }
        }
    }

    /// The frames.
    pub fn as_slice(&self) -> &[StreamMeta]
        ensures { result.now ≡ self.now }
    {
        match &self.one {
            Some(one) => slice::from_ref(one),
            None => self.several.as_slice(),
        }
    }
}

/// Puts two frames in the place of all. Want of memory is the only refusal.
fn push_both(
    several: &mut Vec<StreamMeta>,
    one: StreamMeta,
    other: StreamMeta,
) -> Result<(), AllocError>
    ensures { OnOk result (several.new.items ≡ one ∷ other ∷ []) }
{
    several.clear();
    several.reserve(2)?;
    several.push_reserved(one);
    several.push_reserved(other);
    Ok(())
}
