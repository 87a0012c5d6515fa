//! Frames kept in a list.

ghost use Rattle.std.specs.Prelude.{◌≡◌, ◌==◌, ℕ, take, ◌+◌, ◌≤◌, ◌^◌, [], ◌∷◌, ◌++◌, length, map, replicate, IfOk, OnOk, OnErr};
ghost use Rattle.qc_frame.specs.Frame.{borrowed, owned};
ghost use Rattle.qc_frame.specs.FrameSpelling.{frames_spelling};
ghost use Rattle.qc_frame.specs.Payload.{items_of, untyped, with_fault};
ghost use Rattle.qc_frame.specs.declared.frames.FrameOf.TheVariants.{Padding};

use crate::fault::InvalidFrame;
use crate::frames::{Frame, FrameOf, OwnedFrame};
use crate::iter::Iter;
use crate::write::put_frame;
use qc_base::or_cut_back;
use std::alloc::{AllocError, Global};
use std::marker::Model;

/// Frames in their order, with byte strings of their own. PADDING frames at the end are only
/// counted, since a packet may end in a thousand of them.
#[derive(Debug, Drop)]
pub struct FrameList {
    frames: Vec<OwnedFrame>,
    padding: u64,
}

impl Model for FrameList {
    ghost use Rattle.std.specs.Prelude.{List, ◌++◌, map, replicate};
    ghost use Rattle.qc_frame.specs.Frame.{FrameValue, owned};
    ghost use Rattle.qc_frame.specs.declared.frames.FrameOf.TheVariants.{Padding};

    ghost Value = { List FrameValue };

    ghost view = { λ l. map owned l.frames.items ++ replicate l.padding Padding };
}

impl FrameList {
    /// An empty list, which holds no memory.
    pub fn new(alloc: Global) -> FrameList
        ensures { result ≡ [] }
    {
        FrameList {
            frames: Vec::new(alloc),
            padding: 0,
        }
    }

    /// Whether there is no frame.
    pub fn is_empty(&self) -> bool
        ensures { result ≡ (length self.now == 0) }
    {
        self.frames.is_empty() && self.padding == 0
    }

    /// Appends a frame. PADDING frames that were counted are first written out as frames. After
    /// want of memory the list is as before.
    #[inline(always)]
    pub fn push(&mut self, frame: OwnedFrame) -> Result<(), AllocError>
        ensures ok { OnOk result (self.new ≡ self.old ++ owned frame ∷ []) }
        ensures err { OnErr result (self.new ≡ self.old) }
    {
        let len = self.frames.len();
        match push_behind(&mut self.frames, self.padding, frame) {
            Ok(()) => {
                self.padding = 0;
                Ok(())
            }
            Err(e) => {
                self.frames.truncate(len);
                Err(e)
            }
        }
    }

    /// Appends `count` PADDING frames, for which no memory is taken. Refused, as more than memory
    /// can hold, only where the list would come to 2^64 frames or more; then it is as before.
    #[tactic(auto, using(crate::proofs::Padded::padded_more))]
    pub fn push_padding(&mut self, count: u64) -> Result<(), AllocError>
        ensures ok { OnOk result (self.new ≡ self.old ++ replicate count Padding) }
        ensures err { OnErr result (self.new ≡ self.old) }
        ensures full { OnErr result (2 ^ 64 ≤ length self.old + count) }
    {
        if count > u64::MAX - self.padding {
            return Err(AllocError);
        }
        self.padding += count;
        Ok(())
    }

    /// Appends a frame that was read. After want of memory the list is as before.
    pub fn push_read(&mut self, alloc: Global, frame: &Frame<'_>) -> Result<(), AllocError>
        ensures ok { OnOk result (self.new ≡ self.old ++ borrowed frame.now ∷ []) }
        ensures err { OnErr result (self.new ≡ self.old) }
    {
        if let FrameOf::Padding = frame {
            return self.push_padding(1);
        }
        let frame = frame.to_owned(alloc)?;
        self.push(frame)
    }

    /// The frames of a payload, and the fault that ended it, if one did.
    pub fn read_all(
        alloc: Global,
        frames: Iter<'_>,
    ) -> Result<(FrameList, Option<InvalidFrame>), AllocError>
        ensures { IfOk result (λ r. map untyped (items_of frames.entry) ≡ with_fault r.0 r.1) }
    {
        let mut list = FrameList::new(alloc);
        for item in frames {
            match item {
                Ok(read) => list.push_read(alloc, &read.frame)?,
                Err(invalid) => return Ok((list, Some(invalid))),
            }
        }
        Ok((list, None))
    }

    /// The frames, but for PADDING frames at the end that are only counted, and how many of these
    /// follow.
    pub fn parts(&self) -> (&[OwnedFrame], u64)
        ensures { self.now ≡ map owned result.0.now ++ replicate result.1 Padding }
    {
        (self.frames.as_slice(), self.padding)
    }

    /// The same frames again, with memory of their own. Want of memory is the only refusal.
    pub fn copy(&self, alloc: Global) -> Result<FrameList, AllocError>
        ensures { IfOk result (λ copy. copy ≡ self.now) }
    {
        let mut frames = Vec::new(alloc);
        copy_each(&mut frames, alloc, self.frames.as_slice())?;
        Ok(FrameList {
            frames,
            padding: self.padding,
        })
    }

    /// Appends the frames' spelling. After want of memory `out` is as before.
    pub fn put(&self, out: &mut Vec<u8>) -> Result<(), AllocError>
        ensures ok { OnOk result (out.new.items ≡ out.old.items ++ frames_spelling self.now) }
        ensures err { OnErr result (out.new.items ≡ out.old.items) }
    {
        let len = out.len();
        or_cut_back(put_all(out, self.frames.as_slice(), self.padding), out, len)
    }
}

/// Appends the spelling of these frames, one after the other. After want of memory `out` is as
/// before.
pub fn put_frames(out: &mut Vec<u8>, frames: &[OwnedFrame]) -> Result<(), AllocError>
    ensures ok { OnOk result (out.new.items ≡ out.old.items ++ frames_spelling (map owned frames.now)) }
    ensures err { OnErr result (out.new.items ≡ out.old.items) }
{
    let len = out.len();
    or_cut_back(put_each(out, frames), out, len)
}

// Each function below leaves what stood in its vector where it was, also where memory runs out.

// Appends `padding` PADDING frames and then `frame`.
fn push_behind(
    frames: &mut Vec<OwnedFrame>,
    padding: u64,
    frame: OwnedFrame,
) -> Result<(), AllocError>
    ensures ok { OnOk result (map owned frames.new.items ≡ (map owned frames.old.items ++ replicate padding Padding) ++ owned frame ∷ []) }
    ensures kept { take (length frames.old.items) frames.new.items ≡ frames.old.items }
{
    push_each(frames, padding)?;
    frames.push(frame)?;
    Ok(())
}

#[tactic(auto, using(crate::proofs::Padded::padded_one))]
fn push_each(frames: &mut Vec<OwnedFrame>, padding: u64) -> Result<(), AllocError>
    ensures ok { OnOk result (map owned frames.new.items ≡ map owned frames.old.items ++ replicate padding Padding) }
    ensures kept { take (length frames.old.items) frames.new.items ≡ frames.old.items }
{
    for i in 0..padding {
        frames.push(FrameOf::Padding)?;
    }
    Ok(())
}

// Appends copies of the frames.
fn copy_each(
    copies: &mut Vec<OwnedFrame>,
    alloc: Global,
    frames: &[OwnedFrame],
) -> Result<(), AllocError>
    ensures { OnOk result (map owned copies.new.items ≡ map owned copies.old.items ++ map owned frames.now) }
{
    for frame in frames {
        copies.push(frame.as_frame().to_owned(alloc)?)?;
    }
    Ok(())
}

// Appends the frames' spelling and then that of `padding` PADDING frames, which are zero bytes.
fn put_all(out: &mut Vec<u8>, frames: &[OwnedFrame], padding: u64) -> Result<(), AllocError>
    ensures ok { OnOk result (out.new.items ≡ out.old.items ++ frames_spelling (map owned frames.now ++ replicate padding Padding)) }
    ensures kept { take (length out.old.items) out.new.items ≡ out.old.items }
{
    put_each(out, frames)?;
    put_padding(out, padding)
}

fn put_each(out: &mut Vec<u8>, frames: &[OwnedFrame]) -> Result<(), AllocError>
    ensures ok { OnOk result (out.new.items ≡ out.old.items ++ frames_spelling (map owned frames.now)) }
    ensures kept { take (length out.old.items) out.new.items ≡ out.old.items }
{
    for frame in frames {
        put_frame(out, &frame.as_frame())?;
    }
    Ok(())
}

#[tactic(auto, using(crate::proofs::Padded::zeros))]
fn put_padding(out: &mut Vec<u8>, padding: u64) -> Result<(), AllocError>
    ensures ok { OnOk result (out.new.items ≡ out.old.items ++ frames_spelling (replicate padding Padding)) }
    ensures err { OnErr result (out.new.items ≡ out.old.items) }
{
    let len = out.len() as u64;
    if padding > u64::MAX - len {
        return Err(AllocError);
    }
    out.resize((len + padding) as usize, 0)
}
