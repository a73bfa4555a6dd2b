// A frame that a run and a job have in common.

ghost use Rattle.std.specs.Prelude.{◌≡◌};
ghost use Rattle.device.specs.Blank.{IsBlank};
ghost use Rattle.device.specs.Standing.{frame_parts};

use crate::blank::take_cells;
use kernel::Frame;
use std::alloc::Global;
use std::marker::Model;
use std::ops::Deref;
use std::sync::Arc;

#[derive(Drop)]
enum Owner<'a> {
    Sole(Frame<'a>),
    Shared(Arc<Frame<'a>>),
}

/// A frame that may have two owners, and then is in memory once.
#[derive(Drop)]
pub struct SharedFrame<'a> {
    owner: Owner<'a>,
}

impl<'a> Model for SharedFrame<'a> {
    ghost use Rattle.kernel.specs.declared.frames.Frame.{Frame};
    ghost use Rattle.device.specs.Shared.{frame_of};

    ghost Value = { Frame };

    ghost view = { λ f. frame_of f.owner };
}

impl<'a> Deref for SharedFrame<'a> {
    type Target = Frame<'a>;

    ghost deref_gives = { λ f x. x ≡ f };

    fn deref(&self) -> &Frame<'a>
        ensures { result.now ≡ self.now }
    {
        match &self.owner {
            Owner::Sole(frame) => frame,
            Owner::Shared(frame) => frame,
        }
    }
}

impl<'a> SharedFrame<'a> {
    /// A frame with one owner.
    pub fn new(frame: Frame<'a>) -> SharedFrame<'a>
        ensures { result ≡ frame.entry }
    {
        SharedFrame {
            owner: Owner::Sole(frame),
        }
    }

    fn shared(frame: Arc<Frame<'a>>) -> SharedFrame<'a>
        ensures { result ≡ frame.entry.value }
    {
        SharedFrame {
            owner: Owner::Shared(frame),
        }
    }

    /// A frame with two owners. Where there is no memory to say so they have two frames, of which the second is the
    /// blank one with the cells of the first.
    pub fn pair(
        alloc: Global,
        frame: Frame<'a>,
        mut blank: Frame<'a>,
    ) -> (SharedFrame<'a>, SharedFrame<'a>)
        requires { IsBlank (frame_parts frame) blank }
        ensures first { result.0 ≡ frame.entry }
        ensures second { frame_parts result.1 ≡ frame_parts frame.entry }
    {
        match Arc::new(alloc, frame) {
            Ok(frame) => match frame.clone() {
                Ok(other) => (SharedFrame::shared(frame), SharedFrame::shared(other)),
                Err(_) => {
                    take_cells(&mut blank, &frame);
                    (SharedFrame::shared(frame), SharedFrame::new(blank))
                }
            },
            Err(failed) => {
                take_cells(&mut blank, &failed.value);
                (SharedFrame::new(failed.value), SharedFrame::new(blank))
            }
        }
    }
}
